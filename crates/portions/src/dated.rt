ghost use Rattle.std.specs.Prelude.{cond, nat_le};
ghost use Rattle.std.proofs.Common.{rules};

use crate::amounts::Amounts;
use crate::rules::Rule;

// Follows one rule through a month, and another afterwards.
#[derive(Clone, Copy)]
pub struct Dated<A, B> {
    pub through: u16,
    pub first: A,
    pub then: B,
}

impl<A: Rule, B: Rule> Rule for Dated<A, B> {
    ghost gives = { λ s m ls w. cond (nat_le m s.through) (A.Rule.gives s.first m ls w) (B.Rule.gives s.then m ls w) };

    ghost sized = { Prim.search rules };

    ghost bounded = { Prim.search rules };

    ghost full = { Prim.search rules };

    fn give(&self, month: u16, left: &Amounts, wanted: u32) -> Amounts {
        if month <= self.through {
            self.first.give(month, left, wanted)
        } else {
            self.then.give(month, left, wanted)
        }
    }
}
