ghost use Rattle.std.specs.Prelude.{◌≡◌};
ghost use Rattle.portions.specs.Listed.{listed};
ghost use Rattle.portions.specs.Taking.{oldest};
ghost use Rattle.portions.specs.TakingByPlace.{OldestByPlace};
ghost use Rattle.portions.specs.Takes.{oldest_length, oldest_bounded, oldest_sum};

use crate::amounts::Amounts;
use crate::rules::Rule;

// Takes from the oldest portions first.
#[derive(Clone, Copy)]
pub struct OldestFirst;

// Takes from each amount the smaller of it and what the older ones have left open.
fn take_oldest(left: &Amounts, wanted: u32) -> Amounts
    ensures { listed result ≡ oldest (listed left.now) wanted }
{
    let mut takings = Amounts::new();
    let mut rest = wanted;
    for &amount in left.as_slice() {
        let taking = rest.min(amount);
        takings.push(taking);
        rest -= taking;
    }
    takings
}

impl Rule for OldestFirst {
    ghost gives = { λ _ _ ls w. oldest ls w };

    ghost sized = { λ s m w ls few. oldest_length ls w };

    ghost bounded = { λ s m w ls few i. oldest_bounded ls w i };

    ghost full = { λ s m w ls few. oldest_sum ls w };

    fn give(&self, _month: u16, left: &Amounts, wanted: u32) -> Amounts {
        take_oldest(left, wanted)
    }
}

// From the amount at each place the smaller of it and what the older ones have not served.
pub fn takes_by_place()
    ensures { OldestByPlace }
{}
