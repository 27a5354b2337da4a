ghost use Rattle.std.specs.Prelude.{min};
ghost use Rattle.std.proofs.Common.{rules};

use crate::terms::{Termed, Terms};

// A month's deposit: its terms are the cap of its refund.
pub type Deposit = Termed<u32>;

impl Terms for u32 {
    const LIFE: u16 = 12;

    ghost LIFE = { 12 };

    ghost meant = { λ number. number };

    ghost kept = { λ «cap». «cap» };

    ghost refund = { λ «cap» left. min «cap» left };

    ghost lasting = { Prim.search rules };

    ghost short = { Prim.search rules };

    ghost within = { Prim.search rules };

    fn of(number: u32) -> u32 {
        number
    }

    fn number(self) -> u32 {
        self
    }

    fn refund(self, left: u32) -> u32 {
        self.min(left)
    }
}
