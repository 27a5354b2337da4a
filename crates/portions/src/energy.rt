ghost use Rattle.std.proofs.Common.{rules};

use crate::terms::{Termed, Terms};

// A month's energy: no terms, and no refund.
pub type Energy = Termed<()>;

impl Terms for () {
    const LIFE: u16 = 12;

    ghost LIFE = { 12 };

    ghost meant = { λ _. tt };

    ghost kept = { λ _. 0 };

    ghost refund = { λ _ _. 0 };

    ghost lasting = { Prim.search rules };

    ghost short = { Prim.search rules };

    ghost within = { Prim.search rules };

    fn of(_number: u32) {}

    fn number(self) -> u32 {
        0
    }

    fn refund(self, _left: u32) -> u32 {
        0
    }
}
