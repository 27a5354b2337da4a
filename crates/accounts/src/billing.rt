ghost use Rattle.std.specs.Prelude.{◌≡◌, ◌≤◌};
ghost use Rattle.settlement.specs.declared.states.MonthState.TheVariants.{Waiting};
ghost use Rattle.accounts.specs.Means.{deposits};
ghost use Rattle.accounts.specs.Bounds.{FreeIn};

use portions::deposit::Deposit;
use settlement::MonthState;
use store::Store;

mod amounts;
mod calls;
mod tells;

// A billing account: a store of deposits, the bill to be settled, the percentage that caps refunds, and where in its month
// the account is.
#[derive(Drop)]
pub struct Billing<'a> {
    store: Store<'a, Deposit>,
    bill: u32,
    percentage: u8,
    state: MonthState,
    ghost share: { percentage ≤ 100 },
    ghost few: { bill ≤ 74500000 },
    ghost free: { state ≡ Waiting → FreeIn (deposits store) },
}
