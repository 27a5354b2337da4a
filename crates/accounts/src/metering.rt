ghost use Rattle.std.specs.Prelude.{◌≡◌};
ghost use Rattle.settlement.specs.declared.states.MonthState.TheVariants.{Waiting};
ghost use Rattle.accounts.specs.Bounds.{Few, Free, Together, Within};

use coefficient::Coefficient;
use portions::energy::Energy;
use settlement::{MonthState, Period, Zones};
use store::Store;

mod calls;
mod coefficient;
mod covering;
mod stores;
mod tells;

// The meters of an account: a store for each zone, and the import that is pending in each. That the stores are open stands on
// the calls that need it, and is no fact of the type, since before an opening the same stores are not.
#[derive(Drop)]
struct Meters<'a> {
    stores: Zones<Store<'a, Energy>>,
    pending: Zones<u32>,
    ghost together: { Together stores },
    ghost within: { Within 447000000 pending },
}

// A metering account: its meters, the coefficient, the period, and where in its month the account is.
#[derive(Drop)]
pub struct Metering<'a> {
    meters: Meters<'a>,
    coefficient: Coefficient,
    period: Period,
    state: MonthState,
    ghost few: { Few state period meters.stores meters.pending },
    ghost free: { state ≡ Waiting → Free meters.stores },
}
