//! Accounts by what they mean: month states, settlements, histories of calls, and what is promised after every history.
#![tactic(auto)]

ghost use Rattle.settlement.specs.Promises.{KeepsPromise};
ghost use Rattle.settlement.specs.Decided.{SettlementsDecided};
ghost use Rattle.histories.specs.Runs.{CallsHaveHistories, HistoriesDecide, BeginningsAreHistories};
ghost use Rattle.settlement.specs.Accounts.{machine};
ghost use Rattle.settlement.specs.Metering.{metering};
ghost use Rattle.settlement.specs.Billing.{billing};
ghost use Rattle.settlement.specs.Rounding.{RoundsMoney};
ghost use Rattle.settlement.specs.Ending.{EndsPortions};
ghost use Rattle.settlement.specs.Year.{EndsPeriods};
ghost use Rattle.settlement.specs.Tenths.{GivesTenths};
ghost use Rattle.settlement.specs.Listed.{ListsZones, NamesZones};
ghost use Rattle.settlement.specs.Room.{AsksForLines};
ghost use Rattle.settlement.specs.Entries.{TakesByZone};
ghost use Rattle.histories.specs.Unopened.{UnopenedHaveHistories};
ghost use Rattle.settlement.specs.Unopened.{ShutUntilOpened};

mod answers;
mod standing;
mod states;
mod zones;

pub use answers::{Line, Payment, Returned, Settlement, zone_number};
pub use hours::Zone;
pub use standing::{Account, Standing};
pub use states::{Call, MonthState, Period};
pub use zones::Zones;

// A metering account keeps its promise after every history.
pub fn metering_keeps_promise()
    ensures { KeepsPromise metering }
{}

// A billing account keeps its promise after every history.
pub fn billing_keeps_promise()
    ensures { KeepsPromise billing }
{}

// The laws of coverings decide what an accepted settlement covers, leaves due and uses.
pub fn settlements_decided()
    ensures metering { SettlementsDecided metering }
    ensures billing { SettlementsDecided billing }
{}

// Every list of calls after an opening has a history.
pub fn calls_have_histories()
    ensures metering { CallsHaveHistories (machine metering) }
    ensures billing { CallsHaveHistories (machine billing) }
{}

// A history decides where the account stands.
pub fn histories_decide()
    ensures metering { HistoriesDecide (machine metering) }
    ensures billing { HistoriesDecide (machine billing) }
{}

// What a history began with is a history.
pub fn beginnings_are_histories()
    ensures metering { BeginningsAreHistories (machine metering) }
    ensures billing { BeginningsAreHistories (machine billing) }
{}

// An account that was never opened tells no portion and has refused every call, all but openings by 1.
pub fn shut_until_opened()
    ensures metering { ShutUntilOpened metering }
    ensures billing { ShutUntilOpened billing }
{}

// Every list of calls that it refuses has a history.
pub fn unopened_have_histories()
    ensures metering { UnopenedHaveHistories (machine metering) metering.closed }
    ensures billing { UnopenedHaveHistories (machine billing) billing.closed }
{}

// Bills and deposits are rounded to the nearest grosz, and caps down.
pub fn money_is_rounded()
    ensures { RoundsMoney }
{}

// Portions end after 12 months, when what is left in one is refunded or lost.
pub fn portions_end()
    ensures { EndsPortions }
{}

// Periods end with their months of the year.
pub fn periods_end()
    ensures { EndsPeriods }
{}

// The tenths covered follow the power.
pub fn tenths_follow_power()
    ensures { GivesTenths }
{}

// Every zone is listed once, and named as the tariff does.
pub fn zones_listed()
    ensures metering { ListsZones metering }
    ensures billing { ListsZones billing }
    ensures named { NamesZones }
{}

// A settlement asks for room for every portion that can be open.
pub fn lines_have_room()
    ensures { AsksForLines }
{}

// A metering account stores each zone's export, and its import is pending.
pub fn sums_go_by_zone()
    ensures { TakesByZone }
{}
