// From meter readings to the sums of a month: price sources, the month book and the sums that it is finished into.
#![tactic(auto)]

ghost use Rattle.hours.specs.Runs.{LeftAsAsked, OnlyAnswersMatter, OnlyAnswersMatterInMonth};
ghost use Rattle.hours.specs.Source.{AskingChangesNone};

mod book;
mod marks;
mod prices;
mod sums;
mod whole;
mod zones;

pub use book::{Book, Reading, Tally, Tariff, Terms, Unfinished};
pub use marks::Marks;
pub use marks::calls::all_zones;
pub use prices::{HourPrices, MonthPrice, PriceSource, StandIn, StillSource};
pub use sums::{Energies, MonthSums, Totals};
pub use whole::{MonthRefused, sum_month};
pub use zones::Zone;

// Asking a price source for a list of places, however long, changes no later answer.
pub fn asking_changes_none<S: PriceSource>()
    ensures { AskingChangesNone S.PriceSource }
{}

// A list of readings leaves a price source as asking for the places that need a price does.
pub fn readings_leave_as_asked<S: PriceSource>()
    ensures { LeftAsAsked S.PriceSource }
{}

// A book learns of a price source only what it asks: readings end alike, and a month is summed up alike, with any two that give the
// same where one is asked.
pub fn only_answers_matter<S: PriceSource, T: PriceSource>()
    ensures readings { OnlyAnswersMatter S.PriceSource T.PriceSource }
    ensures month { OnlyAnswersMatterInMonth S.PriceSource T.PriceSource }
{}
