// The calendar of the settlement months: January 2016 is month 0, December 2115 month 1,199.
#![tactic(auto)]

mod month;
mod table;

pub use month::Month;
pub use month::days::Hour;
