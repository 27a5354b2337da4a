//! The report of a record file: the text of a whole run.
#![tactic(auto)]

mod pieces;
mod run;
mod workplace;

pub use pieces::report_from;
pub use run::report;
