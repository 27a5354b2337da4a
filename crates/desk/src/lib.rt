//! The program's desk: an account, a book with its prices, and a step for each record of a file.
#![tactic(auto)]

mod account_calls;
mod book;
mod step_fault;
mod steps;

pub use account_calls::{Accounts, Sort};
pub use book::OpenBook;
pub use step_fault::StepFault;
pub use steps::Desk;
