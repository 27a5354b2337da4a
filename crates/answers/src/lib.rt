//! What the program answers to a record, and the text that it prints for it.
#![tactic(auto)]

mod kinds;
mod printing;
mod spelling;

pub use kinds::{Answer, Printed};
pub use printing::{print_answer, print_refusal};
