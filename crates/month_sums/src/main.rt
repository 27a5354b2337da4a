// The sums of one month from a text on standard input: the month with its prices, the zone marks of the tariff, and
// a meter reading for each hour.
#![tactic(auto)]

use crate::complaint::Complaint;
use crate::input::parse;
use crate::sums::sums_of;
use crate::table::Table;
use std::alloc::Global;
use std::io;
use std::process::ExitCode;

mod complaint;
mod input;
mod month;
mod refusal;
mod sums;
mod table;
#[cfg(test)]
mod tests;
mod word;

// The table that the input's text makes, as it is printed.
fn month_table(heap: Global, text: &str) -> Result<String, Complaint> {
    let input = parse(heap, text)?;
    let hours = input.hours.readings.len();
    let table = Table::of(sums_of(input)?, hours);
    let printed = format!(in heap; "{table}")?;
    Ok(printed)
}

fn run(rt: &HostRuntime) -> Result<(), Complaint> {
    let text = io::read_to_string(rt.alloc(), rt.stdin()).map_err(|_| Complaint::Unreadable)?;
    let table = month_table(rt.alloc(), text.as_str())?;
    rt.print(table.as_str()).map_err(|_| Complaint::Unwritable)
}

fn main(rt: HostRuntime) -> ExitCode {
    let Err(complaint) = run(&rt) else {
        return ExitCode::SUCCESS;
    };
    let _ = eprintln!(rt; "{complaint}");
    ExitCode::FAILURE
}
