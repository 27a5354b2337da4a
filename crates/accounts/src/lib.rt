//! Metering and billing accounts, over slots that the caller provides.
#![tactic(auto)]

mod billing;
mod inside;
mod lines;
mod metering;

pub use billing::Billing;
pub use metering::Metering;
