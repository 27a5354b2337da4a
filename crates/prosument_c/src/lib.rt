//! The engine for C: record files put together in memory, and their report.
#![tactic(auto)]

mod file;
mod numbers;
mod text;

pub use file::{
    TariffOfC, prosument_finish, prosument_hour_prices, prosument_month_price,
    prosument_open_billing, prosument_open_book, prosument_open_metering, prosument_reading,
    prosument_settle, prosument_turn,
};
pub use text::prosument_report;
