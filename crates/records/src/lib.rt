//! The records of a record file: where one ends, what it says, and its bytes.
//!
//! A record is the length of its payload and its kind, both two bytes, and then the payload.
//! Each number stands with its lowest byte first. The kinds and their payloads:
//!
//! | kind | says | payload | bytes |
//! |---|---|---|---|
//! | 1 | opens metering | month u16, power u32, period u8 | 7 |
//! | 2 | opens billing | month u16, percentage u8 | 3 |
//! | 3 | opens a book | 24 zone marks of a working day, 24 of Saturday and Sunday, three sale prices u32 | 60 |
//! | 4 | the month's price | price i32 | 4 |
//! | 5 | the hours' prices | up to 745 prices i32, also none | four for each |
//! | 6 | a reading | import u32, export u32 | 8 |
//! | 7 | finish the book and enter it | | 0 |
//! | 8 | settle | | 0 |
//! | 9 | turn to the next month | | 0 |
#![tactic(auto)]

mod bare;
mod decoding;
mod encoding;
mod frames;
mod left;
mod prices;
mod readings;

pub use bare::Bare;
pub use decoding::{Record, decode};
pub use encoding::{
    encode_bare, encode_billing, encode_book, encode_metering, encode_month_price, encode_reading,
};
pub use frames::{Frame, Placed, next_frame};
pub use left::Frames;
pub use prices::{Unwritten, encode_hour_prices, price_list};
pub use readings::{NextReading, next_reading};
