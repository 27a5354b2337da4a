// Records appended to a file in the caller's memory: its bytes, and how many of them are in use.
ghost use Rattle.std.specs.Prelude.{◌≡◌, [], ◌∷◌};
ghost use Rattle.records.specs.Records.Rec.{finish, gives_month_price, opens_billing, opens_book, opens_metering, reading, settle, turn};
ghost use Rattle.prosument_c.specs.Files.{Appends, AppendsPrices, file_after, length_after, number_for};

use crate::numbers::{DONE, NO_MEMORY, NO_ROOM, TOO_MANY_PRICES};
use records::{
    Bare, Unwritten, encode_bare, encode_billing, encode_book, encode_hour_prices, encode_metering,
    encode_month_price, encode_reading,
};
use std::alloc::Global;

// The zone marks and sale prices that a book is opened with.
#[repr(C)]
#[derive(Clone, Copy)]
pub struct TariffOfC {
    pub working: [u8; 24],
    pub weekend: [u8; 24],
    pub sale: [u32; 3],
}

// Appends bytes to those in use, where they have room.
fn append(file: &mut [u8], used: &mut usize, bytes: &[u8]) -> u32
    ensures number { result ≡ number_for bytes.now file.old used.old }
    ensures laid { file.new ≡ file_after bytes.now file.old used.old }
    ensures counted { used.new ≡ length_after bytes.now file.old used.old }
{
    let Some(end) = used.checked_add(bytes.len()) else {
        return NO_ROOM;
    };
    if end > file.len() {
        return NO_ROOM;
    }
    file[*used..end].copy_from_slice(bytes);
    *used = end;
    DONE
}

// Appends the record that opens metering.
#[unsafe(no_mangle)]
pub extern "C" fn prosument_open_metering(
    file: &mut [u8],
    used: &mut usize,
    month: u16,
    power: u32,
    period: u8,
) -> u32
    ensures { Appends (opens_metering month power period) result file.old used.old file.new used.new }
{
    append(file, used, &encode_metering(month, power, period))
}

// Appends the record that opens billing.
#[unsafe(no_mangle)]
pub extern "C" fn prosument_open_billing(
    file: &mut [u8],
    used: &mut usize,
    month: u16,
    percentage: u8,
) -> u32
    ensures { Appends (opens_billing month percentage) result file.old used.old file.new used.new }
{
    append(file, used, &encode_billing(month, percentage))
}

// Appends the record that opens a book.
#[unsafe(no_mangle)]
pub extern "C" fn prosument_open_book(file: &mut [u8], used: &mut usize, tariff: &TariffOfC) -> u32
    ensures { Appends (opens_book (tariff.now.working ∷ tariff.now.weekend ∷ []) tariff.now.sale) result file.old used.old file.new used.new }
{
    let marks = [tariff.working, tariff.weekend];
    append(file, used, &encode_book(marks, tariff.sale))
}

// Appends the record of the month's price.
#[unsafe(no_mangle)]
pub extern "C" fn prosument_month_price(file: &mut [u8], used: &mut usize, price: i32) -> u32
    ensures { Appends (gives_month_price price) result file.old used.old file.new used.new }
{
    append(file, used, &encode_month_price(price))
}

// Appends the record of the hours' prices, of which there may be 745.
#[unsafe(no_mangle)]
pub extern "C" fn prosument_hour_prices(
    heap: Global,
    file: &mut [u8],
    used: &mut usize,
    prices: &[i32],
) -> u32
    ensures { AppendsPrices prices.now result file.old used.old file.new used.new }
{
    match encode_hour_prices(heap, prices) {
        Ok(bytes) => append(file, used, bytes.as_slice()),
        Err(Unwritten::Refused(_)) => TOO_MANY_PRICES,
        Err(Unwritten::NoMemory) => NO_MEMORY,
    }
}

// Appends the record of a reading.
#[unsafe(no_mangle)]
pub extern "C" fn prosument_reading(
    file: &mut [u8],
    used: &mut usize,
    import: u32,
    export: u32,
) -> u32
    ensures { Appends (reading import export) result file.old used.old file.new used.new }
{
    append(file, used, &encode_reading(import, export))
}

// Appends the record that finishes the book and enters its sums.
#[unsafe(no_mangle)]
pub extern "C" fn prosument_finish(file: &mut [u8], used: &mut usize) -> u32
    ensures { Appends finish result file.old used.old file.new used.new }
{
    append(file, used, &encode_bare(Bare::Finish))
}

// Appends the record that settles the account.
#[unsafe(no_mangle)]
pub extern "C" fn prosument_settle(file: &mut [u8], used: &mut usize) -> u32
    ensures { Appends settle result file.old used.old file.new used.new }
{
    append(file, used, &encode_bare(Bare::Settle))
}

// Appends the record that turns the account to the next month.
#[unsafe(no_mangle)]
pub extern "C" fn prosument_turn(file: &mut [u8], used: &mut usize) -> u32
    ensures { Appends turn result file.old used.old file.new used.new }
{
    append(file, used, &encode_bare(Bare::Turn))
}
