// The bytes of records.
ghost use Rattle.std.specs.Prelude.{◌≡◌, ◌+◌, ◌≤◌, [], ◌∷◌, ◌++◌, length, take, slice_index};
ghost use Rattle.records.specs.Bare.{bare_said};
ghost use Rattle.records.specs.Records.{gives_month_price, opens_billing, opens_book, opens_metering, reading, sale_at};
ghost use Rattle.records.specs.Says.{BookBytes, Says};

use crate::bare::Bare;

// The record that opens metering.
pub fn encode_metering(month: u16, power: u32, period: u8) -> [u8; 11]
    ensures { Says result (opens_metering month power period) }
{
    let [m0, m1] = month.to_le_bytes();
    let [p0, p1, p2, p3] = power.to_le_bytes();
    [7, 0, 1, 0, m0, m1, p0, p1, p2, p3, period]
}

// The record that opens billing.
pub fn encode_billing(month: u16, percentage: u8) -> [u8; 7]
    ensures { Says result (opens_billing month percentage) }
{
    let [m0, m1] = month.to_le_bytes();
    [3, 0, 2, 0, m0, m1, percentage]
}

// The sale prices, four bytes each.
fn sale_bytes(sale: [u32; 3]) -> [u8; 12]
    ensures { sale_at result 0 ≡ slice_index sale 0 ∷ slice_index sale 1 ∷ slice_index sale 2 ∷ [] }
{
    let [first, second, third] = sale;
    let [a0, a1, a2, a3] = first.to_le_bytes();
    let [b0, b1, b2, b3] = second.to_le_bytes();
    let [c0, c1, c2, c3] = third.to_le_bytes();
    [a0, a1, a2, a3, b0, b1, b2, b3, c0, c1, c2, c3]
}

// Writes the part into the bytes from a place on; what stands before the place is kept.
// (In one function, over the whole array, the proof that the last part is within did not close.)
fn write_at(bytes: &mut [u8], place: usize, part: &[u8])
    requires { place + length part.now ≤ length bytes.old }
    ensures { take (place + length part.now) bytes.new ≡ take place bytes.old ++ part.now }
{
    bytes[place..place + part.len()].copy_from_slice(part);
}

// A book's head, two rows of marks and the bytes of the sale prices.
fn book_bytes(working: &[u8; 24], weekend: &[u8; 24], sale: &[u8; 12]) -> [u8; 64]
    ensures { BookBytes working.now weekend.now sale.now result }
{
    let mut bytes = [0; 64];
    write_at(&mut bytes, 0, &[60, 0, 3, 0]);
    write_at(&mut bytes, 4, working);
    write_at(&mut bytes, 28, weekend);
    write_at(&mut bytes, 52, sale);
    bytes
}

// The record that opens a book.
pub fn encode_book(marks: [[u8; 24]; 2], sale: [u32; 3]) -> [u8; 64]
    ensures { Says result (opens_book marks sale) }
{
    book_bytes(&marks[0], &marks[1], &sale_bytes(sale))
}

// The record of the month's price.
pub fn encode_month_price(price: i32) -> [u8; 8]
    ensures { Says result (gives_month_price price) }
{
    let [a, b, c, d] = price.to_le_bytes();
    [4, 0, 4, 0, a, b, c, d]
}

// The record of a reading.
pub fn encode_reading(import: u32, export: u32) -> [u8; 12]
    ensures { Says result (reading import export) }
{
    let [i0, i1, i2, i3] = import.to_le_bytes();
    let [e0, e1, e2, e3] = export.to_le_bytes();
    [8, 0, 6, 0, i0, i1, i2, i3, e0, e1, e2, e3]
}

// The record with no payload.
pub fn encode_bare(bare: Bare) -> [u8; 4]
    ensures { Says result (bare_said bare) }
{
    match bare {
        Bare::Finish => [0, 0, 7, 0],
        Bare::Settle => [0, 0, 8, 0],
        Bare::Turn => [0, 0, 9, 0],
    }
}
