// Lists of prices, read from bytes and written as the record of the hours' prices.
ghost use Rattle.std.specs.Prelude.{◌≡◌, ◌≢◌, ◌≤◌, [], length, IfOk, OnErr, MatchResult};
ghost use Rattle.records.specs.Prices.{price_at, prices_read};
ghost use Rattle.records.specs.Records.{gives_hour_prices};
ghost use Rattle.records.specs.Says.{Says};
ghost use Rattle.records.specs.Unwritten.{UnwrittenSince};
ghost use Rattle.records.specs.declared.prices.Unwritten.TheVariants.{NoMemory};

use faults::ProgramFault;
use std::alloc::{AllocError, Global};

// The price of four bytes.
pub(crate) fn price_of(bytes: [u8; 4]) -> i32
    ensures { result ≡ price_at bytes 0 }
{
    i32::from_le_bytes(bytes)
}

// The prices that stand in the bytes, four bytes each.
pub fn price_list(heap: Global, bytes: &[u8]) -> Result<Vec<i32>, AllocError>
    ensures prices { IfOk result (λ v. v.items ≡ prices_read bytes.now) }
    ensures wanting { OnErr result (prices_read bytes.now ≢ []) }
{
    // No memory is asked for where no price stands.
    if bytes.len() < 4 {
        return Ok(Vec::new(heap));
    }
    let (fours, _) = bytes.as_chunks::<4>();
    fours.iter().map(|four| price_of(*four)).collect(heap)
}

// Why prices were not written: there are too many, or there is no memory for the bytes.
#[derive(Clone, Copy)]
pub enum Unwritten {
    Refused(ProgramFault),
    NoMemory,
}

// By hand: a clause names the error that `?` makes, and a derived From promises none.
impl From<AllocError> for Unwritten {
    ghost from_gives = { λ _ r. r ≡ NoMemory };

    fn from(_error: AllocError) -> Unwritten {
        Unwritten::NoMemory
    }
}

// The record of the hours' prices, of which there may be 745.
pub fn encode_hour_prices(heap: Global, prices: &[i32]) -> Result<Vec<u8>, Unwritten>
    ensures { MatchResult result (λ v. (length prices.now ≤ 745) × Says v.items (gives_hour_prices prices.now)) (λ e. UnwrittenSince prices.now e) }
{
    if prices.len() > 745 {
        return Err(Unwritten::Refused(ProgramFault::Malformed));
    }
    let [len0, len1] = (4 * prices.len() as u16).to_le_bytes();
    let mut bytes = Vec::with_capacity(heap, 4 + 4 * prices.len())?;
    bytes.extend_from_slice(&[len0, len1, 5, 0])?;
    for price in prices {
        bytes.extend_from_slice(&price.to_le_bytes())?;
    }
    Ok(bytes)
}
