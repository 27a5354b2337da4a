// What a record says, read from its kind and payload.
ghost use Rattle.std.specs.Prelude.{◌≡◌};
ghost use Rattle.records.specs.Records.{decoded, decoded_billing, decoded_book, decoded_hours, decoded_metering, decoded_price, decoded_reading, exactly, read_model, record_model, sale_in};

use crate::prices::price_of;
use faults::ProgramFault;

// What a record says. Zone marks and hour prices stay as they stand in the payload, so that a record is small: most are readings.
#[derive(Clone, Copy)]
pub enum Record<'a> {
    OpenMetering {
        month: u16,
        power: u32,
        period: u8,
    },
    OpenBilling {
        month: u16,
        percentage: u8,
    },
    OpenBook {
        working: &'a [u8; 24],
        weekend: &'a [u8; 24],
        sale: [u32; 3],
    },
    MonthPrice(i32),
    HourPrices(&'a [u8]),
    Reading {
        import: u32,
        export: u32,
    },
    Finish,
    Settle,
    Turn,
}

// What a record of this kind says with this payload.
pub fn decode(kind: u16, payload: &[u8]) -> Result<Record<'_>, ProgramFault>
    ensures { read_model result ≡ decoded kind payload.now }
{
    // The numbers are the file's: an enum of the kinds would only name them between two matches.
    match kind {
        1 => metering(payload),
        2 => billing(payload),
        3 => book(payload),
        4 => month_price(payload),
        5 => hour_prices(payload),
        6 => reading(payload),
        7 => bare(payload, Record::Finish),
        8 => bare(payload, Record::Settle),
        9 => bare(payload, Record::Turn),
        _ => Err(ProgramFault::Malformed),
    }
}

// Month, power and period.
fn metering(payload: &[u8]) -> Result<Record<'_>, ProgramFault>
    ensures { read_model result ≡ decoded_metering payload.now }
{
    let [m0, m1, p0, p1, p2, p3, period] = payload else {
        return Err(ProgramFault::Malformed);
    };
    Ok(Record::OpenMetering {
        month: u16::from_le_bytes([*m0, *m1]),
        power: u32::from_le_bytes([*p0, *p1, *p2, *p3]),
        period: *period,
    })
}

// Month and percentage.
fn billing(payload: &[u8]) -> Result<Record<'_>, ProgramFault>
    ensures { read_model result ≡ decoded_billing payload.now }
{
    let [m0, m1, percentage] = payload else {
        return Err(ProgramFault::Malformed);
    };
    Ok(Record::OpenBilling {
        month: u16::from_le_bytes([*m0, *m1]),
        percentage: *percentage,
    })
}

// Two rows of zone marks and the sale prices.
fn book(payload: &[u8]) -> Result<Record<'_>, ProgramFault>
    ensures { read_model result ≡ decoded_book payload.now }
{
    let (working, after) = payload
        .split_first_chunk::<24>()
        .ok_or(ProgramFault::Malformed)?;
    let (weekend, prices) = after
        .split_first_chunk::<24>()
        .ok_or(ProgramFault::Malformed)?;
    let sale = sale_prices(prices).ok_or(ProgramFault::Malformed)?;
    Ok(Record::OpenBook {
        working,
        weekend,
        sale,
    })
}

// The three sale prices at the end of a book's payload.
fn sale_prices(bytes: &[u8]) -> Option<[u32; 3]>
    ensures { result ≡ sale_in bytes.now }
{
    let [a0, a1, a2, a3, b0, b1, b2, b3, c0, c1, c2, c3] = bytes else {
        return None;
    };
    Some([
        u32::from_le_bytes([*a0, *a1, *a2, *a3]),
        u32::from_le_bytes([*b0, *b1, *b2, *b3]),
        u32::from_le_bytes([*c0, *c1, *c2, *c3]),
    ])
}

// One price.
fn month_price(payload: &[u8]) -> Result<Record<'_>, ProgramFault>
    ensures { read_model result ≡ decoded_price payload.now }
{
    let [a, b, c, d] = payload else {
        return Err(ProgramFault::Malformed);
    };
    Ok(Record::MonthPrice(price_of([*a, *b, *c, *d])))
}

// At most 745 prices.
fn hour_prices(payload: &[u8]) -> Result<Record<'_>, ProgramFault>
    ensures { read_model result ≡ decoded_hours payload.now }
{
    if payload.len() > 4 * 745 {
        return Err(ProgramFault::Malformed);
    }
    if payload.len() % 4 != 0 {
        return Err(ProgramFault::Malformed);
    }
    Ok(Record::HourPrices(payload))
}

// Import and export.
fn reading(payload: &[u8]) -> Result<Record<'_>, ProgramFault>
    ensures { read_model result ≡ decoded_reading payload.now }
{
    let [i0, i1, i2, i3, e0, e1, e2, e3] = payload else {
        return Err(ProgramFault::Malformed);
    };
    Ok(Record::Reading {
        import: u32::from_le_bytes([*i0, *i1, *i2, *i3]),
        export: u32::from_le_bytes([*e0, *e1, *e2, *e3]),
    })
}

// A record with no payload.
fn bare<'a>(payload: &'a [u8], said: Record<'a>) -> Result<Record<'a>, ProgramFault>
    ensures { read_model result ≡ exactly 0 payload.now (record_model said.entry) }
{
    if payload.is_empty() {
        Ok(said)
    } else {
        Err(ProgramFault::Malformed)
    }
}
