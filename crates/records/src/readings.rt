// The reading that stands next, taken out of the bytes at once: most records are readings.
ghost use Rattle.std.specs.Prelude.{◌≡◌};
ghost use Rattle.records.specs.Readings.{first_reading, reading_model};

// A reading, and the bytes after its record.
#[derive(Clone, Copy)]
pub struct NextReading<'a> {
    pub import: u32,
    pub export: u32,
    pub rest: &'a [u8],
}

// The reading that the bytes begin with; `None` where they begin with another record, or end in their first.
pub fn next_reading(bytes: &[u8]) -> Option<NextReading<'_>>
    ensures { reading_model result ≡ first_reading bytes.now }
{
    let [
        length0,
        length1,
        kind0,
        kind1,
        i0,
        i1,
        i2,
        i3,
        e0,
        e1,
        e2,
        e3,
        rest @ ..,
    ] = bytes
    else {
        return None;
    };
    if u16::from_le_bytes([*length0, *length1]) != 8 {
        return None;
    }
    if u16::from_le_bytes([*kind0, *kind1]) != 6 {
        return None;
    }
    Some(NextReading {
        import: u32::from_le_bytes([*i0, *i1, *i2, *i3]),
        export: u32::from_le_bytes([*e0, *e1, *e2, *e3]),
        rest,
    })
}
