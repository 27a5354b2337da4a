// The zones of the tariff.
ghost use Rattle.std.specs.Prelude.{◌≡◌, ◌<◌};
ghost use Rattle.hours.specs.Zones.{Named, zone_number, zone_of_bits};

use faults::BookFault;

// The zones, 1 to 3.
#[derive(Clone, Copy, PartialEq, Eq, Debug)]
pub enum Zone {
    First,
    Second,
    Third,
}

static ZONES: [Zone; 3] = [Zone::First, Zone::Second, Zone::Third];

// The zone that a mark names; 11 where it names none.
impl TryFrom<u8> for Zone {
    type Error = BookFault;

    ghost try_from_gives = { Named };

    fn try_from(mark: u8) -> Result<Self, BookFault> {
        match mark {
            1 => Ok(Zone::First),
            2 => Ok(Zone::Second),
            3 => Ok(Zone::Third),
            _ => Err(BookFault::MarkOutOfRange),
        }
    }
}

impl Zone {
    // The zone that two bits stand for: its number less one.
    pub(crate) fn of_bits(bits: u64) -> Zone
        requires { bits < 3 }
        ensures { result ≡ zone_of_bits bits }
    {
        // A table, and no match: of that a jump is made where the zone is an index. It is static, since a constant is laid out anew
        // at each use.
        ZONES[bits as usize]
    }

    // The number of the zone.
    pub fn number(self) -> u8
        ensures { result ≡ zone_number self }
    {
        match self {
            Zone::First => 1,
            Zone::Second => 2,
            Zone::Third => 3,
        }
    }
}
