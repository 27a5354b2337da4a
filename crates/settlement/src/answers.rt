// What the calls of an account answer.
ghost use Rattle.std.specs.Prelude.{◌≡◌};
ghost use Rattle.settlement.specs.Lines.{zone_number};

use crate::zones::Zones;
use faults::AccountFault;
use hours::{MonthSums, Zone};

// An open portion in a settlement: the number of its zone, 0 for a deposit, which has none, its month, what the settlement
// used of it, and what is left. A caller may hold and print lines of any number.
#[derive(Clone, Copy, Default)]
pub struct Line {
    pub zone: u8,
    pub month: u16,
    pub used: u32,
    pub left: u32,
}

// The number that stands for a zone in a line and where it is printed, 0 for none, as a deposit has none.
pub fn zone_number(zone: Option<Zone>) -> u8
    ensures { result ≡ zone_number zone }
{
    zone.map_or(0, Zone::number)
}

// What a settlement covered and left due in each zone, in Wh, and the number of lines that it wrote, which stand in the
// caller's memory.
#[derive(Clone, Copy)]
pub struct Settlement {
    pub covered: Zones<u32>,
    pub due: Zones<u32>,
    pub lines: usize,
}

// What a bill used of the deposits and left due, in gr, and the number of lines that its settlement wrote into the caller's memory.
#[derive(Clone, Copy)]
pub struct Payment {
    pub used: u32,
    pub due: u32,
    pub lines: usize,
}

// Sums that an account did not take, with the reason.
pub struct Returned {
    pub fault: AccountFault,
    pub sums: MonthSums,
}
