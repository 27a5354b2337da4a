// Packing the marks of a tariff, and finding the zone of an hour in them.
ghost use Rattle.std.specs.Prelude.{◌≡◌, ◌*◌, ◌&&◌, [], false, IfOk, Some, None, Ok, Err, cond, length, nat_lt, slice_index_or};
ghost use Rattle.hours.specs.Marks.{MarkedBy, RowNamed, each_zone, zone_kept};
ghost use Rattle.hours.specs.Packed.{Coded, packed};

use crate::marks::Marks;
use crate::zones::Zone;
use faults::BookFault;

// Every mark of the row names a zone.
pub fn all_zones(row: &[u8; 24]) -> bool
    ensures { result ≡ each_zone row.now }
{
    row.iter().all(|mark| (1..=3).contains(mark))
}

// The zones that a row of marks names; 11 where a mark names none.
fn zones_of(row: &[u8; 24]) -> Result<[Zone; 24], BookFault>
    ensures named { RowNamed row.now result }
    ensures sized { IfOk result (λ zones. length zones ≡ 24) }
{
    row.try_map(|mark| Zone::try_from(mark))
}

// A row of zones in two bits each.
fn pack(zones: [Zone; 24]) -> u64
    ensures value { result ≡ packed zones }
    ensures coded { Coded result }
{
    let mut bits = 0;
    for hour in (0..24).rev() {
        bits = 4 * bits + u64::from(zones[hour].number() - 1);
    }
    bits
}

impl Marks {
    // The marks of two rows, of a working day and of a Saturday or Sunday; 11 where a mark names no zone.
    pub fn new(rows: [[u8; 24]; 2]) -> Result<Marks, BookFault>
        ensures { elim result [ Ok m ↦ MarkedBy m rows | Err f ↦ (f ≡ BookFault.MarkOutOfRange) × ((each_zone (slice_index_or rows 0 []) && each_zone (slice_index_or rows 1 [])) ≡ false) ] }
    {
        Ok(Marks {
            working: pack(zones_of(&rows[0])?),
            weekend: pack(zones_of(&rows[1])?),
        })
    }

    // The zone of a clock hour of a working day, or of a Saturday or Sunday; none past 23.
    pub fn zone(self, weekend: bool, clock: u8) -> Option<Zone>
        ensures value { result ≡ cond (nat_lt clock 24) (Some (zone_kept self weekend clock)) None }
    {
        if clock >= 24 {
            return None;
        }
        let row = if weekend { self.weekend } else { self.working };
        Some(Zone::of_bits(row >> (2 * clock) & 3))
    }
}
