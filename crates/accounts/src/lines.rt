// The lines of a settlement, written into the caller's list.
ghost use Rattle.std.specs.Prelude.{◌≡◌, ◌<◌, ◌≤◌, length, Some};
ghost use Rattle.std.specs.List.{slice_get};
ghost use Rattle.portions.specs.Listed.{listed};
ghost use Rattle.settlement.specs.Lines.{line_of, lines_of, written};
ghost use Rattle.store.specs.Reading.{ledger_of, told};

use portions::Kind;
use portions::amounts::Amounts;
use settlement::{Line, Zone, zone_number};
use store::Store;

// The line of a portion that had `was` left.
fn line<K: Kind>(portion: &K, zone: Option<Zone>, was: u32) -> Line
    ensures { result ≡ line_of zone was (K.Kind.means portion.now) }
{
    let left = portion.left();
    Line {
        zone: zone_number(zone),
        month: portion.month(),
        used: was.saturating_sub(left),
        left,
    }
}

// The line of the open portion at a place, which had `was` left.
fn line_at<K: Kind>(store: &Store<K>, place: usize, zone: Option<Zone>, was: u32) -> Line
    requires there { place < length (ledger_of K.Kind store.now).portions }
    ensures { told (line_of zone was) (slice_get (ledger_of K.Kind store.now).portions place) ≡ Some result }
{
    line(&store.portion(place).unwrap(), zone, was)
}

// Writes a line for each open portion over the first of the lines: how many there are.
pub(crate) fn write_lines<K: Kind>(
    store: &Store<K>,
    zone: Option<Zone>,
    before: &Amounts,
    lines: &mut [Line],
) -> usize
    requires known { length (ledger_of K.Kind store.now).portions ≤ length (listed before.now) }
    requires room { length (ledger_of K.Kind store.now).portions ≤ length lines.old }
    ensures count { result ≡ length (ledger_of K.Kind store.now).portions }
    ensures lines { lines.new ≡ written (lines_of zone (listed before.now) (ledger_of K.Kind store.now).portions) lines.old }
{
    // By place: a store tells its portions one by one and has no iterator, which here alone would go over it.
    let count = store.count();
    for (place, line) in lines[..count].iter_mut().enumerate() {
        *line = line_at(store, place, zone, before.at(place));
    }
    count
}
