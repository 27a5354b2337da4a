ghost use Rattle.std.specs.Prelude.{◌≡◌, ◌≤◌, true, map, length, take, drop, filter};
ghost use Rattle.ledger.specs.Ledger.{has};
ghost use Rattle.ledger.specs.Steps.{ends_by, stays_in, taking};
ghost use Rattle.portions.specs.declared.TheConstants.{MOST_OPEN};
ghost use Rattle.portions.specs.Sums.{total};
ghost use Rattle.portions.specs.Slots.{reads, plain};
ghost use Rattle.portions.specs.Portions.{less};
ghost use Rattle.portions.specs.Listed.{listed};
ghost use Rattle.store.specs.Sound.{rises};
ghost use Rattle.store.specs.Ending.{refund_in, loss_in};
ghost use Rattle.store.specs.Exact.{kept_anew, Exact};

use portions::amounts::Amounts;
use portions::{Kind, Slot};

// The refunds and the losses of the portions that a turn ends, summed.
#[derive(Clone, Copy)]
pub struct Ended {
    pub refunded: u64,
    pub lost: u64,
}

// Whether a row is of the month.
pub(super) fn month_taken(rows: &[Slot], month: u16) -> bool
    ensures { result ≡ has month (map plain rows.now) }
{
    rows.iter().any(|row| row.month == month)
}

// Whether the portion in a row ends as the month comes.
fn ends_by(row: &Slot, life: u16, month: u16) -> bool
    ensures { result ≡ ends_by life month (plain row.now) }
{
    u32::from(row.month) + u32::from(life) < u32::from(month)
}

// How many rows end as the month comes: where their months rise, the first ones.
pub(super) fn how_many_end(rows: &[Slot], life: u16, month: u16) -> usize
    requires { rises 0 month (map plain rows.now) ≡ true }
    ensures end { take result rows.now ≡ filter (λ row. ends_by life month (plain row)) rows.now }
    ensures stay { drop result rows.now ≡ filter (λ row. stays_in life month (plain row)) rows.now }
    ensures few { result ≤ length rows.now }
{
    rows.partition_point(|row| ends_by(row, life, month))
}

// The refunds and the losses of the portions in the rows in use, summed.
pub(super) fn end_each<K: Kind>(rows: &[Slot]) -> Ended
    requires { length rows.now ≤ MOST_OPEN }
    ensures refunded { result.refunded ≡ total (refund_in K.Kind) rows.now }
    ensures lost { result.lost ≡ total (loss_in K.Kind) rows.now }
{
    let mut refunded = 0;
    let mut lost = 0;
    for row in rows {
        let (r, l) = K::of(row).end();
        refunded += u64::from(r);
        lost += u64::from(l);
    }
    Ended { refunded, lost }
}

// The amounts left in the rows in use.
pub(super) fn lefts<K: Kind>(rows: &[Slot]) -> Amounts
    requires { length rows.now ≤ MOST_OPEN }
    ensures { listed result ≡ map (λ p. p.left) (map (reads K.Kind.term) rows.now) }
{
    let mut all = Amounts::new();
    for row in rows {
        all.push(K::of(row).left());
    }
    all
}

// A row from which n was taken.
fn taken<K: Kind>(row: &Slot, n: u32) -> Slot
    ensures holds { reads K.Kind.term result ≡ less (reads K.Kind.term row.now) n }
    ensures exact { kept_anew K.Kind result ≡ result }
{
    let mut p = K::of(row);
    let _ = p.take(n);
    p.row()
}

// Takes from each row.
pub(super) fn take_each<K: Kind>(rows: &mut [Slot], takings: &[u32])
    requires { length takings.now ≡ length rows.old }
    ensures each { map (reads K.Kind.term) rows.new ≡ taking takings.now (map (reads K.Kind.term) rows.old) }
    ensures exact { Exact K.Kind rows.old → Exact K.Kind rows.new }
{
    // By place: of what a loop over `iter_mut().zip(..)` writes a proof knows nothing afterwards.
    for (i, n) in takings.iter().enumerate() {
        rows[i] = taken::<K>(&rows[i], *n);
    }
}
