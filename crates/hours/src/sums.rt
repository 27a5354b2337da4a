// The totals of the hours read, and the sums of a complete month.
ghost use Rattle.std.specs.Prelude.{◌≡◌, ◌+◌, ◌*◌, ◌<◌, ◌≤◌, length, sum};

mod strike;

// Energy by zone, in Wh, and money, in gr per MWh times Wh: `charge` is the energy taken at the sale prices (O),
// `value` the energy given at the source's prices (V).
#[derive(Clone, Copy)]
pub struct Totals {
    pub import: [u32; 3],
    pub export: [u32; 3],
    pub charge: u64,
    pub value: u64,
}

// The sums of a complete month. They are entered or struck, once, and are never copied or let go.
pub struct MonthSums {
    pub(crate) month: u16,
    pub(crate) totals: Totals,
    ghost dated: { (47 ≤ month) × (month < 1200) },
    ghost zoned: { (length totals.import ≡ 3) × (length totals.export ≡ 3) },
    ghost energy: { sum totals.import + sum totals.export ≤ 74500000 },
    ghost charged: { totals.charge ≤ 74500000 * 1000000 },
    ghost valued: { totals.value ≤ 74500000 * 1000000 },
}

// The six energies of a month, in Wh by zone.
#[derive(Clone, Copy)]
pub struct Energies {
    pub import: [u32; 3],
    pub export: [u32; 3],
}
