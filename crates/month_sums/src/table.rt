// The table that is printed.
ghost use Rattle.std.specs.Prelude.{◌≡◌, ◌+◌, ◌*◌, ◌<◌};

use crate::month::MonthName;
use hours::{Energies, MonthSums};
use std::fmt;

// Energy in kWh, with three decimals.
#[derive(Clone, Copy)]
struct Kwh {
    whole: u32,
    decimals: u32,
}

impl Kwh {
    fn of(wh: u32) -> Kwh
        ensures { (result.whole * 1000 + result.decimals ≡ wh) × (result.decimals < 1000) }
    {
        Kwh {
            whole: wh / 1000,
            decimals: wh % 1000,
        }
    }
}

impl fmt::Display for Kwh {
    fn fmt<W: fmt::Write>(&self, f: &mut fmt::Formatter<W>) -> fmt::Result {
        let whole = self.whole;
        let decimals = self.decimals;
        write!(f, "{whole:>12}.{decimals:03}")
    }
}

// Money in złoty, with eight decimals. One type for both would take unit, size and width as parameters: no plainer.
#[derive(Clone, Copy)]
struct Zloty {
    whole: u64,
    decimals: u64,
}

impl Zloty {
    // A total is in Wh times gr per MWh: millionths of a grosz.
    fn of(total: u64) -> Zloty
        ensures { (result.whole * 100000000 + result.decimals ≡ total) × (result.decimals < 100000000) }
    {
        Zloty {
            whole: total / 100_000_000,
            decimals: total % 100_000_000,
        }
    }
}

impl fmt::Display for Zloty {
    fn fmt<W: fmt::Write>(&self, f: &mut fmt::Formatter<W>) -> fmt::Result {
        let whole = self.whole;
        let decimals = self.decimals;
        write!(f, "{whole:>7}.{decimals:08} zł")
    }
}

// What is printed of a month: the hours read, the energies by zone, and the two sums of money.
#[derive(Clone, Copy)]
pub struct Table {
    month: MonthName,
    hours: usize,
    energies: Energies,
    value: u64,
    charge: u64,
}

impl Table {
    // Strikes the sums and keeps what is printed of them.
    pub(crate) fn of(sums: MonthSums, hours: usize) -> Table
        ensures dated { (result.month.number ≡ sums.month) × (result.hours ≡ hours) }
        ensures energy { (result.energies.import ≡ sums.totals.import) × (result.energies.export ≡ sums.totals.export) }
        ensures money { (result.value ≡ sums.totals.value) × (result.charge ≡ sums.totals.charge) }
    {
        let month = MonthName {
            number: sums.month(),
        };
        let totals = sums.totals();
        Table {
            month,
            hours,
            energies: sums.strike(),
            value: totals.value,
            charge: totals.charge,
        }
    }
}

impl fmt::Display for Table {
    fn fmt<W: fmt::Write>(&self, f: &mut fmt::Formatter<W>) -> fmt::Result {
        let month = self.month;
        let number = month.number;
        let hours = self.hours;
        writeln!(f, "month {month} (number {number}), {hours} hours read")?;
        writeln!(f, "zone      import kWh      export kWh")?;
        let zones = self.energies.import.iter().zip(self.energies.export.iter());
        for (place, (import, export)) in zones.enumerate() {
            let import = Kwh::of(*import);
            let export = Kwh::of(*export);
            writeln!(f, "{:>4}{import}{export}", place + 1)?;
        }
        let value = Zloty::of(self.value);
        let charge = Zloty::of(self.charge);
        writeln!(f, "value of the energy given (V):  {value}")?;
        writeln!(f, "charge for the energy taken (O):{charge}")
    }
}
