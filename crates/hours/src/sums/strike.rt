// What is read off a month's sums, and how they end.
ghost use Rattle.std.specs.Prelude.{◌≡◌, ◌+◌, ◌*◌, ◌<◌, ◌≤◌, sum};

use crate::sums::{Energies, MonthSums, Totals};

impl MonthSums {
    // The month that the sums are of.
    pub fn month(&self) -> u16
        ensures value { result ≡ self.now.month }
        ensures bounds { (47 ≤ result) × (result < 1200) }
    {
        self.month
    }

    // The energies by zone, the charge and the value, with their bounds.
    pub fn totals(&self) -> Totals
        ensures value { result ≡ self.now.totals }
        ensures energy { sum result.import + sum result.export ≤ 74500000 }
        ensures money { (result.charge ≤ 74500000 * 1000000) × (result.value ≤ 74500000 * 1000000) }
    {
        self.totals
    }

    // Ends the sums, and returns their six energies.
    pub fn strike(self) -> Energies
        ensures { (result.import ≡ self.totals.import) × (result.export ≡ self.totals.export) }
    {
        let MonthSums { month: _, totals } = self;
        let Totals {
            import,
            export,
            charge: _,
            value: _,
        } = totals;
        Energies { import, export }
    }
}
