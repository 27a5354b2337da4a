// A settlement's two passes over the stores.
ghost use Rattle.std.specs.Prelude.{◌≡◌, ◌≤◌, ◌++◌, Ok};
ghost use Rattle.portions.specs.Sums.{sum};
ghost use Rattle.ledger.specs.Steps.{takings, drawing};
ghost use Rattle.settlement.specs.Metering.{cover, covers, own_stores, other_stores};
ghost use Rattle.settlement.specs.Zones.{of, put, each};
ghost use Rattle.accounts.specs.Bounds.{Ready};
ghost use Rattle.accounts.specs.Coefficients.{tenths};
ghost use Rattle.accounts.specs.Means.{energies};
ghost use Rattle.accounts.specs.Metered.{course};
ghost use Rattle.accounts.specs.Slots.{EachDrawn};

use crate::inside::draw_store;
use crate::metering::Meters;
use crate::metering::coefficient::Coefficient;
use faults::StoreFault;
use portions::rules::Rule;
use settlement::Zone;

// The zones to be covered, each with the store that it is covered from: each zone from its own store, and then each from
// the stores of the others.
const ORDER: [(Zone, Zone); 9] = [
    (Zone::First, Zone::First),
    (Zone::Second, Zone::Second),
    (Zone::Third, Zone::Third),
    (Zone::First, Zone::Second),
    (Zone::First, Zone::Third),
    (Zone::Second, Zone::First),
    (Zone::Second, Zone::Third),
    (Zone::Third, Zone::First),
    (Zone::Third, Zone::Second),
];

impl<'a> Meters<'a> {
    // Draws on the store of a zone: the sum taken.
    fn draw<R: Rule>(&mut self, rule: &R, from: Zone, wanted: u32) -> Result<u32, StoreFault>
        requires ready { Ready self.old.stores }
        requires small { wanted ≤ 1000000000 }
        ensures answer { result ≡ Ok (sum (takings (R.Rule.gives rule.now) wanted (of from (each energies self.old.stores)))) }
        ensures stores { each energies self.new.stores ≡ put from (drawing (takings (R.Rule.gives rule.now) wanted (of from (each energies self.old.stores))) (of from (each energies self.old.stores))) (each energies self.old.stores) }
        ensures pending { self.new.pending ≡ self.old.pending }
        ensures slots { EachDrawn self.old.stores self.new.stores }
        ensures ready { Ready self.new.stores }
    {
        draw_store(self.stores.of_mut(from), rule, wanted)
    }

    // Covers what is pending in a zone from the store of a zone.
    fn cover<R: Rule>(
        &mut self,
        rule: &R,
        coefficient: Coefficient,
        zone: Zone,
        from: Zone,
    ) -> Result<(), StoreFault>
        requires ready { Ready self.old.stores }
        ensures answer { result ≡ Ok tt }
        ensures course { course self.new ≡ cover (R.Rule.gives rule.now) (tenths coefficient) zone from (course self.old) }
        ensures slots { EachDrawn self.old.stores self.new.stores }
        ensures ready { Ready self.new.stores }
    {
        let rest = *self.pending.of(zone);
        let used = self.draw(rule, from, coefficient.wanted(rest))?;
        *self.pending.of_mut(zone) = coefficient.uncovered(rest, used);
        Ok(())
    }

    // Covers each zone from its own store, and then each from the stores of the others.
    pub(super) fn cover_all<R: Rule>(
        &mut self,
        rule: &R,
        coefficient: Coefficient,
    ) -> Result<(), StoreFault>
        requires ready { Ready self.old.stores }
        ensures answer { result ≡ Ok tt }
        ensures course { course self.new ≡ covers (R.Rule.gives rule.now) (tenths coefficient) (own_stores ++ other_stores) (course self.old) }
        ensures slots { EachDrawn self.old.stores self.new.stores }
        ensures ready { Ready self.new.stores }
    {
        for (zone, from) in ORDER {
            self.cover(rule, coefficient, zone, from)?;
        }
        Ok(())
    }
}
