ghost use Rattle.std.specs.Prelude.{◌≡◌, length};
ghost use Rattle.std.specs.List.{slice_get};
ghost use Rattle.settlement.specs.Zones.{of};
ghost use Rattle.settlement.specs.Metering.{metering};
ghost use Rattle.store.specs.Reading.{ledger_totals, told};
ghost use Rattle.accounts.specs.Means.{energy_kind};
ghost use Rattle.accounts.specs.Metered.{metered};

use crate::metering::Metering;
use faults::StoreFault;
use portions::Kind;
use portions::energy::Energy;
use settlement::{Account, Standing, Zone, Zones};
use store::Totals;

impl<'a> Account for Metering<'a> {
    ghost stands = { λ a. metering.standing (metered a) };

    fn standing(&self) -> Standing {
        let one = &self.meters.stores.one;
        let month = one.month();
        Standing {
            opened: one.is_open(),
            month,
            state: self.state,
            ends: self.period.ends(month),
        }
    }

    fn stores_may_turn(&self) -> Result<(), StoreFault> {
        self.meters.may_turn()
    }
}

impl<'a> Metering<'a> {
    // The import that is pending in each zone.
    pub fn pending(&self) -> Zones<u32>
        ensures { result ≡ (metered self.now).pending }
    {
        self.meters.pending
    }

    // How many portions are open in a zone's store.
    pub fn count(&self, zone: Zone) -> usize
        ensures { result ≡ length (of zone (metered self.now).stores).portions }
    {
        self.meters.stores.of(zone).count()
    }

    // The open portion at a place of a zone's store, from the oldest.
    pub fn portion(&self, zone: Zone, place: usize) -> Option<Energy>
        ensures { told energy_kind.means result ≡ slice_get (of zone (metered self.now).stores).portions place }
    {
        self.meters.stores.of(zone).portion(place)
    }

    // The totals of what was entered, used, refunded and lost in a zone's store.
    pub fn totals(&self, zone: Zone) -> Totals
        ensures { result ≡ ledger_totals (of zone (metered self.now).stores) }
    {
        self.meters.stores.of(zone).totals()
    }
}
