ghost use Rattle.std.specs.Prelude.{◌≡◌, length};
ghost use Rattle.std.specs.List.{slice_get};
ghost use Rattle.settlement.specs.Billing.{billing};
ghost use Rattle.store.specs.Reading.{ledger_totals, told};
ghost use Rattle.accounts.specs.Means.{deposit_kind};
ghost use Rattle.accounts.specs.Billed.{billed};

use crate::billing::Billing;
use faults::StoreFault;
use portions::Kind;
use portions::deposit::Deposit;
use settlement::{Account, Standing};
use store::Totals;

impl<'a> Account for Billing<'a> {
    ghost stands = { λ b. billing.standing (billed b) };

    fn standing(&self) -> Standing {
        Standing {
            opened: self.store.is_open(),
            month: self.store.month(),
            state: self.state,
            ends: true,
        }
    }

    fn stores_may_turn(&self) -> Result<(), StoreFault> {
        self.store.may_turn()
    }
}

impl<'a> Billing<'a> {
    // The bill that is not yet settled.
    pub fn bill(&self) -> u32
        ensures { result ≡ (billed self.now).bill }
    {
        self.bill
    }

    // How many deposits are open.
    pub fn count(&self) -> usize
        ensures { result ≡ length (billed self.now).store.portions }
    {
        self.store.count()
    }

    // The open deposit at a place, from the oldest.
    pub fn portion(&self, place: usize) -> Option<Deposit>
        ensures { told deposit_kind.means result ≡ slice_get (billed self.now).store.portions place }
    {
        self.store.portion(place)
    }

    // The totals of what was entered, used, refunded and lost.
    pub fn totals(&self) -> Totals
        ensures { result ≡ ledger_totals (billed self.now).store }
    {
        self.store.totals()
    }
}
