ghost use Rattle.std.specs.Prelude.{◌≡◌, length};
ghost use Rattle.std.specs.List.{slice_get};
ghost use Rattle.portions.specs.Listed.{listed};
ghost use Rattle.ledger.specs.Ledger.{lefts};
ghost use Rattle.store.specs.Held.{room};
ghost use Rattle.store.specs.Reading.{ledger_of, ledger_totals, told};

use crate::{Store, Totals};
use portions::Kind;
use portions::amounts::Amounts;

impl<'a, K: Kind> Store<'a, K> {
    // How many slots there are.
    pub fn room(&self) -> usize
        ensures { result ≡ room self.now }
    {
        self.rows.slots.len()
    }

    // Whether an opening was accepted.
    pub fn is_open(&self) -> bool
        ensures { result ≡ (ledger_of K.Kind self.now).opened }
    {
        self.opened
    }

    // The current month.
    pub fn month(&self) -> u16
        ensures { result ≡ (ledger_of K.Kind self.now).month }
    {
        self.month
    }

    // How many portions are open.
    pub fn count(&self) -> usize
        ensures { result ≡ length (ledger_of K.Kind self.now).portions }
    {
        self.rows.filled
    }

    // The open portion at a place, from the oldest.
    pub fn portion(&self, place: usize) -> Option<K>
        ensures { told K.Kind.means result ≡ slice_get (ledger_of K.Kind self.now).portions place }
    {
        let row = self.rows.in_use().get(place)?;
        Some(K::of(row))
    }

    // What is left in each open portion, oldest first.
    pub fn lefts(&self) -> Amounts
        ensures { listed result ≡ lefts (ledger_of K.Kind self.now) }
    {
        self.rows.lefts::<K>()
    }

    // The totals of what was entered, used, refunded and lost.
    pub fn totals(&self) -> Totals
        ensures { result ≡ ledger_totals (ledger_of K.Kind self.now) }
    {
        self.totals
    }
}
