ghost use Rattle.std.specs.Prelude.{◌≡◌, None, nat_lt};
ghost use Rattle.faults.specs.declared.StoreFault.TheVariants.{TooFewSlots};
ghost use Rattle.portions.specs.Made.{answered};
ghost use Rattle.portions.specs.Portions.{fresh};
ghost use Rattle.histories.specs.Machines.{answers, asks};
ghost use Rattle.ledger.specs.Calls.{open_refusal, enter_refusal, draw_refusal, turn_refusal};
ghost use Rattle.store.specs.Held.{room};
ghost use Rattle.store.specs.Reading.{kind_of, ledger_of};

use crate::Store;
use faults::StoreFault;
use portions::{FIRST_MONTH, Kind, LAST_MONTH};

// The largest amount that a draw may ask for.
const LARGEST_WANTED: u32 = 1_000_000_000;

impl<'a, K: Kind> Store<'a, K> {
    // Refuses too few slots: a kind's life and one more are wanted.
    pub fn enough_slots(&self) -> Result<(), StoreFault>
        ensures { result ≡ answers (asks (nat_lt K.Kind.LIFE (room self.now)) TooFewSlots None) tt }
    {
        if self.room() <= usize::from(K::LIFE) {
            return Err(StoreFault::TooFewSlots);
        }
        Ok(())
    }

    // Refuses an opening that is not to be.
    pub fn may_open(&self, month: u16) -> Result<(), StoreFault>
        ensures { result ≡ answers (open_refusal (kind_of K.Kind) (room self.now) month) tt }
    {
        self.enough_slots()?;
        if month < FIRST_MONTH || month > LAST_MONTH {
            return Err(StoreFault::MonthOutOfRange);
        }
        Ok(())
    }

    // The portion to enter, or the refusal of the enter.
    pub(crate) fn admit(&self, amount: u32, terms: K::Terms) -> Result<K, StoreFault>
        ensures { answered K.Kind.means result ≡ answers (enter_refusal amount (ledger_of K.Kind self.now)) (fresh self.now.month amount terms) }
    {
        if !self.opened {
            return Err(StoreFault::NotOpen);
        }
        let portion = K::make(self.month, amount, terms)?;
        if self.rows.has(self.month) {
            return Err(StoreFault::MonthTaken);
        }
        Ok(portion)
    }

    // Refuses a draw that is not to be.
    pub(crate) fn may_draw(&self, wanted: u32) -> Result<(), StoreFault>
        ensures { result ≡ answers (draw_refusal wanted (ledger_of K.Kind self.now)) tt }
    {
        if !self.opened {
            return Err(StoreFault::NotOpen);
        }
        if wanted > LARGEST_WANTED {
            return Err(StoreFault::WantedTooLarge);
        }
        Ok(())
    }

    // Refuses a turn that is not to be.
    pub fn may_turn(&self) -> Result<(), StoreFault>
        ensures { result ≡ answers (turn_refusal (ledger_of K.Kind self.now)) tt }
    {
        if !self.opened {
            return Err(StoreFault::NotOpen);
        }
        if self.month >= LAST_MONTH {
            return Err(StoreFault::LastMonth);
        }
        Ok(())
    }
}
