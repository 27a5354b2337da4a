ghost use Rattle.std.specs.Prelude.{◌≡◌, ◌-◌, ◌≤◌, min};

use crate::{LARGEST_AMOUNT, Slot};

// The month and the amounts of a portion, whatever its kind.
#[derive(Clone, Copy)]
pub struct Stock {
    pub(crate) month: u16,
    pub(crate) entered: u32,
    pub(crate) left: u32,
    ghost drawn: { left ≤ entered },
    ghost small: { entered ≤ 100000000 },
}

impl Stock {
    // What a slot holds, whatever its numbers: at most the largest amount entered, and no more left than entered.
    pub(crate) fn of(slot: &Slot) -> Stock
        ensures month { result.month ≡ slot.now.month }
        ensures entered { result.entered ≡ min slot.now.entered 100000000 }
        ensures left { result.left ≡ min slot.now.left (min slot.now.entered 100000000) }
    {
        let entered = slot.entered.min(LARGEST_AMOUNT);
        Stock {
            month: slot.month,
            entered,
            left: slot.left.min(entered),
        }
    }

    // A slot that holds it, with these terms.
    pub(crate) fn row(&self, terms: u32) -> Slot
        ensures { result ≡ record { month = self.now.month; entered = self.now.entered; left = self.now.left; terms = terms } }
    {
        Slot {
            month: self.month,
            entered: self.entered,
            left: self.left,
            terms,
        }
    }

    // Takes the smaller of n and the amount left, and returns it.
    pub(crate) fn take(&mut self, n: u32) -> u32
        ensures answer { result ≡ min n self.old.left }
        ensures month { self.new.month ≡ self.old.month }
        ensures entered { self.new.entered ≡ self.old.entered }
        ensures left { self.new.left ≡ self.old.left - result }
    {
        let taken = n.min(self.left);
        self.left -= taken;
        taken
    }
}
