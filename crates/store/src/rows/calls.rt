ghost use Rattle.std.specs.Prelude.{◌≡◌, ◌+◌, ◌<◌, ◌≤◌, true, map, length, drop, slice_set};
ghost use Rattle.ledger.specs.Ledger.{has, left_in};
ghost use Rattle.ledger.specs.Steps.{taking};
ghost use Rattle.portions.specs.declared.TheConstants.{MOST_OPEN};
ghost use Rattle.portions.specs.Slots.{reads, plain};
ghost use Rattle.portions.specs.Listed.{listed};
ghost use Rattle.store.specs.Held.{held};
ghost use Rattle.store.specs.Sound.{rises};
ghost use Rattle.store.specs.Ending.{staying, refunds_in, losses_in};
ghost use Rattle.store.specs.Exact.{Exact};

use crate::rows::Rows;
use crate::rows::passes::{Ended, end_each, how_many_end, lefts, month_taken, take_each};
use portions::amounts::Amounts;
use portions::{Kind, Slot};

impl<'a> Rows<'a> {
    // The rows in use.
    pub(crate) fn in_use(&self) -> &[Slot]
        ensures { result.now ≡ held self.now }
    {
        &self.slots[..self.filled]
    }

    // Whether a row in use is of the month.
    pub(crate) fn has(&self, month: u16) -> bool
        ensures { result ≡ has month (map plain (held self.now)) }
    {
        month_taken(self.in_use(), month)
    }

    // Takes the next slot into use.
    pub(crate) fn push(&mut self, row: Slot)
        requires free { self.old.filled < length self.old.slots.now }
        requires few { self.old.filled < MOST_OPEN }
        ensures slots { self.new.slots.now ≡ slice_set self.old.slots.now self.old.filled row }
        ensures filled { self.new.filled ≡ self.old.filled + 1 }
        ensures same { self.new.slots.ghost_name ≡ self.old.slots.ghost_name }
    {
        self.slots[self.filled] = row;
        self.filled += 1;
    }

    // Takes the rows that end as the month comes out of use, the first ones, and sums them up.
    pub(crate) fn end_by<K: Kind>(&mut self, month: u16) -> Ended
        requires { rises 0 month (map plain (held self.old)) ≡ true }
        ensures kept { held self.new ≡ staying K.Kind month (held self.old) }
        ensures fewer { self.new.filled ≤ self.old.filled }
        ensures rest { drop self.new.filled self.new.slots.now ≡ drop self.new.filled self.old.slots.now }
        ensures long { length self.new.slots.now ≡ length self.old.slots.now }
        ensures refunded { result.refunded ≡ refunds_in K.Kind month (held self.old) }
        ensures lost { result.lost ≡ losses_in K.Kind month (held self.old) }
        ensures all { result.refunded + result.lost + left_in (map plain (held self.new)) ≡ left_in (map plain (held self.old)) }
        ensures same { self.new.slots.ghost_name ≡ self.old.slots.ghost_name }
    {
        let rows = self.in_use();
        let first = how_many_end(rows, K::LIFE, month);
        let ended = end_each::<K>(&rows[..first]);
        self.slots.copy_within(first..self.filled, 0);
        self.filled -= first;
        ended
    }

    // The amounts left in the rows in use.
    pub(crate) fn lefts<K: Kind>(&self) -> Amounts
        ensures { listed result ≡ map (λ p. p.left) (map (reads K.Kind.term) (held self.now)) }
    {
        lefts::<K>(self.in_use())
    }

    // Takes from each row in use.
    pub(crate) fn take_each<K: Kind>(&mut self, takings: &Amounts)
        requires { length (listed takings.now) ≡ self.old.filled }
        ensures front { map (reads K.Kind.term) (held self.new) ≡ taking (listed takings.now) (map (reads K.Kind.term) (held self.old)) }
        ensures exact { Exact K.Kind (held self.old) → Exact K.Kind (held self.new) }
        ensures rest { drop self.old.filled self.new.slots.now ≡ drop self.old.filled self.old.slots.now }
        ensures long { length self.new.slots.now ≡ length self.old.slots.now }
        ensures filled { self.new.filled ≡ self.old.filled }
        ensures same { self.new.slots.ghost_name ≡ self.old.slots.ghost_name }
    {
        take_each::<K>(&mut self.slots[..self.filled], takings.as_slice());
    }
}
