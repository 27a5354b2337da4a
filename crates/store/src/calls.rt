ghost use Rattle.std.specs.Prelude.{◌≡◌, [], is_ok};
ghost use Rattle.ledger.specs.Ledger.{closed};
ghost use Rattle.histories.specs.Machines.{gives, leaves};
ghost use Rattle.histories.specs.Histories.{event};
ghost use Rattle.ledger.specs.Rules.{by_rule};
ghost use Rattle.ledger.specs.Calls.Call.{open_for, enter, draw, turn};
ghost use Rattle.ledger.specs.Steps.{machine};
ghost use Rattle.ledger.specs.Promises.{Keeps, OpenKeeps};
ghost use Rattle.store.specs.Held.{lent, room};
ghost use Rattle.store.specs.Reading.{kind_of, ledger_of};
ghost use Rattle.store.specs.Slots.{Accounted};
ghost use Rattle.store.specs.Unopened.{AsLent, StaysAsLent, OpenStaysAsLent};

use crate::rows::Rows;
use crate::{Store, Totals};
use faults::StoreFault;
use portions::rules::Rule;
use portions::{Kind, Slot};
use std::marker::PhantomData;

impl<'a, K: Kind> Store<'a, K> {
    // A store over slots, not open yet.
    pub fn over(slots: &'a mut [Slot]) -> Store<'a, K>
        ensures state { ledger_of K.Kind result ≡ closed }
        ensures slots { lent result ≡ slots.old }
        ensures lender { result.rows.slots.ghost_name ≡ slots.entry.ghost_name }
        ensures unopened { AsLent slots.old [] result }
    {
        Store {
            rows: Rows { slots, filled: 0 },
            kind: PhantomData,
            opened: false,
            month: 0,
            totals: Totals::default(),
        }
    }

    // Starts anew in a month from 47 to 1,199, without portions and with totals 0.
    pub fn open(&mut self, month: u16) -> Result<(), StoreFault>
        ensures answer { result ≡ gives (machine (kind_of K.Kind)) (open_for (room self.old) month) (ledger_of K.Kind self.old) }
        ensures state { ledger_of K.Kind self.new ≡ leaves (machine (kind_of K.Kind)) (open_for (room self.old) month) (ledger_of K.Kind self.old) }
        ensures slots { lent self.new ≡ lent self.old }
        ensures lender { self.new.rows.slots.ghost_name ≡ self.old.rows.slots.ghost_name }
        ensures promised { OpenKeeps (kind_of K.Kind) (ledger_of K.Kind self.old) (room self.old) month result (ledger_of K.Kind self.new) }
        ensures unopened { OpenStaysAsLent self.old month result self.new }
    {
        self.may_open(month)?;
        self.rows.filled = 0;
        self.opened = true;
        self.month = month;
        self.totals = Totals::default();
        Ok(())
    }

    // Adds a portion of the current month, also of amount 0. Amount and terms become the portion here, so they are no struct before.
    pub fn enter(&mut self, amount: u32, terms: K::Terms) -> Result<(), StoreFault>
        ensures answer { result ≡ gives (machine (kind_of K.Kind)) (enter amount terms) (ledger_of K.Kind self.old) }
        ensures state { ledger_of K.Kind self.new ≡ leaves (machine (kind_of K.Kind)) (enter amount terms) (ledger_of K.Kind self.old) }
        ensures slots { Accounted (is_ok result) self.old self.new }
        ensures promised { Keeps (kind_of K.Kind) (ledger_of K.Kind self.old) (event (enter amount terms) result) (ledger_of K.Kind self.new) }
        ensures unopened { StaysAsLent self.old (enter amount terms) result self.new }
    {
        let portion = self.admit(amount, terms)?;
        self.rows.push(portion.row());
        self.totals.add_entered(amount);
        Ok(())
    }

    // Takes what the rule gives: the sum taken. Rule and amount are a draw's two arguments, a generic and a number, so no struct of them.
    pub fn draw<R: Rule>(&mut self, rule: &R, wanted: u32) -> Result<u64, StoreFault>
        ensures answer { result ≡ gives (machine (kind_of K.Kind)) (draw (by_rule (R.Rule.gives rule.now) wanted)) (ledger_of K.Kind self.old) }
        ensures state { ledger_of K.Kind self.new ≡ leaves (machine (kind_of K.Kind)) (draw (by_rule (R.Rule.gives rule.now) wanted)) (ledger_of K.Kind self.old) }
        ensures slots { Accounted (is_ok result) self.old self.new }
        ensures promised { Keeps (kind_of K.Kind) (ledger_of K.Kind self.old) (event (draw (by_rule (R.Rule.gives rule.now) wanted)) result) (ledger_of K.Kind self.new) }
        ensures unopened { StaysAsLent self.old (draw (by_rule (R.Rule.gives rule.now) wanted)) result self.new }
    {
        self.may_draw(wanted)?;
        let left = self.lefts();
        let takings = rule.give(self.month, &left, wanted);
        let sum = takings.total();
        self.rows.take_each::<K>(&takings);
        self.totals.add_used(sum);
        Ok(sum)
    }

    // Raises the month by one, and ends the portions past their life: their refunds and losses, summed.
    pub fn turn(&mut self) -> Result<(u64, u64), StoreFault>
        ensures answer { result ≡ gives (machine (kind_of K.Kind)) turn (ledger_of K.Kind self.old) }
        ensures state { ledger_of K.Kind self.new ≡ leaves (machine (kind_of K.Kind)) turn (ledger_of K.Kind self.old) }
        ensures slots { Accounted (is_ok result) self.old self.new }
        ensures promised { Keeps (kind_of K.Kind) (ledger_of K.Kind self.old) (event turn result) (ledger_of K.Kind self.new) }
        ensures unopened { StaysAsLent self.old turn result self.new }
    {
        self.may_turn()?;
        let month = self.month + 1;
        let ended = self.rows.end_by::<K>(month);
        self.month = month;
        self.totals.add_ended(ended.refunded, ended.lost);
        Ok((ended.refunded, ended.lost))
    }

    // Ends the store and hands the slots back.
    pub fn close(self) -> &'a mut [Slot]
        ensures slots { result.now ≡ lent self.entry }
        ensures lender { result.ghost_name ≡ self.entry.rows.slots.ghost_name }
    {
        let Store {
            rows: Rows { slots, filled: _ },
            kind: _,
            opened: _,
            month: _,
            totals: _,
        } = self;
        slots
    }
}
