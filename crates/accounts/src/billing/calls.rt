ghost use Rattle.std.specs.Prelude.{◌≡◌, [], length, is_ok};
ghost use Rattle.histories.specs.Machines.{gives, leaves, answers};
ghost use Rattle.histories.specs.Histories.{event};
ghost use Rattle.settlement.specs.Accounts.{machine};
ghost use Rattle.settlement.specs.Accounts.Call.{open_for, enter, settle, turn};
ghost use Rattle.settlement.specs.Steps.{enter_answer, settle_lines};
ghost use Rattle.settlement.specs.History.{enter_event};
ghost use Rattle.settlement.specs.Promises.{Keeps, OpenKeeps};
ghost use Rattle.settlement.specs.Billing.{billing, closed, open_refusal};
ghost use Rattle.store.specs.Held.{lent, room};
ghost use Rattle.store.specs.Slots.{Accounted};
ghost use Rattle.accounts.specs.Billed.{billed, bill_opening, bills};
ghost use Rattle.accounts.specs.Unopened.{AsLent, StaysAsLent, OpenStaysAsLent};
ghost use Rattle.accounts.specs.Slots.{SameSlots};

use crate::billing::Billing;
use crate::billing::amounts::{bill_of, cap_of, deposit_of, paid};
use crate::inside::{
    MOST_PORTIONS, draw_store, enter_store, month_in_range, open_store, turn_store,
};
use crate::lines::write_lines;
use faults::AccountFault;
use hours::MonthSums;
use portions::rules::Rule;
use portions::{Kind, Slot};
use settlement::{Account, Line, MonthState, Payment, Returned};
use store::Store;

impl<'a> Billing<'a> {
    // An account over slots, not open yet.
    pub fn over(slots: &'a mut [Slot]) -> Billing<'a>
        ensures state { billed result ≡ closed }
        ensures slots { lent result.store ≡ slots.old }
        ensures lender { result.store.rows.slots.ghost_name ≡ slots.entry.ghost_name }
        ensures unopened { AsLent bills slots.old [] result }
    {
        Billing {
            store: Store::over(slots),
            bill: 0,
            percentage: 0,
            state: MonthState::Waiting,
        }
    }

    // Refuses an opening that is not to be.
    fn may_open(&self, month: u16, percentage: u8) -> Result<(), AccountFault>
        ensures { result ≡ answers (open_refusal (bill_opening (room self.now.store) month percentage)) tt }
    {
        self.store.enough_slots()?;
        month_in_range(month)?;
        if percentage > 100 {
            return Err(AccountFault::PercentageTooHigh);
        }
        Ok(())
    }

    // Starts anew in a month, with the percentage that caps refunds.
    pub fn open(&mut self, month: u16, percentage: u8) -> Result<(), AccountFault>
        ensures answer { result ≡ gives (machine billing) (open_for (bill_opening (room self.old.store) month percentage)) (billed self.old) }
        ensures state { billed self.new ≡ leaves (machine billing) (open_for (bill_opening (room self.old.store) month percentage)) (billed self.old) }
        ensures slots { SameSlots self.old.store self.new.store }
        ensures promised { OpenKeeps billing (billed self.old) (bill_opening (room self.old.store) month percentage) result (billed self.new) }
        ensures unopened { OpenStaysAsLent bills self.old (bill_opening (room self.old.store) month percentage) result self.new }
    {
        self.may_open(month, percentage)?;
        open_store(&mut self.store, month)?;
        self.bill = 0;
        self.percentage = percentage;
        self.state = MonthState::Waiting;
        Ok(())
    }

    // Enters a month's sums: the deposit into the store, and the bill. A refusal hands the sums back.
    pub fn enter(&mut self, sums: MonthSums) -> Result<(), Returned>
        ensures answer { result ≡ enter_answer billing sums (billed self.old) }
        ensures state { billed self.new ≡ leaves (machine billing) (enter sums) (billed self.old) }
        ensures slots { Accounted (is_ok result) self.old.store self.new.store }
        ensures promised { Keeps billing (billed self.old) (enter_event sums result) (billed self.new) }
        ensures unopened { StaysAsLent bills self.old (enter_event sums result) self.new }
    {
        // A match, since a refusal hands the sums back and an accepted enter strikes them: `map_err` would take them for both.
        match self.take_in(&sums) {
            Err(fault) => Err(Returned { fault, sums }),
            Ok(()) => {
                let _ = sums.strike();
                Ok(())
            }
        }
    }

    // Enters a month's sums, which stay the caller's.
    fn take_in(&mut self, sums: &MonthSums) -> Result<(), AccountFault>
        ensures answer { result ≡ gives (machine billing) (enter sums.now) (billed self.old) }
        ensures state { billed self.new ≡ leaves (machine billing) (enter sums.now) (billed self.old) }
        ensures slots { Accounted (is_ok result) self.old.store self.new.store }
    {
        let next = self.may_enter(sums.month())?;
        enter_store(
            &mut self.store,
            deposit_of(sums),
            cap_of(sums, self.percentage),
        )?;
        self.bill = bill_of(sums);
        self.state = next;
        Ok(())
    }

    // Draws the bill on the deposits by the rule, and writes a line for each open deposit.
    pub fn settle<R: Rule>(&mut self, rule: &R, lines: &mut [Line]) -> Result<Payment, AccountFault>
        ensures answer { result ≡ gives (machine billing) (settle (R.Rule.gives rule.now) (length lines.old)) (billed self.old) }
        ensures state { billed self.new ≡ leaves (machine billing) (settle (R.Rule.gives rule.now) (length lines.old)) (billed self.old) }
        ensures lines { lines.new ≡ settle_lines billing (R.Rule.gives rule.now) (billed self.old) lines.old }
        ensures slots { Accounted (is_ok result) self.old.store self.new.store }
        ensures promised { Keeps billing (billed self.old) (event (settle (R.Rule.gives rule.now) (length lines.old)) result) (billed self.new) }
        ensures unopened { StaysAsLent bills self.old (event (settle (R.Rule.gives rule.now) (length lines.old)) result) self.new }
    {
        let next = self.may_settle(MOST_PORTIONS, lines.len())?;
        let before = self.store.lefts();
        let used = draw_store(&mut self.store, rule, self.bill)?;
        let count = write_lines(&self.store, None, &before, lines);
        let payment = paid(self.bill, used, count);
        self.bill = 0;
        self.state = next;
        Ok(payment)
    }

    // Turns the store to the next month: the refunds and losses, summed.
    pub fn turn(&mut self) -> Result<(u64, u64), AccountFault>
        ensures answer { result ≡ gives (machine billing) turn (billed self.old) }
        ensures state { billed self.new ≡ leaves (machine billing) turn (billed self.old) }
        ensures slots { Accounted (is_ok result) self.old.store self.new.store }
        ensures promised { Keeps billing (billed self.old) (event turn result) (billed self.new) }
        ensures unopened { StaysAsLent bills self.old (event turn result) self.new }
    {
        let next = self.may_turn()?;
        let ended = turn_store(&mut self.store)?;
        self.state = next;
        Ok(ended)
    }

    // Ends the account and hands the slots back.
    pub fn close(self) -> &'a mut [Slot]
        ensures slots { result.now ≡ lent self.entry.store }
        ensures lender { result.ghost_name ≡ self.entry.store.rows.slots.ghost_name }
    {
        let Billing {
            store,
            bill: _,
            percentage: _,
            state: _,
        } = self;
        store.close()
    }
}
