ghost use Rattle.std.specs.Prelude.{◌≡◌, [], length, is_ok};
ghost use Rattle.settlement.specs.Table.{period_of};
ghost use Rattle.histories.specs.Machines.{gives, leaves, answers};
ghost use Rattle.histories.specs.Histories.{event};
ghost use Rattle.settlement.specs.Accounts.{machine};
ghost use Rattle.settlement.specs.Accounts.Call.{open_for, enter, settle, turn};
ghost use Rattle.settlement.specs.Steps.{enter_answer, settle_lines};
ghost use Rattle.settlement.specs.History.{enter_event};
ghost use Rattle.settlement.specs.Promises.{Keeps, OpenKeeps};
ghost use Rattle.settlement.specs.Metering.{metering, closed, open_refusal, or_monthly};
ghost use Rattle.store.specs.Held.{lent};
ghost use Rattle.accounts.specs.Means.{fewest};
ghost use Rattle.accounts.specs.Metered.{metered, meter_opening, meters};
ghost use Rattle.accounts.specs.Unopened.{AsLent, StaysAsLent, OpenStaysAsLent};
ghost use Rattle.accounts.specs.Slots.{EachSame, EachAccounted};

use crate::inside::{MOST_PORTIONS, month_in_range};
use crate::metering::coefficient::Coefficient;
use crate::metering::{Metering, Meters};
use faults::AccountFault;
use hours::MonthSums;
use portions::rules::Rule;
use portions::{Kind, Slot};
use settlement::{Account, Line, MonthState, Period, Returned, Settlement, Zones};
use store::Store;

// The fewest lines that a settlement asks for: one for each portion that can be open.
const FEWEST_LINES: usize = 3 * MOST_PORTIONS;

impl<'a> Metering<'a> {
    // An account over three lists of slots, not open yet.
    pub fn over(one: &'a mut [Slot], two: &'a mut [Slot], three: &'a mut [Slot]) -> Metering<'a>
        ensures state { metered result ≡ closed }
        ensures first { (lent result.meters.stores.one ≡ one.old) × (result.meters.stores.one.rows.slots.ghost_name ≡ one.entry.ghost_name) }
        ensures second { (lent result.meters.stores.two ≡ two.old) × (result.meters.stores.two.rows.slots.ghost_name ≡ two.entry.ghost_name) }
        ensures third { (lent result.meters.stores.three ≡ three.old) × (result.meters.stores.three.rows.slots.ghost_name ≡ three.entry.ghost_name) }
        ensures unopened { AsLent meters (record { one = one.old; two = two.old; three = three.old }) [] result }
    {
        let stores = Zones {
            one: Store::over(one),
            two: Store::over(two),
            three: Store::over(three),
        };
        Metering {
            meters: Meters {
                stores,
                pending: Zones::default(),
            },
            coefficient: Coefficient::Eight,
            period: Period::Monthly,
            state: MonthState::Waiting,
        }
    }

    // Refuses an opening that is not to be; otherwise the period of so many months.
    fn may_open(&self, month: u16, power: u32, months: u8) -> Result<Period, AccountFault>
        ensures { result ≡ answers (open_refusal (meter_opening (fewest self.now.meters.stores) month power months)) (or_monthly (period_of months)) }
    {
        self.meters.stores.one.enough_slots()?;
        self.meters.stores.two.enough_slots()?;
        self.meters.stores.three.enough_slots()?;
        month_in_range(month)?;
        if power == 0 || power > 50_000 {
            return Err(AccountFault::PowerOutOfRange);
        }
        Period::try_from(months)
    }

    // Starts anew in a month, with a power in W and a period of so many months. They are numbers, as a caller has them, and go no
    // further than this call, so they are no struct.
    pub fn open(&mut self, month: u16, power: u32, months: u8) -> Result<(), AccountFault>
        ensures answer { result ≡ gives (machine metering) (open_for (meter_opening (fewest self.old.meters.stores) month power months)) (metered self.old) }
        ensures state { metered self.new ≡ leaves (machine metering) (open_for (meter_opening (fewest self.old.meters.stores) month power months)) (metered self.old) }
        ensures slots { EachSame self.old.meters.stores self.new.meters.stores }
        ensures promised { OpenKeeps metering (metered self.old) (meter_opening (fewest self.old.meters.stores) month power months) result (metered self.new) }
        ensures unopened { OpenStaysAsLent meters self.old (meter_opening (fewest self.old.meters.stores) month power months) result self.new }
    {
        let period = self.may_open(month, power, months)?;
        self.meters.open(month)?;
        self.coefficient = Coefficient::of_power(power);
        self.period = period;
        self.state = MonthState::Waiting;
        Ok(())
    }

    // Enters a month's sums: each zone's export into its store, and its import to what is pending. A refusal hands the sums back.
    pub fn enter(&mut self, sums: MonthSums) -> Result<(), Returned>
        ensures answer { result ≡ enter_answer metering sums (metered self.old) }
        ensures state { metered self.new ≡ leaves (machine metering) (enter sums) (metered self.old) }
        ensures slots { EachAccounted (is_ok result) self.old.meters.stores self.new.meters.stores }
        ensures promised { Keeps metering (metered self.old) (enter_event sums result) (metered self.new) }
        ensures unopened { StaysAsLent meters self.old (enter_event sums result) self.new }
    {
        // A match, since a refusal hands the sums back and an accepted enter strikes them: `map_err` would take them for both.
        match self.take_in(&sums) {
            Err(fault) => Err(Returned { fault, sums }),
            Ok(()) => {
                let _ = sums.strike();
                Ok(())
            }
        }
    }

    // Enters a month's sums, which stay the caller's.
    fn take_in(&mut self, sums: &MonthSums) -> Result<(), AccountFault>
        ensures answer { result ≡ gives (machine metering) (enter sums.now) (metered self.old) }
        ensures state { metered self.new ≡ leaves (machine metering) (enter sums.now) (metered self.old) }
        ensures slots { EachAccounted (is_ok result) self.old.meters.stores self.new.meters.stores }
    {
        let next = self.may_enter(sums.month())?;
        let totals = sums.totals();
        self.meters
            .enter(Zones::from(totals.export), Zones::from(totals.import))?;
        self.state = next;
        Ok(())
    }

    // Covers what is pending in each zone by the rule, from its own store and then from the others, and writes a line for each
    // open portion.
    pub fn settle<R: Rule>(
        &mut self,
        rule: &R,
        lines: &mut [Line],
    ) -> Result<Settlement, AccountFault>
        ensures answer { result ≡ gives (machine metering) (settle (R.Rule.gives rule.now) (length lines.old)) (metered self.old) }
        ensures state { metered self.new ≡ leaves (machine metering) (settle (R.Rule.gives rule.now) (length lines.old)) (metered self.old) }
        ensures lines { lines.new ≡ settle_lines metering (R.Rule.gives rule.now) (metered self.old) lines.old }
        ensures slots { EachAccounted (is_ok result) self.old.meters.stores self.new.meters.stores }
        ensures promised { Keeps metering (metered self.old) (event (settle (R.Rule.gives rule.now) (length lines.old)) result) (metered self.new) }
        ensures unopened { StaysAsLent meters self.old (event (settle (R.Rule.gives rule.now) (length lines.old)) result) self.new }
    {
        let next = self.may_settle(FEWEST_LINES, lines.len())?;
        let before = self.meters.lefts();
        let pending = self.meters.pending;
        self.meters.cover_all(rule, self.coefficient)?;
        let count = self.meters.write(&before, lines);
        let due = self.meters.pending;
        self.meters.pending = Zones::default();
        self.state = next;
        Ok(Settlement {
            covered: pending.zip_with(due, |was, rest| was.saturating_sub(rest)),
            due,
            lines: count,
        })
    }

    // Turns the three stores to the next month: the refunds and losses, summed.
    pub fn turn(&mut self) -> Result<(u64, u64), AccountFault>
        ensures answer { result ≡ gives (machine metering) turn (metered self.old) }
        ensures state { metered self.new ≡ leaves (machine metering) turn (metered self.old) }
        ensures slots { EachAccounted (is_ok result) self.old.meters.stores self.new.meters.stores }
        ensures promised { Keeps metering (metered self.old) (event turn result) (metered self.new) }
        ensures unopened { StaysAsLent meters self.old (event turn result) self.new }
    {
        let next = self.may_turn()?;
        let ended = self.meters.turn()?;
        self.state = next;
        Ok(ended)
    }

    // Ends the account and hands the slots of each zone's store back.
    pub fn close(self) -> Zones<&'a mut [Slot]>
        ensures first { (result.one.now ≡ lent self.entry.meters.stores.one) × (result.one.ghost_name ≡ self.entry.meters.stores.one.rows.slots.ghost_name) }
        ensures second { (result.two.now ≡ lent self.entry.meters.stores.two) × (result.two.ghost_name ≡ self.entry.meters.stores.two.rows.slots.ghost_name) }
        ensures third { (result.three.now ≡ lent self.entry.meters.stores.three) × (result.three.ghost_name ≡ self.entry.meters.stores.three.rows.slots.ghost_name) }
    {
        let Metering {
            meters,
            coefficient: _,
            period: _,
            state: _,
        } = self;
        let Meters { stores, pending: _ } = meters;
        let Zones { one, two, three } = stores;
        Zones {
            one: one.close(),
            two: two.close(),
            three: three.close(),
        }
    }
}
