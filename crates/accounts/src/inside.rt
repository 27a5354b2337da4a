// What accounts of either sort ask before an opening, and calls on a store inside one, which hand on the store's own answer. None
// is refused there: those after an opening ask that the store is open, which a store lent by its zone cannot say of itself.
ghost use Rattle.std.specs.Prelude.{◌≡◌, ◌+◌, ◌<◌, ◌≤◌, true, None, Ok, IfOk, nat_le};
ghost use Rattle.faults.specs.declared.AccountFault.TheVariants.{MonthOutOfRange};
ghost use Rattle.portions.specs.Sums.{sum};
ghost use Rattle.ledger.specs.Ledger.{opening};
ghost use Rattle.ledger.specs.Steps.{entering, takings, drawing, turning, refunds, losses};
ghost use Rattle.histories.specs.Machines.{answers, asks};
ghost use Rattle.store.specs.Held.{room};
ghost use Rattle.store.specs.Reading.{kind_of, ledger_of};
ghost use Rattle.store.specs.Slots.{Accounted};
ghost use Rattle.accounts.specs.Bounds.{FreeIn};
ghost use Rattle.accounts.specs.Slots.{SameSlots, Drawn};

use faults::{AccountFault, StoreFault};
use portions::rules::Rule;
use portions::{FIRST_MONTH, Kind, LAST_MONTH};
use store::Store;

// The most portions that a store of an account has open: a month's and those of the twelve months before it. A settlement needs
// so many lines for each store.
pub(crate) const MOST_PORTIONS: usize = 13;

// Refuses a month for which no account may be opened.
pub(crate) fn month_in_range(month: u16) -> Result<(), AccountFault>
    ensures { result ≡ answers (asks (nat_le 47 month) MonthOutOfRange (asks (nat_le month 1199) MonthOutOfRange None)) tt }
{
    if !(FIRST_MONTH..=LAST_MONTH).contains(&month) {
        return Err(AccountFault::MonthOutOfRange);
    }
    Ok(())
}

// Opens a store that has the slots, for a month that can be.
pub(crate) fn open_store<K: Kind>(store: &mut Store<K>, month: u16) -> Result<(), StoreFault>
    requires roomy { K.Kind.LIFE < room store.old }
    requires low { 47 ≤ month }
    requires high { month ≤ 1199 }
    ensures answer { result ≡ Ok tt }
    ensures state { ledger_of K.Kind store.new ≡ opening month }
    ensures slots { SameSlots store.old store.new }
{
    store.open(month)
}

// Enters an amount that is not too large, in a month that has no portion yet.
pub(crate) fn enter_store<K: Kind>(
    store: &mut Store<K>,
    amount: u32,
    terms: K::Terms,
) -> Result<(), StoreFault>
    requires ready { (ledger_of K.Kind store.old).opened ≡ true }
    requires small { amount ≤ 100000000 }
    requires free { FreeIn (ledger_of K.Kind store.old) }
    ensures answer { result ≡ Ok tt }
    ensures state { ledger_of K.Kind store.new ≡ entering amount terms (ledger_of K.Kind store.old) }
    ensures slots { Accounted true store.old store.new }
{
    store.enter(amount, terms)
}

// Draws an amount that is not too large: the sum taken.
pub(crate) fn draw_store<K: Kind, R: Rule>(
    store: &mut Store<K>,
    rule: &R,
    wanted: u32,
) -> Result<u32, StoreFault>
    requires ready { (ledger_of K.Kind store.old).opened ≡ true }
    requires small { wanted ≤ 1000000000 }
    ensures answer { result ≡ Ok (sum (takings (R.Rule.gives rule.now) wanted (ledger_of K.Kind store.old))) }
    ensures most { IfOk result (λ used. used ≤ wanted) }
    ensures state { ledger_of K.Kind store.new ≡ drawing (takings (R.Rule.gives rule.now) wanted (ledger_of K.Kind store.old)) (ledger_of K.Kind store.old) }
    ensures slots { Drawn store.old store.new }
{
    Ok(store.draw(rule, wanted)? as u32)
}

// Turns a store that is not in its last month: its refunds and losses.
pub(crate) fn turn_store<K: Kind>(store: &mut Store<K>) -> Result<(u64, u64), StoreFault>
    requires ready { (ledger_of K.Kind store.old).opened ≡ true }
    requires early { (ledger_of K.Kind store.old).month < 1199 }
    ensures answer { result ≡ Ok (refunds (kind_of K.Kind) (ledger_of K.Kind store.old), losses (kind_of K.Kind) (ledger_of K.Kind store.old)) }
    ensures state { ledger_of K.Kind store.new ≡ turning (kind_of K.Kind) (ledger_of K.Kind store.old) }
    ensures slots { Accounted true store.old store.new }
    ensures free { FreeIn (ledger_of K.Kind store.new) }
    ensures small { IfOk result (λ ended. ended.0 + ended.1 ≤ 120000000000) }
{
    store.turn()
}
