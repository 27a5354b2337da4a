//! A store of portions of one kind, in slots that the caller provides.
#![tactic(auto)]

ghost use Rattle.store.specs.Sound.{Sound};
ghost use Rattle.store.specs.Exact.{Clean};

use portions::Kind;
use rows::Rows;
use std::marker::PhantomData;

mod calls;
mod refusals;
mod rows;
mod tells;
mod totals;

pub use totals::Totals;

// Portions of the kind K in the caller's slots, the open ones in the rows in use, oldest first.
// The flag stands beside the month and the totals, since a store that is not open yet tells them too, as 0.
#[derive(Drop)]
pub struct Store<'a, K: Kind> {
    rows: Rows<'a>,
    kind: PhantomData<K>,
    opened: bool,
    month: u16,
    totals: Totals,
    ghost sound: { Sound K.Kind.LIFE rows opened month totals },
    ghost clean: { Clean K.Kind rows },
}
