// A rule that is lawful only for as many amounts as portions can be open, drawn on a store.
ghost use Rattle.std.specs.Prelude.{◌≡◌, ◌≤◌, min, length, slice_index};
ghost use Rattle.std.proofs.Common.{ap, ◌∙◌, subst, sym};
ghost use Rattle.portions.specs.Sums.{sum};
ghost use Rattle.portions.specs.Takes.{oldest_length, oldest_bounded, oldest_sum};
ghost use Rattle.figures.specs.FirstOpen.{first_open, UnlawfulBeyond, as_oldest};

use crate::Figure;
use faults::StoreFault;
use portions::amounts::Amounts;
use portions::energy::Energy;
use portions::oldest_first::OldestFirst;
use portions::rules::Rule;
use portions::{Kind, Slot};
use store::Store;

// Takes oldest first, and of amounts beyond those that can be open nothing, not even a taking of 0.
#[derive(Clone, Copy)]
struct FirstOpen;

impl Rule for FirstOpen {
    ghost gives = { λ _ _ ls w. first_open ls w };

    ghost sized = { λ s m w ls few. ap length (as_oldest ls w few) ∙ oldest_length ls w };

    ghost bounded = { λ s m w ls few i. subst (λ ts. slice_index ts i ≤ slice_index ls i) (sym (as_oldest ls w few)) (oldest_bounded ls w i) };

    ghost full = { λ s m w ls few. ap sum (as_oldest ls w few) ∙ oldest_sum ls w };

    fn give(&self, month: u16, left: &Amounts, wanted: u32) -> Amounts {
        OldestFirst.give(month, left, wanted)
    }
}

// Carries the statement that the rule is lawful for no more amounts; there is nothing to compute.
fn unlawful_beyond()
    ensures { UnlawfulBeyond }
{}

// A portion of 100 of the opening's month and of each month of its life, thirteen in all, and all but 50 drawn.
fn draw_thirteen(store: &mut Store<Energy>) -> Result<u64, StoreFault> {
    store.open(75)?;
    store.enter(100, ())?;
    for _ in 0..Energy::LIFE {
        store.turn()?;
        store.enter(100, ())?;
    }
    store.draw(&FirstOpen, 1250)
}

pub(crate) fn show_first_open(rt: &HostRuntime) -> anyhow::Result<()> {
    unlawful_beyond();
    let mut slots = [Slot::default(); 13];
    let mut store: Store<Energy> = Store::over(&mut slots);
    let got = match draw_thirteen(&mut store) {
        Ok(used) => format!(in rt.alloc(); "{used} used, {} open", store.count())?,
        Err(fault) => format!(in rt.alloc(); "refused by {}", fault.number())?,
    };
    Figure {
        name: "a rule for at most 16 portions",
        expected: "1250 used, 13 open",
    }
    .show(rt, got.as_str())
}
