// Worked figures of draw rules, and of a draw on a store.
use crate::Figure;
use faults::StoreFault;
use portions::amounts::Amounts;
use portions::dated::Dated;
use portions::energy::Energy;
use portions::oldest_first::OldestFirst;
use portions::proportional::Proportional;
use portions::rules::Rule;
use portions::{Kind, Slot};
use std::alloc::{AllocError, Global};
use store::Store;

// A figure of a draw: its month, the amounts left and the amount wanted.
#[derive(Clone, Copy)]
struct Draw<'a> {
    figure: Figure<'a>,
    month: u16,
    left: &'a [u32],
    wanted: u32,
}

// A slice's amounts, the first 16 at most.
fn amounts_of(left: &[u32]) -> Amounts {
    let mut amounts = Amounts::new();
    for amount in left {
        amounts.push(*amount);
    }
    amounts
}

// The takings, each after a space but the first.
fn told(heap: Global, takings: &Amounts) -> Result<String, AllocError> {
    let mut text = String::new(heap);
    for taking in takings.as_slice() {
        let gap = if text.is_empty() { "" } else { " " };
        write!(text, "{gap}{taking}")?;
    }
    Ok(text)
}

// What a rule takes in each draw.
fn show_takings<R: Rule>(rt: &HostRuntime, rule: &R, draws: &[Draw<'_>]) -> anyhow::Result<()> {
    for draw in draws {
        let takings = rule.give(draw.month, &amounts_of(draw.left), draw.wanted);
        let got = told(rt.alloc(), &takings)?;
        draw.figure.show(rt, got.as_str())?;
    }
    Ok(())
}

// A seller's invoice: six months' portions, from July 2024 on, and all of them drawn in December, oldest first.
fn draw_invoice(store: &mut Store<Energy>) -> Result<u64, StoreFault> {
    store.open(102)?;
    store.enter(793_000, ())?;
    for amount in [684_000, 557_000, 307_000, 98_000, 22_000] {
        store.turn()?;
        store.enter(amount, ())?;
    }
    store.draw(&OldestFirst, 2_507_500)
}

// The invoice's draw, and how many portions are open after it.
fn show_invoice(rt: &HostRuntime) -> anyhow::Result<()> {
    let mut slots = [Slot::default(); 13];
    let mut store: Store<Energy> = Store::over(&mut slots);
    let got = match draw_invoice(&mut store) {
        Ok(used) => format!(in rt.alloc(); "{used} used, {} open", store.count())?,
        Err(fault) => format!(in rt.alloc(); "refused by {}", fault.number())?,
    };
    Figure {
        name: "six portions of an invoice",
        expected: "2461000 used, 6 open",
    }
    .show(rt, got.as_str())
}

// What is left of two portions.
const HALVES: [u32; 2] = [200_000, 300_000];

// What is left of the portions of a seller's table.
const SELLERS: [u32; 8] = [
    141_000, 237_000, 12_000, 20_000, 52_000, 231_000, 490_000, 456_000,
];

// Draws in proportion.
fn show_proportional(rt: &HostRuntime) -> anyhow::Result<()> {
    let draws = [
        Draw {
            figure: Figure {
                name: "250,000 in proportion",
                expected: "100000 150000",
            },
            month: 74,
            left: &HALVES,
            wanted: 250_000,
        },
        Draw {
            figure: Figure {
                name: "2 in proportion",
                expected: "0 1 1",
            },
            month: 74,
            left: &[1, 1, 1],
            wanted: 2,
        },
        Draw {
            figure: Figure {
                name: "a seller's table in proportion",
                expected: "20560 34560 1750 2916 7583 33684 71452 66495",
            },
            month: 74,
            left: &SELLERS,
            wanted: 239_000,
        },
    ];
    show_takings(rt, &Proportional, &draws)
}

// A rule in proportion through month 74, and oldest first afterwards.
fn show_dated(rt: &HostRuntime) -> anyhow::Result<()> {
    let rule = Dated {
        through: 74,
        first: Proportional,
        then: OldestFirst,
    };
    let draws = [
        Draw {
            figure: Figure {
                name: "dated, in month 74",
                expected: "100000 150000",
            },
            month: 74,
            left: &HALVES,
            wanted: 250_000,
        },
        Draw {
            figure: Figure {
                name: "dated, in month 75",
                expected: "200000 50000",
            },
            month: 75,
            left: &HALVES,
            wanted: 250_000,
        },
    ];
    show_takings(rt, &rule, &draws)
}

pub(crate) fn show_draws(rt: &HostRuntime) -> anyhow::Result<()> {
    show_proportional(rt)?;
    show_dated(rt)?;
    show_invoice(rt)
}
