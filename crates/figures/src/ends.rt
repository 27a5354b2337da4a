// Worked figures of what portions' ends refund and lose.
use crate::Figure;
use crate::sums::{NOTHING, USUAL, Use, struck, sums_of};
use accounts::Metering;
use anyhow::anyhow;
use faults::StoreFault;
use portions::deposit::Deposit;
use portions::energy::Energy;
use portions::oldest_first::OldestFirst;
use portions::{Kind, Slot};
use settlement::{Account, Line};
use std::alloc::{AllocError, Global};
use store::Store;

// A portion's end: the month that it was last open in, None where it ended early, and what the next turn refunds and loses.
#[derive(Clone, Copy)]
struct End {
    last: Option<u16>,
    ended: (u64, u64),
}

impl End {
    fn told(self, heap: Global) -> Result<String, AllocError> {
        let (refunded, lost) = self.ended;
        match self.last {
            Some(last) => {
                format!(in heap; "open in {last}, then {refunded} refunded and {lost} lost")
            }
            None => format!(in heap; "ended early, then {refunded} refunded and {lost} lost"),
        }
    }
}

// A portion of 1,000 of month 75, of which so much is drawn at once, turned until it ends.
fn outlive<K: Kind>(store: &mut Store<K>, terms: K::Terms, drawn: u32) -> Result<End, StoreFault> {
    store.open(75)?;
    store.enter(1000, terms)?;
    store.draw(&OldestFirst, drawn)?;
    // A count, and no index.
    for _ in 0..K::LIFE {
        store.turn()?;
    }
    let last = (store.count() == 1).then_some(store.month());
    let ended = store.turn()?;
    Ok(End { last, ended })
}

// The end of a portion of such a kind.
fn show_end<K: Kind>(
    rt: &HostRuntime,
    figure: Figure<'_>,
    terms: K::Terms,
    drawn: u32,
) -> anyhow::Result<()> {
    let mut slots = [Slot::default(); 13];
    let mut store: Store<K> = Store::over(&mut slots);
    let got = match outlive(&mut store, terms, drawn) {
        Ok(end) => end.told(rt.alloc())?,
        Err(fault) => format!(in rt.alloc(); "refused by {}", fault.number())?,
    };
    figure.show(rt, got.as_str())
}

// The end of energy, and of deposits of which less is left than the cap of 300, just as much, and more.
fn show_portions(rt: &HostRuntime) -> anyhow::Result<()> {
    show_end::<Energy>(
        rt,
        Figure {
            name: "a portion of month 75",
            expected: "open in 87, then 0 refunded and 1000 lost",
        },
        (),
        0,
    )?;
    show_end::<Deposit>(
        rt,
        Figure {
            name: "a deposit below its cap",
            expected: "open in 87, then 299 refunded and 0 lost",
        },
        300,
        701,
    )?;
    show_end::<Deposit>(
        rt,
        Figure {
            name: "a deposit at its cap",
            expected: "open in 87, then 300 refunded and 0 lost",
        },
        300,
        700,
    )?;
    show_end::<Deposit>(
        rt,
        Figure {
            name: "a deposit above its cap",
            expected: "open in 87, then 300 refunded and 500 lost",
        },
        300,
        200,
    )
}

// Three zones' energy of a month, of which zone 2's is wholly used.
const GIVEN: [Use; 3] = [
    Use {
        taken: 0,
        given: 1000,
    },
    Use {
        taken: 160,
        given: 200,
    },
    Use {
        taken: 0,
        given: 30,
    },
];

// Enters a month's sums, settles them and turns: what is refunded and lost.
fn pass_month(
    heap: Global,
    account: &mut Metering<'_>,
    zones: [Use; 3],
) -> anyhow::Result<(u64, u64)> {
    let month = account.standing().month;
    account
        .enter(sums_of(heap, month, zones, USUAL)?)
        .map_err(struck)?;
    let mut lines = [Line::default(); 39];
    account
        .settle(&OldestFirst, &mut lines)
        .map_err(|_| anyhow!("the settlement is refused"))?;
    account.turn().map_err(|_| anyhow!("the turn is refused"))
}

// An account turned until the portions of its first month end in its three stores.
fn outlive_zones(heap: Global) -> anyhow::Result<String> {
    let (mut one, mut two, mut three) = (
        [Slot::default(); 13],
        [Slot::default(); 13],
        [Slot::default(); 13],
    );
    let mut account = Metering::over(&mut one, &mut two, &mut three);
    account
        .open(97, 10_000, 1)
        .map_err(|_| anyhow!("the opening is refused"))?;
    let mut text = String::new(heap);
    let mut ended = pass_month(heap, &mut account, GIVEN)?;
    for _ in 0..Energy::LIFE {
        write!(text, "{} ", ended.1)?;
        ended = pass_month(heap, &mut account, [NOTHING; 3])?;
    }
    let (refunded, lost) = ended;
    write!(
        text,
        "then {refunded} refunded and {lost} lost by the turn to {}",
        account.standing().month
    )?;
    Ok(text)
}

pub(crate) fn show_ends(rt: &HostRuntime) -> anyhow::Result<()> {
    show_portions(rt)?;
    let got = outlive_zones(rt.alloc())?;
    Figure {
        name: "losses of the zones 1 and 3",
        expected: "0 0 0 0 0 0 0 0 0 0 0 0 then 0 refunded and 1030 lost by the turn to 110",
    }
    .show(rt, got.as_str())
}
