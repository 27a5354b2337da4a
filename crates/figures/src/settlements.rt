// Worked figures of settlements.
use crate::Figure;
use crate::sums::{NOTHING, Prices, USUAL, Use, struck, sums_of};
use accounts::{Billing, Metering};
use anyhow::{Context, anyhow};
use portions::oldest_first::OldestFirst;
use portions::{Kind, Slot};
use settlement::Line;
use std::alloc::{AllocError, Global};

// The lines of a settlement, and what is due in each zone.
fn told(heap: Global, lines: &[Line], count: usize, due: [u32; 3]) -> Result<String, AllocError> {
    let mut text = String::new(heap);
    for line in lines.iter().take(count) {
        write!(
            text,
            "zone {} used {} left {}, ",
            line.zone, line.used, line.left
        )?;
    }
    let [one, two, three] = due;
    write!(text, "due {one} {two} {three}")?;
    Ok(text)
}

// A month of a metering account of so much power, settled oldest first.
fn metered(heap: Global, power: u32, zones: [Use; 3]) -> anyhow::Result<String> {
    let (mut one, mut two, mut three) = (
        [Slot::default(); 13],
        [Slot::default(); 13],
        [Slot::default(); 13],
    );
    let mut account = Metering::over(&mut one, &mut two, &mut three);
    account
        .open(97, power, 1)
        .map_err(|_| anyhow!("the opening is refused"))?;
    account
        .enter(sums_of(heap, 97, zones, USUAL)?)
        .map_err(struck)?;
    let mut lines = [Line::default(); 39];
    let settled = account
        .settle(&OldestFirst, &mut lines)
        .map_err(|_| anyhow!("the settlement is refused"))?;
    let due = settled.due;
    Ok(told(heap, &lines, settled.lines, [due.one, due.two, due.three])?)
}

// A month of a billing account: its deposit with the cap of its refund, and the bill settled oldest first.
fn billed(heap: Global, percentage: u8, used: Use, prices: Prices) -> anyhow::Result<String> {
    let mut slots = [Slot::default(); 13];
    let mut account = Billing::over(&mut slots);
    account
        .open(97, percentage)
        .map_err(|_| anyhow!("the opening is refused"))?;
    account
        .enter(sums_of(heap, 97, [used, NOTHING, NOTHING], prices)?)
        .map_err(struck)?;
    let deposit = account.portion(0).context("there is no deposit")?;
    let mut lines = [Line::default(); 13];
    let paid = account
        .settle(&OldestFirst, &mut lines)
        .map_err(|_| anyhow!("the settlement is refused"))?;
    Ok(format!(in heap;
        "deposit {} cap {} used {} due {}",
        deposit.entered(),
        deposit.terms(),
        paid.used,
        paid.due
    )?)
}

// A figure of a metering account's month: the power, and what is taken and given in each zone.
#[derive(Clone, Copy)]
struct MeteredMonth<'a> {
    figure: Figure<'a>,
    power: u32,
    zones: [Use; 3],
}

// The months of metering accounts that are shown.
const METERED: [MeteredMonth<'static>; 9] = [
    MeteredMonth {
        figure: Figure {
            name: "zones that help each other",
            expected: "zone 1 used 525000 left 75000, zone 2 used 100000 left 0, zone 3 used 0 left 0, due 0 0 0",
        },
        power: 10_000,
        zones: [
            Use {
                taken: 200_000,
                given: 600_000,
            },
            Use {
                taken: 300_000,
                given: 100_000,
            },
            NOTHING,
        ],
    },
    MeteredMonth {
        figure: Figure {
            name: "a store that does not suffice",
            expected: "zone 1 used 2461000 left 0, zone 2 used 0 left 0, zone 3 used 0 left 0, due 37200 0 0",
        },
        power: 10_000,
        zones: [
            Use {
                taken: 2_006_000,
                given: 2_461_000,
            },
            NOTHING,
            NOTHING,
        ],
    },
    MeteredMonth {
        figure: Figure {
            name: "1 W",
            expected: "zone 1 used 1250 left 98750, zone 2 used 0 left 0, zone 3 used 0 left 0, due 0 0 0",
        },
        power: 1,
        zones: [
            Use {
                taken: 1_000,
                given: 100_000,
            },
            NOTHING,
            NOTHING,
        ],
    },
    MeteredMonth {
        figure: Figure {
            name: "10 kW",
            expected: "zone 1 used 1250 left 98750, zone 2 used 0 left 0, zone 3 used 0 left 0, due 0 0 0",
        },
        power: 10_000,
        zones: [
            Use {
                taken: 1_000,
                given: 100_000,
            },
            NOTHING,
            NOTHING,
        ],
    },
    MeteredMonth {
        figure: Figure {
            name: "over 10 kW",
            expected: "zone 1 used 1429 left 98571, zone 2 used 0 left 0, zone 3 used 0 left 0, due 0 0 0",
        },
        power: 10_001,
        zones: [
            Use {
                taken: 1_000,
                given: 100_000,
            },
            NOTHING,
            NOTHING,
        ],
    },
    MeteredMonth {
        figure: Figure {
            name: "50 kW, and two stores that do not suffice",
            expected: "zone 1 used 999 left 0, zone 2 used 204 left 0, zone 3 used 0 left 0, due 159 0 0",
        },
        power: 50_000,
        zones: [
            Use {
                taken: 1_000,
                given: 999,
            },
            Use {
                taken: 0,
                given: 204,
            },
            NOTHING,
        ],
    },
    MeteredMonth {
        figure: Figure {
            name: "two zones in need of one store",
            expected: "zone 1 used 3001 left 0, zone 2 used 1000 left 0, zone 3 used 4000 left 0, due 0 400 0",
        },
        power: 10_000,
        zones: [
            Use {
                taken: 4_000,
                given: 3_001,
            },
            Use {
                taken: 2_000,
                given: 1_000,
            },
            Use {
                taken: 800,
                given: 4_000,
            },
        ],
    },
    MeteredMonth {
        figure: Figure {
            name: "one zone in need of two stores",
            expected: "zone 1 used 1003 left 0, zone 2 used 2000 left 0, zone 3 used 1998 left 3002, due 0 0 0",
        },
        power: 10_000,
        zones: [
            Use {
                taken: 0,
                given: 1_003,
            },
            Use {
                taken: 4_000,
                given: 2_000,
            },
            Use {
                taken: 0,
                given: 5_000,
            },
        ],
    },
    MeteredMonth {
        figure: Figure {
            name: "1 Wh",
            expected: "zone 1 used 1 left 0, zone 2 used 0 left 0, zone 3 used 0 left 0, due 1 0 0",
        },
        power: 10_000,
        zones: [Use { taken: 1, given: 1 }, NOTHING, NOTHING],
    },
];

// A figure of a billing account's month: the percentage, what is taken and given, and the prices.
#[derive(Clone, Copy)]
struct BilledMonth<'a> {
    figure: Figure<'a>,
    percentage: u8,
    used: Use,
    prices: Prices,
}

// The months of billing accounts that are shown.
const BILLED: [BilledMonth<'static>; 4] = [
    BilledMonth {
        figure: Figure {
            name: "a deposit of 30,000,000,000 and a bill",
            expected: "deposit 36900 cap 6000 used 36900 due 23100",
        },
        percentage: 20,
        used: Use {
            taken: 100_000,
            given: 100_000,
        },
        prices: Prices {
            sale: 600_000,
            given: 300_000,
        },
    },
    BilledMonth {
        figure: Figure {
            name: "a deposit and a bill of half a grosz more",
            expected: "deposit 185 cap 150 used 3 due 0",
        },
        percentage: 100,
        used: Use {
            taken: 5,
            given: 500,
        },
        prices: Prices {
            sale: 500_000,
            given: 300_000,
        },
    },
    BilledMonth {
        figure: Figure {
            name: "a deposit and a bill of less than half a grosz more",
            expected: "deposit 184 cap 149 used 2 due 0",
        },
        percentage: 100,
        used: Use {
            taken: 5,
            given: 500,
        },
        prices: Prices {
            sale: 499_999,
            given: 299_999,
        },
    },
    BilledMonth {
        figure: Figure {
            name: "a deposit and a bill of more than half a grosz more",
            expected: "deposit 185 cap 0 used 3 due 0",
        },
        percentage: 0,
        used: Use {
            taken: 5,
            given: 500,
        },
        prices: Prices {
            sale: 500_001,
            given: 300_001,
        },
    },
];

pub(crate) fn show_settlements(rt: &HostRuntime) -> anyhow::Result<()> {
    for case in METERED.iter() {
        let got = metered(rt.alloc(), case.power, case.zones)?;
        case.figure.show(rt, got.as_str())?;
    }
    for case in BILLED.iter() {
        let got = billed(rt.alloc(), case.percentage, case.used, case.prices)?;
        case.figure.show(rt, got.as_str())?;
    }
    Ok(())
}
