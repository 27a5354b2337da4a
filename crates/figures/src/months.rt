// Worked figures of the calendar and of a month's sums.
use crate::Figure;
use anyhow::{Context, anyhow};
use calendar::Month;
use hours::{MonthPrice, Reading, Tariff, Totals, sum_month};
use std::alloc::{AllocError, Global};

// An hour in which nothing was taken or given.
pub(crate) const QUIET: Reading = Reading {
    import: 0,
    export: 0,
};

// The totals of a month, zone by zone, and its value and charge.
fn show_totals(rt: &HostRuntime, figure: Figure<'_>, totals: Totals) -> anyhow::Result<()> {
    let [i1, i2, i3] = totals.import;
    let [e1, e2, e3] = totals.export;
    let charge = totals.charge;
    let value = totals.value;
    let got = format!(in rt.alloc();
        "import {i1} {i2} {i3} export {e1} {e2} {e3} charge {charge} value {value}"
    )?;
    figure.show(rt, got.as_str())
}

// The sums of February 2024, whose first hours are given and whose others are empty, struck once they are read off.
// Working days are in zone 1, Saturdays and Sundays in zone 3; the sale prices are 600,000, 0 and 500,000 gr per MWh.
fn february(heap: Global, first: &[Reading], price: i32) -> anyhow::Result<Totals> {
    let mut readings = Vec::from_slice(heap, first)?;
    readings.resize(696, QUIET)?;
    let mut source = MonthPrice::new(97, price).map_err(|_| anyhow!("the price is refused"))?;
    let tariff = Tariff {
        marks: [[1; 24], [3; 24]],
        sale: [600_000, 0, 500_000],
    };
    let sums = sum_month(97, tariff, &readings, &mut source).map_err(|_| anyhow!(
        "the month is refused"
    ))?;
    let totals = sums.totals();
    let _ = sums.strike();
    Ok(totals)
}

// The hours of a month.
fn show_hours(rt: &HostRuntime, number: u16, expected: &str) -> anyhow::Result<()> {
    let month = Month::new(number).context("no such month")?;
    let heap = rt.alloc();
    let hours = month.hours();
    let name = format!(in heap; "hours of month {number}")?;
    let got = format!(in heap; "{hours}")?;
    Figure {
        name: name.as_str(),
        expected,
    }
    .show(rt, got.as_str())
}

// What the clock shows, hour by hour, on a day of a month.
fn clock_hours(heap: Global, month: Month, day: u8) -> Result<String, AllocError> {
    let mut shown = String::new(heap);
    for hour in (0..month.hours()).filter_map(|place| month.hour_at(place)) {
        if hour.day == day {
            let clock = hour.clock;
            write!(shown, "{clock} ")?;
        }
    }
    Ok(shown)
}

// The clock hours of the day of month on which the clocks change, counted from 1.
fn show_day(rt: &HostRuntime, number: u16, day: u8, expected: &str) -> anyhow::Result<()> {
    let month = Month::new(number).context("no such month")?;
    let heap = rt.alloc();
    let got = clock_hours(heap, month, day.saturating_sub(1))?;
    let name = format!(in heap; "clock hours of day {day} of month {number}")?;
    Figure {
        name: name.as_str(),
        expected,
    }
    .show(rt, got.as_str().trim_end())
}

// A seller's balancing table: import and export of the hours 11 to 18, in Wh.
const SELLERS_HOURS: [Reading; 8] = [
    Reading {
        import: 1000,
        export: 500,
    },
    Reading {
        import: 1500,
        export: 2000,
    },
    Reading {
        import: 1000,
        export: 3000,
    },
    Reading {
        import: 2000,
        export: 3000,
    },
    Reading {
        import: 1000,
        export: 2000,
    },
    Reading {
        import: 3000,
        export: 1500,
    },
    Reading {
        import: 4000,
        export: 1000,
    },
    Reading {
        import: 5000,
        export: 1000,
    },
];

// The table hour by hour, and in all.
fn show_sellers_table(rt: &HostRuntime) -> anyhow::Result<()> {
    let heap = rt.alloc();
    let expected = [
        "+500", "-500", "-2000", "-1000", "-1000", "+1500", "+3000", "+4000",
    ];
    for (k, (reading, balance)) in SELLERS_HOURS.iter().zip(expected.iter()).enumerate() {
        let totals = february(heap, &[*reading], 0)?;
        let [taken, _, _] = totals.import;
        let [given, _, _] = totals.export;
        let got = if given == 0 {
            format!(in heap; "+{taken}")?
        } else {
            format!(in heap; "-{given}")?
        };
        let name = format!(in heap; "balance of hour {}", k.saturating_add(11))?;
        Figure {
            name: name.as_str(),
            expected: balance,
        }
        .show(rt, got.as_str())?;
    }
    let all = february(heap, &SELLERS_HOURS, 0)?;
    show_totals(
        rt,
        Figure {
            name: "hours 11 to 18",
            expected: "import 9000 0 0 export 4500 0 0 charge 5400000000 value 0",
        },
        all,
    )
}

// What is given at a price, above 0 and below.
fn show_prices(rt: &HostRuntime) -> anyhow::Result<()> {
    let given = [Reading {
        import: 0,
        export: 1000,
    }];
    let paid = february(rt.alloc(), &given, 50_000)?;
    show_totals(
        rt,
        Figure {
            name: "1,000 Wh given at 50,000",
            expected: "import 0 0 0 export 1000 0 0 charge 0 value 50000000",
        },
        paid,
    )?;
    let unpaid = february(rt.alloc(), &given, -50_000)?;
    show_totals(
        rt,
        Figure {
            name: "1,000 Wh given at -50,000",
            expected: "import 0 0 0 export 1000 0 0 charge 0 value 0",
        },
        unpaid,
    )
}

// 100 Wh an hour taken from Thursday to the first hour of Saturday, the 49th.
fn show_saturday(rt: &HostRuntime) -> anyhow::Result<()> {
    let totals = february(
        rt.alloc(),
        &[Reading {
            import: 100,
            export: 0,
        }; 49],
        0,
    )?;
    show_totals(
        rt,
        Figure {
            name: "49 hours of 100 Wh from 1 February 2024",
            expected: "import 4800 0 100 export 0 0 0 charge 2930000000 value 0",
        },
        totals,
    )
}

pub(crate) fn show_months(rt: &HostRuntime) -> anyhow::Result<()> {
    show_hours(rt, 97, "696")?;
    show_hours(rt, 98, "743")?;
    show_hours(rt, 105, "745")?;
    show_day(
        rt,
        98,
        31,
        "0 1 3 4 5 6 7 8 9 10 11 12 13 14 15 16 17 18 19 20 21 22 23",
    )?;
    show_day(
        rt,
        98,
        30,
        "0 1 2 3 4 5 6 7 8 9 10 11 12 13 14 15 16 17 18 19 20 21 22 23",
    )?;
    show_day(
        rt,
        105,
        27,
        "0 1 2 2 3 4 5 6 7 8 9 10 11 12 13 14 15 16 17 18 19 20 21 22 23",
    )?;
    show_sellers_table(rt)?;
    show_prices(rt)?;
    show_saturday(rt)
}
