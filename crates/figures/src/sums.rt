// The sums of worked months.
use crate::months::QUIET;
use anyhow::{Context, anyhow};
use calendar::Month;
use hours::{MonthPrice, MonthSums, Reading, Tariff, sum_month};
use settlement::Returned;
use std::alloc::{AllocError, Global};

// What is taken and given in a zone, in Wh.
#[derive(Clone, Copy)]
pub(crate) struct Use {
    pub(crate) taken: u32,
    pub(crate) given: u32,
}

// Nothing of either, written out, since the value of a constant may not call `default`.
pub(crate) const NOTHING: Use = Use { taken: 0, given: 0 };

// What an hour costs, and what is paid for what is given in it, in gr per MWh.
#[derive(Clone, Copy)]
pub(crate) struct Prices {
    pub(crate) sale: u32,
    pub(crate) given: i32,
}

// The prices of every figure that names none.
pub(crate) const USUAL: Prices = Prices {
    sale: 600_000,
    given: 300_000,
};

// An hour of a zone, with at most 100,000 Wh of what is still to be taken, or if that is nothing, to be given.
fn next_hour(rest: &mut Use) -> Reading {
    let import = rest.taken.min(100_000);
    rest.taken -= import;
    let export = if import == 0 {
        rest.given.min(100_000)
    } else {
        0
    };
    rest.given -= export;
    Reading { import, export }
}

// The readings of a month of so many hours: on its first ten days eight hours of each zone, and nothing afterwards.
fn readings_of(heap: Global, hours: usize, zones: [Use; 3]) -> Result<Vec<Reading>, AllocError> {
    let mut rest = zones;
    let mut readings = Vec::new(heap);
    // Counts, and no index.
    for _ in 0..10 {
        for zone in rest.iter_mut() {
            for _ in 0..8 {
                readings.push(next_hour(zone))?;
            }
        }
    }
    readings.resize(hours, QUIET)?;
    Ok(readings)
}

// A row of marks: eight clock hours of each zone.
const ROW: [u8; 24] = [
    1, 1, 1, 1, 1, 1, 1, 1, 2, 2, 2, 2, 2, 2, 2, 2, 3, 3, 3, 3, 3, 3, 3, 3,
];

// The sums of a month in which so much was taken and given in each zone, at these prices.
pub(crate) fn sums_of(
    heap: Global,
    month: u16,
    zones: [Use; 3],
    prices: Prices,
) -> anyhow::Result<MonthSums> {
    let hours = Month::new(month).context("no such month")?.hours();
    let readings = readings_of(heap, usize::from(hours), zones)?;
    let mut source = MonthPrice::new(month, prices.given).map_err(|_| anyhow!(
        "the price is refused"
    ))?;
    let tariff = Tariff {
        marks: [ROW, ROW],
        sale: [prices.sale; 3],
    };
    sum_month(month, tariff, &readings, &mut source).map_err(|_| anyhow!("the month is refused"))
}

// Strikes sums that an account handed back.
pub(crate) fn struck(back: Returned) -> anyhow::Error {
    let Returned { fault: _, sums } = back;
    let _ = sums.strike();
    anyhow!("the sums are refused")
}
