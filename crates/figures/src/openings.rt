// Worked figures of openings: which are accepted, and with which months a period ends.
use crate::Figure;
use accounts::{Billing, Metering};
use faults::AccountFault;
use portions::Slot;
use settlement::{Account, Standing};
use std::alloc::{AllocError, Global};

// What a metering account is opened for: how many slots each zone has, at most 13, the month, the power and the months of a period.
#[derive(Clone, Copy)]
struct Meter {
    slots: [usize; 3],
    month: u16,
    power: u32,
    months: u8,
}

// What a billing account is opened for, over at most 13 slots.
#[derive(Clone, Copy)]
struct Bill {
    slots: usize,
    month: u16,
    percentage: u8,
}

// An opening that is accepted, of which the figures alter one thing or another.
const METER: Meter = Meter {
    slots: [13; 3],
    month: 97,
    power: 10_000,
    months: 1,
};

const BILL: Bill = Bill {
    slots: 13,
    month: 97,
    percentage: 20,
};

// The first of so many slots.
fn first(slots: &mut [Slot; 13], count: usize) -> &mut [Slot] {
    let (taken, _) = slots.split_at_mut(count.min(13));
    taken
}

// Where a metering account stands that was opened so.
fn opened_meter(opening: Meter) -> Result<Standing, AccountFault> {
    let (mut one, mut two, mut three) = (
        [Slot::default(); 13],
        [Slot::default(); 13],
        [Slot::default(); 13],
    );
    let [in_one, in_two, in_three] = opening.slots;
    let mut account = Metering::over(
        first(&mut one, in_one),
        first(&mut two, in_two),
        first(&mut three, in_three),
    );
    account.open(opening.month, opening.power, opening.months)?;
    Ok(account.standing())
}

// Where a billing account stands that was opened so.
fn opened_bill(opening: Bill) -> Result<Standing, AccountFault> {
    let mut slots = [Slot::default(); 13];
    let mut account = Billing::over(first(&mut slots, opening.slots));
    account.open(opening.month, opening.percentage)?;
    Ok(account.standing())
}

// What openings answer: the month that an account is in, or the refusal's number.
fn told(heap: Global, answers: &[Result<Standing, AccountFault>]) -> Result<String, AllocError> {
    let mut text = String::new(heap);
    for answer in answers {
        let gap = if text.is_empty() { "" } else { ", " };
        match answer {
            Ok(standing) => write!(text, "{gap}open in {}", standing.month)?,
            Err(fault) => write!(text, "{gap}refused by {}", fault.number())?,
        }
    }
    Ok(text)
}

// Openings, and what they should answer.
fn show_openings(
    rt: &HostRuntime,
    figure: Figure<'_>,
    answers: &[Result<Standing, AccountFault>],
) -> anyhow::Result<()> {
    let got = told(rt.alloc(), answers)?;
    figure.show(rt, got.as_str())
}

// Openings of metering accounts at each bound and one past it.
fn show_meters(rt: &HostRuntime) -> anyhow::Result<()> {
    show_openings(
        rt,
        Figure {
            name: "metering accounts of the months 46, 47, 1,199 and 1,200",
            expected: "refused by 2, open in 47, open in 1199, refused by 2",
        },
        &[46, 47, 1_199, 1_200].map(|month| opened_meter(Meter { month, ..METER })),
    )?;
    show_openings(
        rt,
        Figure {
            name: "metering accounts of 0, 1, 10,000, 10,001, 50,000 and 50,001 W",
            expected: "refused by 21, open in 97, open in 97, open in 97, open in 97, refused by 21",
        },
        &[0, 1, 10_000, 10_001, 50_000, 50_001].map(|power| opened_meter(Meter { power, ..METER })),
    )?;
    show_openings(
        rt,
        Figure {
            name: "metering accounts with periods of 0, 1, 2, 3, 5, 6 and 7 months",
            expected: "refused by 22, open in 97, open in 97, refused by 22, refused by 22, open in 97, refused by 22",
        },
        &[0, 1, 2, 3, 5, 6, 7].map(|months| opened_meter(Meter { months, ..METER })),
    )?;
    show_openings(
        rt,
        Figure {
            name: "metering accounts with 12 slots in zone 1, 2 or 3, and with 13 in each",
            expected: "refused by 1, refused by 1, refused by 1, open in 97",
        },
        &[[12, 13, 13], [13, 12, 13], [13, 13, 12], [13; 3]].map(|slots| opened_meter(Meter {
            slots,
            ..METER
        })),
    )
}

// Openings of billing accounts at each bound and one past it.
fn show_bills(rt: &HostRuntime) -> anyhow::Result<()> {
    show_openings(
        rt,
        Figure {
            name: "billing accounts of the months 46, 47, 1,199 and 1,200",
            expected: "refused by 2, open in 47, open in 1199, refused by 2",
        },
        &[46, 47, 1_199, 1_200].map(|month| opened_bill(Bill { month, ..BILL })),
    )?;
    show_openings(
        rt,
        Figure {
            name: "billing accounts of 0, 100 and 101 percent",
            expected: "open in 97, open in 97, refused by 23",
        },
        &[0, 100, 101].map(|percentage| opened_bill(Bill { percentage, ..BILL })),
    )?;
    show_openings(
        rt,
        Figure {
            name: "billing accounts with 12 and 13 slots",
            expected: "refused by 1, open in 97",
        },
        &[12, 13].map(|slots| opened_bill(Bill { slots, ..BILL })),
    )
}

// The calendar months of 2020 with which a period of so many months ends.
fn ends(heap: Global, months: u8) -> Result<String, AllocError> {
    let mut text = String::new(heap);
    for calendar_month in 1..13 {
        let opening = Meter {
            month: 47 + calendar_month,
            months,
            ..METER
        };
        if opened_meter(opening).is_ok_and(|standing| standing.ends) {
            let gap = if text.is_empty() { "" } else { " " };
            write!(text, "{gap}{calendar_month}")?;
        }
    }
    Ok(text)
}

fn show_periods(rt: &HostRuntime) -> anyhow::Result<()> {
    for (months, expected) in [
        (1, "1 2 3 4 5 6 7 8 9 10 11 12"),
        (2, "2 4 6 8 10 12"),
        (6, "6 12"),
    ] {
        let heap = rt.alloc();
        let got = ends(heap, months)?;
        let name = format!(in heap; "a period of {months} ends with the calendar months")?;
        Figure {
            name: name.as_str(),
            expected,
        }
        .show(rt, got.as_str())?;
    }
    Ok(())
}

pub(crate) fn show_openings_at_bounds(rt: &HostRuntime) -> anyhow::Result<()> {
    show_meters(rt)?;
    show_bills(rt)?;
    show_periods(rt)
}
