// The book of a month: the energy taken and given in each zone, hour by hour.
ghost use Rattle.std.specs.Prelude.{◌≤◌};
ghost use Rattle.calendar.specs.Hour.{month_hours};
ghost use Rattle.hours.specs.Bounds.{Bounded, Cheap};

use crate::marks::Marks;
use crate::sums::Totals;
use calendar::Month;
use faults::BookFault;
use std::marker::Model;

mod calls;

// A meter's reading of an hour, in Wh.
#[derive(Clone, Copy)]
pub struct Reading {
    pub import: u32,
    pub export: u32,
}

// What energy is sold by: the zone marks of a working day and of a Saturday or Sunday, and the sale price of each zone. They
// are numbers, as they come: a book refuses those that name no zone, and prices that are too high.
#[derive(Clone, Copy)]
pub struct Tariff {
    pub marks: [[u8; 24]; 2],
    pub sale: [u32; 3],
}

// What a book is opened with: the month, the zone marks and the sale prices.
#[derive(Clone, Copy)]
pub struct Terms {
    pub(crate) month: Month,
    pub(crate) marks: Marks,
    pub(crate) sale: [u32; 3],
    ghost dated: { 47 ≤ month.number },
    ghost cheap: { Cheap sale },
}

// What was read so far: the hours, and their totals.
#[derive(Clone, Copy)]
pub struct Tally {
    pub(crate) hours: u16,
    pub(crate) totals: Totals,
}

impl Model for Tally {
    ghost use Rattle.hours.specs.Bounds.{Bounded, Progress};

    ghost Value = { Progress };

    ghost view = { λ y. record { hours = y.hours; totals = y.totals } };

    ghost inverse = { λ p. record { hours = p.hours; totals = p.totals } };

    ghost invariant = { λ y. Bounded y.hours y.totals };
}

#[derive(Drop)]
pub struct Book {
    terms: Terms,
    tally: Tally,
    ghost begun: { tally.hours ≤ month_hours terms.month.number },
    ghost bounded: { Bounded tally.hours tally.totals },
}

// Why a book is not finished, and the book as it was.
#[derive(Drop)]
pub struct Unfinished {
    pub fault: BookFault,
    pub book: Book,
}
