// The input's lines: the terms of the month, two rows of zone marks, and the hours. Words stand between blanks.
ghost use Rattle.std.specs.Prelude.{◌≡◌, ◌≤◌, [], ◌∷◌, ◌++◌, Some, None, Ok, Err, IfErr, vec_len, OnOk};
ghost use Rattle.month_sums.specs.Lines.{AddRefused};

use crate::complaint::{Complaint, Reason};
use crate::month::parse_month;
use crate::refusal::hour_line;
use crate::word::parse_word;
use hours::Reading;
use std::alloc::Global;
use std::str::Lines;

// What line 1 has: the month by its number, its price and the sale prices of the zones 1 to 3, in gr per MWh.
#[derive(Clone, Copy)]
pub struct Terms {
    pub month: u16,
    pub price: i32,
    pub sale: [u32; 3],
}

// A line of an hour: the meter's reading, and the hour's own price where it has one.
#[derive(Clone, Copy)]
struct HourLine {
    reading: Reading,
    price: Option<i32>,
}

// All hours in order, and the prices of the first of them: two lists, since there may be fewer prices, and a source takes
// its prices as a list.
#[derive(Drop)]
pub struct Hours {
    pub readings: Vec<Reading>,
    pub prices: Vec<i32>,
    ghost first: { vec_len prices ≤ vec_len readings },
}

#[derive(Drop)]
pub struct Input {
    pub terms: Terms,
    pub marks: [[u8; 24]; 2],
    pub hours: Hours,
}

// What a line was read into, or the complaint about that line.
fn in_line<T>(line: usize, parsed: Result<T, Reason>) -> Result<T, Complaint>
    ensures { elim parsed [ Ok x ↦ result ≡ Ok x | Err e ↦ result ≡ Err (Complaint.Line line e) ] }
{
    parsed.map_err(|reason| Complaint::Line { line, reason })
}

fn parse_terms(line: Option<&str>) -> Result<Terms, Reason> {
    let mut words = line.ok_or(Reason::NoLine)?.split_whitespace();
    let terms = Terms {
        month: parse_month(words.next().ok_or(Reason::TermCount)?)?,
        price: parse_word::<i32>(words.next().ok_or(Reason::TermCount)?, Reason::Price)?,
        sale: [
            parse_word::<u32>(words.next().ok_or(Reason::TermCount)?, Reason::SalePrice)?,
            parse_word::<u32>(words.next().ok_or(Reason::TermCount)?, Reason::SalePrice)?,
            parse_word::<u32>(words.next().ok_or(Reason::TermCount)?, Reason::SalePrice)?,
        ],
    };
    if words.next().is_some() {
        return Err(Reason::TermCount);
    }
    Ok(terms)
}

fn parse_marks(line: Option<&str>) -> Result<[u8; 24], Reason> {
    let mut marks = [0; 24];
    let mut words = line.ok_or(Reason::NoLine)?.split_whitespace();
    for mark in marks.iter_mut() {
        *mark = parse_word::<u8>(words.next().ok_or(Reason::MarkCount)?, Reason::Mark)?;
    }
    if words.next().is_some() {
        return Err(Reason::MarkCount);
    }
    Ok(marks)
}

fn parse_hour(line: &str) -> Result<HourLine, Reason> {
    let mut words = line.split_whitespace();
    let reading = Reading {
        import: parse_word::<u32>(words.next().ok_or(Reason::ReadingCount)?, Reason::Energy)?,
        export: parse_word::<u32>(words.next().ok_or(Reason::ReadingCount)?, Reason::Energy)?,
    };
    let price = words
        .next()
        .map(|word| parse_word::<i32>(word, Reason::Price))
        .transpose()?;
    if words.next().is_some() {
        return Err(Reason::ReadingCount);
    }
    Ok(HourLine { reading, price })
}

impl Hours {
    fn new(heap: Global) -> Hours
        ensures { (result.readings.items ≡ []) × (result.prices.items ≡ []) }
    {
        Hours {
            readings: Vec::new(heap),
            prices: Vec::new(heap),
        }
    }

    // Adds the hour of a line. Prices are given from the first hour on without a gap: one after a gap is a complaint, and so is
    // want of memory, and there is no other.
    fn add(&mut self, line: usize, hour: HourLine) -> Result<(), Complaint>
        ensures read { OnOk result (self.new.readings.items ≡ self.old.readings.items ++ hour.reading ∷ []) }
        ensures priced { OnOk result (elim hour.price [ Some z ↦ self.new.prices.items ≡ self.old.prices.items ++ z ∷ [] | None ↦ self.new.prices.items ≡ self.old.prices.items ]) }
        ensures late { OnOk result (elim hour.price [ Some z ↦ vec_len self.old.prices ≡ vec_len self.old.readings | None ↦ Unit {0} ]) }
        ensures refused { IfErr result (λ e. AddRefused line hour.price self.old.readings.items self.old.prices.items e) }
    {
        if hour.price.is_some() && self.prices.len() < self.readings.len() {
            return Err(Complaint::Line {
                line,
                reason: Reason::LatePrice,
            });
        }
        self.readings.push(hour.reading)?;
        if let Some(price) = hour.price {
            self.prices.push(price)?;
        }
        Ok(())
    }
}

fn parse_hours(heap: Global, lines: Lines<'_>) -> Result<Hours, Complaint> {
    let mut hours = Hours::new(heap);
    for (place, text) in lines.enumerate() {
        let line = hour_line(place);
        hours.add(line, in_line(line, parse_hour(text))?)?;
    }
    Ok(hours)
}

// The input that a text has. Empty lines at its end are left out.
pub(crate) fn parse(heap: Global, text: &str) -> Result<Input, Complaint> {
    let mut lines = text.trim_end_matches('\n').lines();
    let terms = in_line(1, parse_terms(lines.next()))?;
    let working = in_line(2, parse_marks(lines.next()))?;
    let weekend = in_line(3, parse_marks(lines.next()))?;
    let hours = parse_hours(heap, lines)?;
    Ok(Input {
        terms,
        marks: [working, weekend],
        hours,
    })
}
