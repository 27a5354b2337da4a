// Months by name, as 2024-03, and by number, January 2016 being 0.
ghost use Rattle.std.specs.Prelude.{◌≡◌, ℕ, ◌<◌, MatchResult, Some, None, ◌≢◌};
ghost use Rattle.calendar.specs.Calendar.{calendar_month_of, year_of};
ghost use Rattle.month_sums.specs.Named.{MonthNamed};

use crate::complaint::Reason;
use crate::word::parse_word;
use calendar::Month;
use faults::BookFault;
use std::fmt;

// A month by its number.
#[derive(Clone, Copy)]
pub struct MonthName {
    pub number: u16,
    ghost dated: { number < 1200 },
}

impl MonthName {
    fn year(&self) -> u16
        ensures { result ≡ year_of self.now.number }
    {
        2016 + self.number / 12
    }

    // January 1 and December 12.
    fn month_of_year(&self) -> u16
        ensures { result ≡ calendar_month_of self.now.number }
    {
        self.number % 12 + 1
    }
}

impl fmt::Display for MonthName {
    fn fmt<W: fmt::Write>(&self, f: &mut fmt::Formatter<W>) -> fmt::Result {
        let year = self.year();
        let month = self.month_of_year();
        write!(f, "{year}-{month:02}")
    }
}

// The number of the month of a year, or none outside the calendar.
fn month_number(year: u16, month: u8) -> Option<u16>
    ensures { elim result [ Some n ↦ (n < 1200) × (year_of n ≡ year) × (calendar_month_of n ≡ month) | None ↦ ((n : ℕ) → n < 1200 → year_of n ≡ year → calendar_month_of n ≢ month) ] }
{
    Month::of_year(year, month).map(|found| found.number())
}

// The number of the month that a text names.
pub(crate) fn parse_month(text: &str) -> Result<u16, Reason>
    ensures { MatchResult result (λ n. (n < 1200) × MonthNamed text.now n) (λ e. (n : ℕ) → n < 1200 → MonthNamed text.now n → ⊥) }
{
    let (year, month) = text.split_once('-').ok_or(Reason::MonthText)?;
    // A number may begin with a plus sign, and a year or a month may not.
    if year.len() != 4 || month.len() != 2 || text.contains('+') {
        return Err(Reason::MonthText);
    }
    let year = parse_word::<u16>(year, Reason::MonthText)?;
    let month = parse_word::<u8>(month, Reason::MonthText)?;
    month_number(year, month).ok_or(Reason::Library(BookFault::MonthOutOfRange))
}
