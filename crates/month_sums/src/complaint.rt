// What is wrong with the input, and in which of its lines.
ghost use Rattle.std.specs.Prelude.{◌≡◌};
ghost use Rattle.month_sums.specs.declared.complaint.Complaint.TheVariants.{Memory};

use faults::BookFault;
use std::alloc::{AllocError, AllocFailed};
use std::fmt;

// Why a line cannot be used.
#[derive(Clone, Copy, PartialEq, Eq, Debug)]
pub enum Reason {
    NoLine,
    TermCount,
    MonthText,
    Price,
    SalePrice,
    MarkCount,
    Mark,
    ReadingCount,
    Energy,
    LatePrice,
    Library(BookFault),
}

#[derive(Clone, Copy, PartialEq, Eq, Debug)]
pub enum Complaint {
    Line { line: usize, reason: Reason },
    Memory,
    Unreadable,
    Unwritable,
}

// Both by hand, since a derived From keeps the error in a field, and this case has none.
impl From<AllocError> for Complaint {
    ghost from_gives = { λ _ r. r ≡ Memory };

    fn from(_e: AllocError) -> Complaint {
        Complaint::Memory
    }
}

impl<T: Drop> From<AllocFailed<T>> for Complaint {
    ghost from_gives = { λ _ r. r ≡ Memory };

    fn from(_e: AllocFailed<T>) -> Complaint {
        Complaint::Memory
    }
}

// A refusal of the library in plain words.
fn words_of(fault: BookFault) -> &'static str {
    match fault {
        BookFault::MonthOutOfRange => "the month is not from 2019-12 to 2115-12",
        BookFault::MarkOutOfRange => "a zone mark is not 1, 2 or 3",
        BookFault::SalePriceTooHigh => "a sale price is over 1000000 gr per MWh",
        BookFault::ReadingTooLarge => "import or export is over 100000 Wh",
        BookFault::BookComplete => "the month has no more hours",
        BookFault::NoPrice => "there is no price for the hour",
        BookFault::HoursMissing => "hours of the month are missing",
        BookFault::PriceOutOfRange => "a price is not from -1000000 to 1000000 gr per MWh",
    }
}

impl fmt::Display for Reason {
    fn fmt<W: fmt::Write>(&self, f: &mut fmt::Formatter<W>) -> fmt::Result {
        match self {
            Reason::NoLine => f.write_str("the line is missing"),
            Reason::TermCount => {
                f.write_str("expected the month, the month price and three sale prices")
            }
            Reason::MonthText => f.write_str("the month is not written as YYYY-MM"),
            Reason::Price => f.write_str(
                "a price must be a whole number of gr per MWh from -1000000 to 1000000",
            ),
            Reason::SalePrice => {
                f.write_str("a sale price must be a whole number of gr per MWh from 0 to 1000000")
            }
            Reason::MarkCount => f.write_str("expected 24 zone marks"),
            Reason::Mark => f.write_str("a zone mark must be 1, 2 or 3"),
            Reason::ReadingCount => {
                f.write_str("expected import and export in Wh, and at most a price")
            }
            Reason::Energy => f.write_str(
                "import and export must be whole numbers of Wh from 0 to 100000",
            ),
            Reason::LatePrice => f.write_str("a price after an hour that has none"),
            Reason::Library(fault) => {
                let words = words_of(*fault);
                let number = fault.number();
                write!(f, "{words} (refusal {number})")
            }
        }
    }
}

impl fmt::Display for Complaint {
    fn fmt<W: fmt::Write>(&self, f: &mut fmt::Formatter<W>) -> fmt::Result {
        match self {
            Complaint::Line { line, reason } => write!(f, "line {line}: {reason}"),
            Complaint::Memory => f.write_str("out of memory"),
            Complaint::Unreadable => f.write_str("standard input cannot be read as text"),
            Complaint::Unwritable => f.write_str("standard output cannot be written"),
        }
    }
}
