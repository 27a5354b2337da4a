// A whole month at once: a book opened, read to its end and finished.
ghost use Rattle.std.specs.Prelude.{◌≡◌, [], IfOk, OnOk};
ghost use Rattle.std.specs.Result.{result_err};
ghost use Rattle.hours.specs.Month.{HasRead};
ghost use Rattle.hours.specs.Reading.{hours_of};
ghost use Rattle.hours.specs.Source.{asked_for};
ghost use Rattle.hours.specs.Whole.{MonthSummed, hours_from, month_questions, month_refusal, questions_from, refused_from};

use crate::book::{Book, Reading, Tariff};
use crate::prices::PriceSource;
use crate::sums::MonthSums;
use faults::BookFault;

// Why a month has no sums, and how many readings had been read before that.
#[derive(Clone, Copy, PartialEq, Eq, Debug)]
pub struct MonthRefused {
    pub read: usize,
    pub fault: BookFault,
}

// Reads all hours of a list into a book that has read nothing, up to the first that is refused.
fn read_all<S: PriceSource>(
    book: &mut Book,
    readings: &[Reading],
    source: &mut S,
) -> Result<(), MonthRefused>
    requires { HasRead book.old.terms [] book.old.tally }
    ensures refusal { result_err result ≡ refused_from (hours_of book.old.terms) (S.PriceSource.gives (S.PriceSource.state source.old) book.old.terms.month.number) 0 readings.now }
    ensures terms { book.new.terms ≡ book.old.terms }
    ensures history { OnOk result (HasRead book.old.terms (hours_from (S.PriceSource.gives (S.PriceSource.state source.old) book.old.terms.month.number) 0 readings.now) book.new.tally) }
    ensures asked { S.PriceSource.state source.new ≡ asked_for S.PriceSource book.old.terms.month.number (questions_from (hours_of book.old.terms) (S.PriceSource.gives (S.PriceSource.state source.old) book.old.terms.month.number) 0 readings.now) (S.PriceSource.state source.old) }
{
    for (read, reading) in readings.iter().enumerate() {
        book.read(*reading, source)
            .map_err(|fault| MonthRefused { read, fault })?;
    }
    Ok(())
}

// The sums of a month from its tariff and its readings, one for each hour, with the prices of a source.
pub fn sum_month<S: PriceSource>(
    month: u16,
    tariff: Tariff,
    readings: &[Reading],
    source: &mut S,
) -> Result<MonthSums, MonthRefused>
    ensures refusal { result_err result ≡ month_refusal month tariff.marks tariff.sale (S.PriceSource.gives (S.PriceSource.state source.old) month) readings.now }
    ensures sums { IfOk result (λ s. MonthSummed month tariff.marks tariff.sale (S.PriceSource.gives (S.PriceSource.state source.old) month) readings.now s.month s.totals) }
    ensures asked { S.PriceSource.state source.new ≡ asked_for S.PriceSource month (month_questions month tariff.marks tariff.sale (S.PriceSource.gives (S.PriceSource.state source.old) month) readings.now) (S.PriceSource.state source.old) }
{
    let mut book = Book::open(month, tariff).map_err(|fault| MonthRefused { read: 0, fault })?;
    read_all(&mut book, readings, source)?;
    book.finish().map_err(|unfinished| MonthRefused {
        read: readings.len(),
        fault: unfinished.fault,
    })
}
