// The input's line that a refusal of the library belongs to.
ghost use Rattle.std.specs.Prelude.{◌≡◌, [], slice_index_or};
ghost use Rattle.hours.specs.Marks.{each_zone};
ghost use Rattle.month_sums.specs.Lines.{line_of_hour, line_of_refusal, refused_in};

use crate::complaint::{Complaint, Reason};
use faults::BookFault;
use hours::{MonthRefused, all_zones};

// The line of the hour at a place of the month, places counted from 0.
pub(crate) fn hour_line(place: usize) -> usize
    ensures { result ≡ line_of_hour place }
{
    place.saturating_add(4)
}

// The line of a refusal, where the marks and the readings stand as in the input.
fn refusal_line(refused: MonthRefused, marks: &[[u8; 24]; 2]) -> usize
    ensures { result ≡ line_of_refusal refused.fault (each_zone (slice_index_or marks.now 0 [])) refused.read }
{
    match refused.fault {
        BookFault::MonthOutOfRange | BookFault::SalePriceTooHigh => 1,
        BookFault::MarkOutOfRange => { if all_zones(&marks[0]) { 3 } else { 2 } }
        BookFault::ReadingTooLarge
        | BookFault::BookComplete
        | BookFault::NoPrice
        | BookFault::HoursMissing
        | BookFault::PriceOutOfRange => hour_line(refused.read),
    }
}

// The complaint that the library refused what a line has.
pub(crate) fn refused_in(line: usize, fault: BookFault) -> Complaint
    ensures { result ≡ refused_in line fault }
{
    Complaint::Line {
        line,
        reason: Reason::Library(fault),
    }
}

pub(crate) fn complaint_of(refused: MonthRefused, marks: &[[u8; 24]; 2]) -> Complaint
    ensures { result ≡ refused_in (line_of_refusal refused.fault (each_zone (slice_index_or marks.now 0 [])) refused.read) refused.fault }
{
    refused_in(refusal_line(refused, marks), refused.fault)
}
