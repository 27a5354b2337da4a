// The months by their dates, and the hours of a month in their order.
ghost use Rattle.std.specs.Prelude.{◌≡◌, ℕ, ◌+◌, ◌-◌, ◌*◌, ◌/◌, ◌%◌, ◌<◌, ◌≤◌, Some, None, ◌≢◌, nat_le};
ghost use Rattle.calendar.specs.Calendar.{days_of_month, calendar_month_of, weekday, year_of};
ghost use Rattle.calendar.specs.DaysOff.{DaysOff};
ghost use Rattle.calendar.specs.Even.{place_if_even};
ghost use Rattle.calendar.specs.Hour.{OneHour, hours_at_change, hour_of, month_hours};

use crate::month::Month;
use crate::table::MonthNumber;

// An hour of a month: its day from 0, what the clock shows, and whether the day is a Saturday or a Sunday.
#[derive(Clone, Copy, PartialEq, Eq, Debug)]
pub struct Hour {
    pub day: u8,
    pub clock: u8,
    pub weekend: bool,
}

// The days of nine weeks from a Monday on, a bit for each: it is set for Saturdays and Sundays.
const DAYS_OFF: u64 = 0x60c1_8306_0c18_3060;

// The days off of nine weeks.
fn days_off() -> u64
    ensures { DaysOff result 63 }
{
    DAYS_OFF
}

impl Month {
    // The month of a number, with all that it keeps.
    #[tactic(auto, using(crate::proofs::Hours::total, crate::proofs::Hours::total_bounds))]
    fn of_number(number: MonthNumber) -> Month
        ensures { result.number ≡ number.value }
    {
        let change = number.change_hours();
        let hours = 24 * u16::from(number.days()) + u16::from(change) - 24;
        let sunday = number.last_sunday();
        let second = if change == 25 { 3 } else { 2 };
        Month {
            number: number.value,
            hours,
            first: number.first_weekday(),
            sunday,
            change,
            turn: 24 * u16::from(sunday) + second,
        }
    }

    // The month of a number, or none past December 2115.
    pub fn new(number: u16) -> Option<Month>
        ensures { elim result [ Some m ↦ (m.number ≡ number) × (number < 1200) | None ↦ 1200 ≤ number ] }
    {
        MonthNumber::new(number).map(Month::of_number)
    }

    // The number of the month, from 0 for January 2016 to 1,199 for December 2115.
    pub fn number(&self) -> u16
        ensures value { result ≡ self.now.number }
        ensures bound { result < 1200 }
    {
        self.number
    }

    // The month of a year from 2016 to 2115, January 1 and December 12, or none.
    pub fn of_year(year: u16, month: u8) -> Option<Month>
        ensures { elim result [ Some m ↦ (year_of m.number ≡ year) × (calendar_month_of m.number ≡ month) | None ↦ ((n : ℕ) → n < 1200 → year_of n ≡ year → calendar_month_of n ≢ month) ] }
    {
        if year < 2016 || year > 2115 || month < 1 || month > 12 {
            return None;
        }
        Month::new(12 * (year - 2016) + u16::from(month) - 1)
    }

    // The hours of the month: 24 a day, but one less in March and one more in October.
    pub fn hours(&self) -> u16
        ensures value { result ≡ month_hours self.now.number }
        ensures season { result + 24 ≡ 24 * days_of_month self.now.number + hours_at_change (self.now.number % 12) }
        ensures bounds { (671 ≤ result) × (result ≤ 745) }
    {
        self.hours
    }

    // Day `day`, counted from 0, is a Saturday or a Sunday; past the month's end, as if it went on.
    pub fn is_weekend(&self, day: u8) -> bool
        ensures { result ≡ nat_le 5 (weekday self.now.number day) }
    {
        (u16::from(self.first) + u16::from(day)) % 7 >= 5
    }

    // A day of the month is a Saturday or a Sunday: `is_weekend` without a division, for the hours that are looked up.
    fn is_day_off(&self, day: u8) -> bool
        requires { day < 31 }
        ensures { result ≡ nat_le 5 (weekday self.now.number day) }
    {
        days_off() >> self.first >> day & 1 == 1
    }

    // A place of the month as if every day had 24 hours.
    fn even_place(&self, place: u16) -> u16
        requires { place < month_hours self.now.number }
        ensures value { result ≡ place_if_even self.now.sunday self.now.change place }
        ensures bound { result < 744 }
    {
        if place < self.turn {
            place
        } else {
            place + 24 - u16::from(self.change)
        }
    }

    // The hour at a place of the month, places counted from 0; none past its end.
    pub fn hour_at(&self, place: u16) -> Option<Hour>
        ensures value { result ≡ hour_of self.now.number place }
        ensures one { elim result [ Some h ↦ OneHour self.now.number place h | None ↦ month_hours self.now.number ≤ place ] }
        ensures clock { elim result [ Some h ↦ h.clock < 24 | None ↦ Unit {0} ] }
    {
        if place >= self.hours {
            return None;
        }
        let even = self.even_place(place);
        let day = (even / 24) as u8;
        Some(Hour {
            day,
            clock: (even % 24) as u8,
            weekend: self.is_day_off(day),
        })
    }
}
