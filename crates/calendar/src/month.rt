// A month, with what is needed to find its hours.
ghost use Rattle.std.specs.Prelude.{◌≡◌, ◌+◌, ◌*◌, ◌%◌, ◌<◌, ◌≤◌, ◌==◌, T, if◌then◌else◌};
ghost use Rattle.calendar.specs.Calendar.{is_last_sunday, days_of_month, weekday};
ghost use Rattle.calendar.specs.Hour.{hours_at_change, month_hours};

pub(crate) mod days;

// One of the 1,200 months, by its number. Its hours, the weekday of its first day, its last Sunday, that day's hours and the
// first place there that a change of the clocks moves are found once, when it is made.
#[derive(Clone, Copy)]
pub struct Month {
    number: u16,
    hours: u16,
    first: u8,
    sunday: u8,
    change: u8,
    turn: u16,
    ghost dated: { number < 1200 },
    ghost long: { hours ≡ month_hours number },
    ghost season: { hours + 24 ≡ 24 * days_of_month number + hours_at_change (number % 12) },
    ghost bounds: { (671 ≤ hours) × (hours ≤ 745) },
    ghost begins: { first ≡ weekday number 0 },
    ghost last: { T (is_last_sunday number sunday) },
    ghost inside: { sunday < days_of_month number },
    ghost changes: { change ≡ hours_at_change (number % 12) },
    ghost turns: { turn ≡ 24 * sunday + (if change == 25 then 3 else 2) },
}
