// The course of an account's month, and its period.
ghost use Rattle.std.specs.Prelude.{◌≡◌};
ghost use Rattle.settlement.specs.Table.{ends, known_period};

use faults::AccountFault;

// Where in its month an account is.
#[derive(Clone, Copy, PartialEq, Eq, Debug)]
pub enum MonthState {
    Waiting,
    Entered,
    Settled,
}

// The calls that the month's state bears on.
#[derive(Clone, Copy, PartialEq, Eq, Debug)]
pub enum Call {
    Enter,
    Settle,
    Turn,
}

// How often a metering account is settled.
#[derive(Clone, Copy, PartialEq, Eq, Debug)]
pub enum Period {
    Monthly,
    TwoMonthly,
    HalfYearly,
}

// The period of so many months.
impl TryFrom<u8> for Period {
    type Error = AccountFault;

    ghost try_from_gives = { λ months r. r ≡ known_period months };

    fn try_from(months: u8) -> Result<Period, AccountFault> {
        match months {
            1 => Ok(Period::Monthly),
            2 => Ok(Period::TwoMonthly),
            6 => Ok(Period::HalfYearly),
            _ => Err(AccountFault::PeriodUnknown),
        }
    }
}

impl Period {
    // Whether the period ends with the month: every month, an even calendar month, June or December.
    pub fn ends(self, month: u16) -> bool
        ensures { result ≡ ends self month }
    {
        match self {
            Period::Monthly => true,
            Period::TwoMonthly => month % 2 == 1,
            Period::HalfYearly => month % 6 == 5,
        }
    }
}
