// How much of what is stored an account gets back, and what that makes of the energy that it draws.
ghost use Rattle.std.specs.Prelude.{◌≡◌, ◌-◌, ◌≤◌};
ghost use Rattle.settlement.specs.Metering.{coefficient_for, covered, wanted};
ghost use Rattle.accounts.specs.Coefficients.{tenths};

// So many tenths.
#[derive(Clone, Copy)]
pub(super) enum Coefficient {
    Seven,
    Eight,
}

impl Coefficient {
    // That of an installation of so many watts.
    pub(super) fn of_power(power: u32) -> Coefficient
        ensures { tenths result ≡ coefficient_for power }
    {
        if power <= 10_000 {
            Coefficient::Eight
        } else {
            Coefficient::Seven
        }
    }

    // How many tenths it is.
    fn tenths(self) -> u64
        ensures value { result ≡ tenths self }
        ensures low { 7 ≤ result }
        ensures high { result ≤ 8 }
    {
        match self {
            Coefficient::Seven => 7,
            Coefficient::Eight => 8,
        }
    }

    // Wanted of a store to cover a rest: 10 × rest / c, rounded up.
    pub(super) fn wanted(self, rest: u32) -> u32
        requires { rest ≤ 447000000 }
        ensures value { result ≡ wanted (tenths self) rest }
        ensures small { result ≤ 1000000000 }
    {
        let wanted = (10 * u64::from(rest)).div_ceil(self.tenths());
        wanted as u32
    }

    // What is not covered of a rest for which so much was used: used × c / 10 is covered, rounded down.
    pub(super) fn uncovered(self, rest: u32, used: u32) -> u32
        ensures { result ≡ rest - covered (tenths self) rest used }
    {
        let covered = u64::from(used) * self.tenths() / 10;
        u64::from(rest).saturating_sub(covered) as u32
    }
}
