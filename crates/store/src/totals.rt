ghost use Rattle.std.specs.Prelude.{◌≡◌, ◌+◌, ◌^◌, ◌<◌};
ghost use Rattle.store.specs.Counting.{more_entered, more_used, more_ended};

// Running totals of what was entered, used, refunded and lost.
#[derive(Clone, Copy, Default)]
pub struct Totals {
    pub entered: u64,
    pub used: u64,
    pub refunded: u64,
    pub lost: u64,
}

impl Totals {
    // Counts an amount as entered.
    pub(crate) fn add_entered(&mut self, amount: u32)
        requires { self.old.entered + amount < 2 ^ 64 }
        ensures { self.new ≡ more_entered self.old amount }
    {
        self.entered += u64::from(amount);
    }

    // Counts the sum of a draw as used.
    pub(crate) fn add_used(&mut self, sum: u64)
        requires { self.old.used + sum < 2 ^ 64 }
        ensures { self.new ≡ more_used self.old sum }
    {
        self.used += sum;
    }

    // Counts what a turn ended as refunded and lost.
    pub(crate) fn add_ended(&mut self, refunded: u64, lost: u64)
        requires first { self.old.refunded + refunded < 2 ^ 64 }
        requires second { self.old.lost + lost < 2 ^ 64 }
        ensures { self.new ≡ more_ended self.old refunded lost }
    {
        self.refunded += refunded;
        self.lost += lost;
    }
}
