// The deposit, its cap and the bill of a month's sums, in whole grosz, and what the settlement of a bill answers.
ghost use Rattle.std.specs.Prelude.{◌≡◌, ◌-◌, ◌≤◌};
ghost use Rattle.settlement.specs.Billing.{month_deposit, month_cap, month_bill};

use hours::MonthSums;
use settlement::Payment;

// The deposit: the value given by the factor 1.23, rounded.
pub(crate) fn deposit_of(sums: &MonthSums) -> u32
    ensures value { result ≡ month_deposit sums.now }
    ensures small { result ≤ 100000000 }
{
    ((sums.totals().value * 123 + 50_000_000) / 100_000_000) as u32
}

// The cap of its refund, from the value itself, rounded down.
pub(crate) fn cap_of(sums: &MonthSums, percentage: u8) -> u32
    requires { percentage ≤ 100 }
    ensures { result ≡ month_cap percentage sums.now }
{
    (sums.totals().value * u64::from(percentage) / 100_000_000) as u32
}

// The bill: the charge, rounded.
pub(crate) fn bill_of(sums: &MonthSums) -> u32
    ensures value { result ≡ month_bill sums.now }
    ensures small { result ≤ 74500000 }
{
    ((sums.totals().charge + 500_000) / 1_000_000) as u32
}

// What a settlement answers that used so much for a bill: the rest is due.
pub(crate) fn paid(bill: u32, used: u32, lines: usize) -> Payment
    requires { used ≤ bill }
    ensures { result ≡ record { used = used; due = bill - used; lines = lines } }
{
    Payment {
        used,
        due: bill - used,
        lines,
    }
}
