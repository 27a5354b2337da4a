ghost use Rattle.std.specs.Prelude.{◌≡◌, ℕ, ◌≤◌};
ghost use Rattle.std.proofs.Common.{rules};

use crate::stock::Stock;
use crate::{Kind, LARGEST_AMOUNT, Slot};
use faults::StoreFault;

// The terms of a kind of portion: how long it is open, what a slot keeps of them, and what is refunded at the end.
pub trait Terms: Copy {
    // How many months after its own a portion is open, 1 to 15.
    const LIFE: u16;

    // The same as a number of the contracts.
    ghost LIFE: { ℕ };

    // The terms that a slot's number means.
    ghost meant: { ℕ → Self };

    // The number that a slot keeps for the terms.
    ghost kept: { Self → ℕ };

    // How much of what is left is refunded.
    ghost refund: { Self → ℕ → ℕ };

    // The terms that a slot's number means.
    fn of(number: u32) -> Self
        ensures { result ≡ meant number };

    // The number that a slot keeps for the terms, which means them.
    fn number(self) -> u32
        ensures value { result ≡ kept self }
        ensures back { meant result ≡ self };

    // How much of what is left is refunded.
    fn refund(self, left: u32) -> u32
        ensures { result ≡ refund self left };

    // A life is from 1 to 15 months.
    ghost lasting: { 1 ≤ LIFE };

    ghost short: { LIFE ≤ 15 };

    // No more is refunded than is left.
    ghost within: { (t : Self) (left : ℕ) → refund t left ≤ left };
}

// A month's portion under some terms.
#[derive(Clone, Copy)]
pub struct Termed<T> {
    stock: Stock,
    terms: T,
}

impl<T: Terms> Kind for Termed<T> {
    type Terms = T;

    const LIFE: u16 = T::LIFE;

    ghost LIFE = { T.LIFE };

    ghost means = { λ p. record { month = p.stock.month; entered = p.stock.entered; left = p.stock.left; terms = p.terms } };

    ghost term = { λ s. T.meant s.terms };

    ghost kept = { T.kept };

    ghost refund = { λ p. T.refund p.terms p.left };

    ghost lasting = { T.lasting };

    ghost short = { T.short };

    ghost within = { λ p. T.within p.terms p.left };

    ghost held = { Prim.search rules };

    fn make(month: u16, amount: u32, terms: T) -> Result<Termed<T>, StoreFault> {
        if amount > LARGEST_AMOUNT {
            return Err(StoreFault::AmountTooLarge);
        }
        let stock = Stock {
            month,
            entered: amount,
            left: amount,
        };
        Ok(Termed { stock, terms })
    }

    fn of(slot: &Slot) -> Termed<T> {
        Termed {
            stock: Stock::of(slot),
            terms: T::of(slot.terms),
        }
    }

    fn row(&self) -> Slot {
        self.stock.row(self.terms.number())
    }

    fn month(&self) -> u16 {
        self.stock.month
    }

    fn entered(&self) -> u32 {
        self.stock.entered
    }

    fn left(&self) -> u32 {
        self.stock.left
    }

    fn terms(&self) -> T {
        self.terms
    }

    fn take(&mut self, n: u32) -> u32 {
        self.stock.take(n)
    }

    fn end(self) -> (u32, u32) {
        let refund = self.terms.refund(self.stock.left);
        (refund, self.stock.left - refund)
    }
}
