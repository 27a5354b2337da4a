//! Portions of energy or money: their kinds, the slots they are kept in, and the rules by which they are drawn on.
#![tactic(auto)]

ghost use Rattle.std.specs.Prelude.{◌≡◌, ℕ, ◌-◌, ◌≤◌, min};
ghost use Rattle.portions.specs.declared.Slot.{Slot};
ghost use Rattle.portions.specs.Portions.{Portion, less};
ghost use Rattle.portions.specs.Slots.{reads, row_of};
ghost use Rattle.portions.specs.Made.{answered, made};

use faults::StoreFault;

pub mod amounts;
pub mod dated;
pub mod deposit;
pub mod energy;
pub mod oldest_first;
pub mod proportional;
pub mod rules;
mod stock;
pub mod terms;

// The largest amount of a portion.
pub const LARGEST_AMOUNT: u32 = 100_000_000;

// As many portions as a store has open at most, since a life is at most 15 months.
pub const MOST_OPEN: usize = 16;

// The first month that a store or an account is opened for.
pub const FIRST_MONTH: u16 = 47;

// The last month that a store or an account reaches.
pub const LAST_MONTH: u16 = 1_199;

// A row of plain numbers that a portion is kept in.
#[derive(Clone, Copy, Debug, Default, PartialEq, Eq)]
pub struct Slot {
    pub month: u16,
    pub entered: u32,
    pub left: u32,
    pub terms: u32,
}

// A kind of portion. A value means a portion: its month, the amounts entered and left, and the terms of the kind.
pub trait Kind: Copy {
    // What a portion carries besides its month and amounts.
    type Terms: Copy;

    // How many months after its own a portion is open, 1 to 15.
    const LIFE: u16;

    // The same as a number of the contracts.
    ghost LIFE: { ℕ };

    // The portion that a value means.
    ghost means: { Self → Portion Self.Terms };

    // The terms of the portion in a slot.
    ghost term: { Slot → Self.Terms };

    // The number that a slot keeps for the terms.
    ghost kept: { Self.Terms → ℕ };

    // How much of what is left at a portion's end is refunded; the rest is lost.
    ghost refund: { Portion Self.Terms → ℕ };

    // A new portion, with all of its amount left.
    fn make(month: u16, amount: u32, terms: Self::Terms) -> Result<Self, StoreFault>
        ensures { answered means result ≡ made month amount terms };

    // The portion that a slot holds.
    fn of(slot: &Slot) -> Self
        ensures { means result ≡ reads term slot.now };

    // The slot that the portion is kept as: it holds the portion, and its numbers are the portion's own.
    fn row(&self) -> Slot
        ensures holds { reads term result ≡ means self.now }
        ensures numbers { result ≡ row_of kept (means self.now) };

    // The month.
    fn month(&self) -> u16
        ensures { result ≡ (means self.now).month };

    // The amount entered.
    fn entered(&self) -> u32
        ensures { result ≡ (means self.now).entered };

    // The amount left.
    fn left(&self) -> u32
        ensures { result ≡ (means self.now).left };

    // The terms.
    fn terms(&self) -> Self::Terms
        ensures { result ≡ (means self.now).terms };

    // Takes the smaller of n and the amount left, and returns it.
    fn take(&mut self, n: u32) -> u32
        ensures answer { result ≡ min n (means self.old).left }
        ensures state { means self.new ≡ less (means self.old) result };

    // Ends the portion: what is refunded and what is lost.
    fn end(self) -> (u32, u32)
        ensures refunded { result.0 ≡ refund (means self) }
        ensures lost { result.1 ≡ (means self).left - refund (means self) };

    // A life is from 1 to 15 months.
    ghost lasting: { 1 ≤ LIFE };

    ghost short: { LIFE ≤ 15 };

    // No more is refunded than is left.
    ghost within: { (p : Portion Self.Terms) → refund p ≤ p.left };

    // No portion has more left than entered, or more than 100,000,000 entered.
    ghost held: { (p : Self) → ((means p).left ≤ (means p).entered) × ((means p).entered ≤ 100000000) };
}
