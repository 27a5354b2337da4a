ghost use Rattle.std.specs.Prelude.{◌≡◌, ℕ, ◌≤◌, min, List, length, slice_index};
ghost use Rattle.portions.specs.declared.TheConstants.{MOST_OPEN};
ghost use Rattle.portions.specs.Sums.{sum};
ghost use Rattle.portions.specs.Listed.{listed};

use crate::amounts::Amounts;

// A draw rule: how much a draw takes from each of the amounts left, oldest first. Its laws are asked for as many amounts as a
// store has open portions.
pub trait Rule {
    // From the month, the amounts left and the amount wanted, one taking for each amount.
    ghost gives: { Self → ℕ → List ℕ → ℕ → List ℕ };

    // The takings in a month. Its three parameters are one question, asked here alone, so they have no struct of their own.
    fn give(&self, month: u16, left: &Amounts, wanted: u32) -> Amounts
        ensures { listed result ≡ gives self.now month (listed left.now) wanted };

    // One taking for each amount.
    ghost sized: { (s : Self) (m w : ℕ) (ls : List ℕ) → length ls ≤ MOST_OPEN → length (gives s m ls w) ≡ length ls };

    // No taking exceeds its amount.
    ghost bounded: { (s : Self) (m w : ℕ) (ls : List ℕ) → length ls ≤ MOST_OPEN → (i : ℕ) → slice_index (gives s m ls w) i ≤ slice_index ls i };

    // The takings add up to the smaller of the amount wanted and the total left.
    ghost full: { (s : Self) (m w : ℕ) (ls : List ℕ) → length ls ≤ MOST_OPEN → sum (gives s m ls w) ≡ min w (sum ls) };
}
