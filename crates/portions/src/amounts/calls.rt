ghost use Rattle.std.specs.Prelude.{◌≡◌, [], ◌∷◌, ◌++◌, length, if◌then◌else◌, nat_lt, slice_index};
ghost use Rattle.portions.specs.Sums.{sum};
ghost use Rattle.portions.specs.Listed.{listed};

use crate::MOST_OPEN;
use crate::amounts::Amounts;

impl Default for Amounts {
    ghost is_default = { λ a. listed a ≡ [] };

    fn default() -> Amounts {
        Amounts::new()
    }
}

impl Amounts {
    // No amounts yet.
    pub fn new() -> Amounts
        ensures { listed result ≡ [] }
    {
        Amounts {
            rows: [0; MOST_OPEN],
            len: 0,
        }
    }

    // How many there are.
    pub fn len(&self) -> usize
        ensures { result ≡ length (listed self.now) }
    {
        self.len
    }

    // The amounts.
    pub fn as_slice(&self) -> &[u32]
        ensures { result.now ≡ listed self.now }
    {
        &self.rows[..self.len]
    }

    // The amount at a place, and 0 past the last.
    pub fn at(&self, i: usize) -> u32
        ensures { result ≡ slice_index (listed self.now) i }
    {
        self.as_slice().get(i).copied().unwrap_or(0)
    }

    // One more at the end, where there is room.
    pub fn push(&mut self, amount: u32)
        ensures { listed self.new ≡ (if nat_lt (length (listed self.old)) MOST_OPEN then listed self.old ++ (amount ∷ []) else listed self.old) }
    {
        if self.len < MOST_OPEN {
            let at = self.len;
            self.rows[at] = amount;
            self.len = at + 1;
        }
    }

    // Their sum.
    pub fn total(&self) -> u64
        ensures { result ≡ sum (listed self.now) }
    {
        self.as_slice().iter().map(|&x| u64::from(x)).sum()
    }
}
