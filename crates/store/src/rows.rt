ghost use Rattle.std.specs.Prelude.{◌≤◌, length};
ghost use Rattle.portions.specs.declared.TheConstants.{MOST_OPEN};

use portions::Slot;

mod calls;
mod passes;

// The caller's slots, of which the first `filled` are in use: a slice and a length, since the memory is lent and nothing is
// kept in a heap.
#[derive(Drop)]
pub struct Rows<'a> {
    pub(crate) slots: &'a mut [Slot],
    pub(crate) filled: usize,
    ghost within: { filled ≤ length slots.now },
    ghost few: { filled ≤ MOST_OPEN },
}
