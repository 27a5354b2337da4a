ghost use Rattle.std.specs.Prelude.{◌≤◌};
ghost use Rattle.portions.specs.declared.TheConstants.{MOST_OPEN};

use crate::MOST_OPEN;

// The calls are a module of their own: their clauses cite a definition over this struct, which the struct's own file may not import.
mod calls;

// A list of amounts, one for each open portion. An array and a length, since it is Copy and lies in no heap, as an ArrayVec or a Vec does not.
#[derive(Clone, Copy)]
pub struct Amounts {
    rows: [u32; MOST_OPEN],
    len: usize,
    ghost few: { len ≤ MOST_OPEN },
}
