// The numbers that the calls from C return; a number of a refusal in the report is none of these.

// All was done.
pub(crate) const DONE: u32 = 0;

// The bytes have no room where they should go, and nothing differs.
pub(crate) const NO_ROOM: u32 = 41;

// Memory is wanting, and nothing differs.
pub(crate) const NO_MEMORY: u32 = 42;

// There are more than 745 hour prices, and nothing differs.
pub(crate) const TOO_MANY_PRICES: u32 = 43;
