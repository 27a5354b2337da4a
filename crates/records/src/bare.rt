// The records with no payload.

// Finish the book and enter it, settle, or turn to the next month.
#[derive(Clone, Copy)]
pub enum Bare {
    Finish,
    Settle,
    Turn,
}
