// Answers, and the lines that are printed for them.
use hours::Zone;
use settlement::{Line, Payment, Settlement};

// What an accepted record is answered; the lines of a settlement stand in the caller's list.
#[derive(Clone, Copy)]
pub enum Answer {
    Nothing,
    Settled(Settlement),
    Paid(Payment),
    Turned { refunded: u64, lost: u64 },
}

// One printed line. What is due of a bill has no zone; any number may stand for a refusal.
#[derive(Clone, Copy)]
pub enum Printed {
    Line(Line),
    Due { zone: Option<Zone>, due: u32 },
    Turned { refunded: u64, lost: u64 },
    Refused { place: usize, number: u8 },
}
