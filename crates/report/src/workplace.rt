// The desk that a run works at.
ghost use Rattle.std.specs.Prelude.{◌≡◌, ◌≤◌, ◌++◌, ◌⊎◌, ◌≢◌, [], drop, length, string_bytes, OnErr, OnOk};
ghost use Rattle.desk.specs.State.{State, outset};
ghost use Rattle.desk.specs.Stretch.{ReadOn, ReadingAccepted};
ghost use Rattle.desk.specs.Means.{Means, memory_of};
ghost use Rattle.report.specs.Runs.{answer_text, comes, program_memory, read_of};
ghost use Rattle.report.specs.Laws.{Handled, ReadsPrices};

use accounts::{Billing, Metering};
use answers::{Answer, print_answer, print_refusal};
use desk::{Desk, StepFault};
use portions::Slot;
use records::{Frame, Placed, decode};
use settlement::Line;
use std::alloc::{AllocError, Global};

// The slots of a store: for a month's portion and those of the twelve months before it.
const SLOTS: usize = 13;

// The slots of the stores of a metering account, by zone, and of a billing account.
#[derive(Clone, Copy)]
pub(crate) struct Slots {
    first: [Slot; SLOTS],
    second: [Slot; SLOTS],
    third: [Slot; SLOTS],
    deposits: [Slot; SLOTS],
}

impl Default for Slots {
    fn default() -> Slots {
        let empty = [Slot::default(); SLOTS];
        Slots {
            first: empty,
            second: empty,
            third: empty,
            deposits: empty,
        }
    }
}

// The room for the lines of a settlement: so many for each of three stores.
const LINES: usize = 3 * SLOTS;

// A desk with slots for its stores, and room for lines.
#[derive(Drop)]
pub(crate) struct Workplace<'a> {
    desk: Desk<'a>,
    lines: [Line; LINES],
    ghost memory: { memory_of desk 39 ≡ program_memory },
}

impl<'a> Workplace<'a> {
    // A desk over the slots of the three stores of a metering account and of a billing account.
    pub(crate) fn over(slots: &'a mut Slots) -> Workplace<'a>
        ensures { Means result.desk outset }
    {
        let Slots {
            first,
            second,
            third,
            deposits,
        } = slots;
        let metering = Metering::over(first, second, third);
        let billing = Billing::over(deposits);
        Workplace {
            desk: Desk::new(metering, billing),
            lines: [Line::default(); LINES],
        }
    }

    // Takes a record: its answer, or why it has none.
    fn step(&mut self, heap: Global, frame: Frame<'_>) -> Result<Answer, StepFault>
        ensures { (s : State) → Means self.old.desk s → Handled s (read_of frame.entry) result self.new.lines (Means self.new.desk) }
    {
        let said = decode(frame.kind, frame.payload)?;
        self.desk.take(heap, &said, &mut self.lines)
    }

    // Takes a record, and prints its answer or its refusal.
    pub(crate) fn serve(
        &mut self,
        heap: Global,
        out: &mut String,
        placed: Placed<'_>,
    ) -> Result<(), AllocError>
        ensures text { (s : State) → Means self.old.desk s → OnOk result (string_bytes out.new ≡ string_bytes out.old ++ answer_text placed.entry.place (comes s placed.entry).answer) }
        ensures stands { (s : State) → Means self.old.desk s → OnOk result (Means self.new.desk (comes s placed.entry).after) }
        ensures wanting { (s : State) → Means self.old.desk s → OnErr result ((answer_text placed.entry.place (comes s placed.entry).answer ≢ []) ⊎ ReadsPrices (read_of placed.entry.frame)) }
    {
        match self.step(heap, placed.frame) {
            Ok(answer) => print_answer(out, &answer, &self.lines),
            Err(StepFault::Refused(fault)) => print_refusal(out, placed.place, fault.number()),
            Err(StepFault::NoMemory) => Err(AllocError),
        }
    }

    // Reads on, as long as the bytes go on with readings that are accepted, and so print nothing: how many bytes these take.
    pub(crate) fn read_on(&mut self, bytes: &[u8]) -> usize
        ensures read { (s : State) → Means self.old.desk s → ReadOn ReadingAccepted s bytes.now (drop result bytes.now) (Means self.new.desk) }
        ensures within { result ≤ length bytes.now }
    {
        self.desk.read_on(bytes)
    }
}
