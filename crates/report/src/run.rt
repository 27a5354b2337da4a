// A run over a record file.
ghost use Rattle.std.specs.Prelude.{◌≡◌, ◌≢◌, ◌++◌, [], List, ℕ, None, IfOk, OnErr, OnOk, string_bytes};
ghost use Rattle.records.specs.Frames.{Behind, framed};
ghost use Rattle.desk.specs.State.{outset};
ghost use Rattle.desk.specs.Means.{Means};
ghost use Rattle.report.specs.Runs.{end_text, report_text};
ghost use Rattle.report.specs.Laws.{Continues, EveryByte, NeedsMemory, PromisesKept, RefusedAlone};
ghost use Rattle.report.specs.Going.{GoesOn, Stands};

use crate::workplace::{Slots, Workplace};
use answers::print_refusal;
use faults::ProgramFault;
use records::Frames;
use std::alloc::{AllocError, Global};

// Serves the whole records that are left. After each the readings that follow it are read in one go: most records are readings,
// and those that are accepted print nothing.
pub(crate) fn serve_all(
    heap: Global,
    work: &mut Workplace<'_>,
    out: &mut String,
    records: &mut Frames<'_>,
) -> Result<(), AllocError>
    ensures goes_on { OnOk result (GoesOn (string_bytes out.old) work.old.desk records.old.place records.old.rest.now (string_bytes out.new) work.new.desk records.new.place records.new.rest.now) }
    ensures all { OnOk result (framed records.new.rest.now ≡ None) }
    ensures left { OnOk result (Behind records.old.rest.now records.new.rest.now) }
    ensures wanting { OnErr result ((all later : List ℕ) → Stands all (string_bytes out.old) work.old.desk records.old.place (records.old.rest.now ++ later) → NeedsMemory all) }
{
    while let Some(placed) = records.next() {
        work.serve(heap, out, placed)?;
        let count = work.read_on(records.rest());
        records.pass(count);
    }
    Ok(())
}

// Prints that the file ends in a record, where it does: these bytes are left behind its whole records.
pub(crate) fn print_end(out: &mut String, place: usize, rest: &[u8]) -> Result<(), AllocError>
    ensures text { OnOk result (string_bytes out.new ≡ string_bytes out.old ++ end_text place rest.now) }
    ensures wanting { OnErr result (end_text place rest.now ≢ []) }
{
    if rest.is_empty() {
        return Ok(());
    }
    print_refusal(out, place, ProgramFault::FileEnds.number())
}

// Runs over the records of the input, at a desk that nothing was done at.
fn run(heap: Global, work: &mut Workplace<'_>, input: &[u8]) -> Result<String, AllocError>
    requires { Means work.old.desk outset }
    ensures text { IfOk result (λ text. string_bytes text ≡ report_text input.now) }
    ensures wanting { OnErr result (NeedsMemory input.now) }
{
    let mut out = String::new(heap);
    let mut records = Frames::new(input);
    serve_all(heap, work, &mut out, &mut records)?;
    print_end(&mut out, records.place(), records.rest())?;
    Ok(out)
}

// The text that a record file prints.
pub fn report(heap: Global, input: &[u8]) -> Result<String, AllocError>
    ensures text { IfOk result (λ text. string_bytes text ≡ report_text input.now) }
    ensures wanting { OnErr result (NeedsMemory input.now) }
    ensures every_byte { EveryByte input.now }
    ensures continues { Continues input.now }
    ensures refused_alone { RefusedAlone input.now }
    ensures promises_kept { PromisesKept input.now }
{
    let mut slots = Slots::default();
    let mut work = Workplace::over(&mut slots);
    run(heap, &mut work, input)
}
