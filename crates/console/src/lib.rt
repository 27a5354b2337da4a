//! The program's way in and out: a record file from a source, its report to a sink.
#![tactic(auto)]

ghost use Rattle.std.specs.Prelude.{IfSome, OnOk};
ghost use Rattle.std.specs.Io.KnownBytes.{Appends};
ghost use Rattle.report.specs.Runs.{report_text};

use report::report_from;
use std::alloc::{AllocError, Global};
use std::io::{self, ErrorKind, Read, Write};

// What ended a report: want of memory is told in the one way, wherever it was met.
fn told(error: io::Error) -> anyhow::Error {
    if error.kind() == ErrorKind::OutOfMemory {
        return AllocError.into();
    }
    error.into()
}

// Prints the report of the record file that the source gives.
pub fn serve_from<R: Read, W: Write>(
    heap: Global,
    source: &mut R,
    sink: &mut W,
) -> anyhow::Result<()>
    ensures { OnOk result (IfSome (R.remaining source.old) (λ file. Appends (W.contents sink.old) (W.contents sink.new) (report_text file))) }
{
    let text = report_from(heap, source).map_err(told)?;
    sink.write_all(text.as_bytes())?;
    Ok(())
}

// The same from standard input to standard output, of whose bytes nothing can be known.
pub fn serve(rt: &HostRuntime) -> anyhow::Result<()> {
    serve_from(rt.alloc(), &mut rt.stdin(), &mut rt.stdout())
}
