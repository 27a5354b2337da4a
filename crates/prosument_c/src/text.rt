// The report of a file, into the caller's memory.
ghost use Rattle.std.specs.Prelude.{◌≡◌, length};
ghost use Rattle.report.specs.Laws.{Continues, EveryByte, PromisesKept, RefusedAlone};
ghost use Rattle.prosument_c.specs.Reports.{Reports, text_after, text_number};

use crate::numbers::{DONE, NO_MEMORY, NO_ROOM};
use report::report;
use std::alloc::Global;

// Writes bytes over the first of a text, where they have room, and tells how many they are.
fn fill(text: &mut [u8], told: &mut usize, bytes: &[u8]) -> u32
    ensures number { result ≡ text_number bytes.now text.old }
    ensures text { text.new ≡ text_after bytes.now text.old }
    ensures long { told.new ≡ length bytes.now }
{
    *told = bytes.len();
    if bytes.len() > text.len() {
        return NO_ROOM;
    }
    text[..bytes.len()].copy_from_slice(bytes);
    DONE
}

// The report of a file, into the caller's text; its length is told also where there is no room for it.
#[unsafe(no_mangle)]
pub extern "C" fn prosument_report(
    heap: Global,
    file: &[u8],
    text: &mut [u8],
    told: &mut usize,
) -> u32
    ensures reports { Reports file.now result text.old told.old text.new told.new }
    ensures every_byte { EveryByte file.now }
    ensures continues { Continues file.now }
    ensures refused_alone { RefusedAlone file.now }
    ensures promises_kept { PromisesKept file.now }
{
    match report(heap, file) {
        Ok(printed) => fill(text, told, printed.as_bytes()),
        Err(_) => NO_MEMORY,
    }
}
