// A run over a file that comes in pieces. Only the bytes that are not yet served are kept.
ghost use Rattle.std.specs.Prelude.{◌≡◌, ◌-◌, ◌<◌, ◌≤◌, ◌++◌, List, ℕ, drop, length, IfOk, IfSome, string_bytes, vec_len};
ghost use Rattle.std.specs.Io.{ReadsAtMost};
ghost use Rattle.std.specs.Io.KnownBytes.{Consumes, IsAtEnd, ReadConsumes};
ghost use Rattle.desk.specs.State.{outset};
ghost use Rattle.desk.specs.Means.{Means};
ghost use Rattle.report.specs.Runs.{report_text};

use crate::run::{print_end, serve_all};
use crate::workplace::{Slots, Workplace};
use records::Frames;
use std::alloc::Global;
use std::io::{self, ErrorKind, Read};

// So many bytes are asked for at once.
const PIECE: usize = 65_536;

// One read, made again where a signal interrupts it.
fn read_some<R: Read>(source: &mut R, buffer: &mut [u8]) -> io::Result<usize>
    ensures bound { ReadsAtMost result buffer.new }
    ensures bytes { ReadConsumes (R.remaining source.old) (R.remaining source.new) result buffer.new }
{
    for _turn in 0..u64::MAX {
        match source.read(buffer) {
            Err(error) if error.kind() == ErrorKind::Interrupted => {}
            answer => return answer,
        }
    }
    Err(io::Error::from(ErrorKind::Interrupted))
}

// Reads a piece, and puts it behind the bytes that are held: how many bytes it has, none only at the source's end. The room that it
// is read into is lent, and cleared once: a source may give few bytes at a time.
fn read_piece<R: Read>(source: &mut R, piece: &mut [u8], held: &mut Vec<u8>) -> io::Result<usize>
    requires { 0 < length piece.old }
    ensures { IfOk result (λ n. (piece : List ℕ) × (held.new.items ≡ held.old.items ++ piece) × (n ≡ length piece) × Consumes (R.remaining source.old) (R.remaining source.new) piece × (n ≡ 0 → IsAtEnd (R.remaining source.new))) }
{
    let count = read_some(source, piece)?;
    held.extend_from_slice(&piece[..count])?;
    Ok(count)
}

// Keeps the last of the bytes that are held, so many of them.
fn keep_last(held: &mut Vec<u8>, count: usize)
    requires { count ≤ vec_len held.old }
    ensures { held.new.items ≡ drop (vec_len held.old - count) held.old.items }
{
    let start = held.len() - count;
    if start == 0 {
        return;
    }
    held.copy_within(start.., 0);
    held.truncate(count);
}

// Runs over the records of the source, at a desk that nothing was done at.
fn run_from<R: Read>(heap: Global, work: &mut Workplace<'_>, source: &mut R) -> io::Result<String>
    requires { Means work.old.desk outset }
    ensures { IfOk result (λ text. IfSome (R.remaining source.old) (λ file. string_bytes text ≡ report_text file)) }
{
    let mut out = String::new(heap);
    let mut piece = [0; PIECE];
    let mut held = Vec::new(heap);
    let mut place = 0;
    for _turn in 0..u64::MAX {
        if read_piece(source, &mut piece, &mut held)? == 0 {
            print_end(&mut out, place, &held)?;
            return Ok(out);
        }
        let mut records = Frames::at(place, &held).ok_or(ErrorKind::FileTooLarge)?;
        serve_all(heap, work, &mut out, &mut records)?;
        place = records.place();
        let left = records.rest().len();
        keep_last(&mut held, left);
    }
    Err(io::Error::from(ErrorKind::FileTooLarge))
}

// The text that the record file prints which the source gives.
pub fn report_from<R: Read>(heap: Global, source: &mut R) -> io::Result<String>
    ensures { IfOk result (λ text. IfSome (R.remaining source.old) (λ file. string_bytes text ≡ report_text file)) }
{
    let mut slots = Slots::default();
    let mut work = Workplace::over(&mut slots);
    run_from(heap, &mut work, source)
}
