// Printing answers and refusals.
ghost use Rattle.std.specs.Prelude.{◌≡◌, [], ◌∷◌, ◌++◌, map, take, string_bytes, OnErr, OnOk, ◌≢◌};
ghost use Rattle.answers.specs.declared.kinds.Printed.TheVariants.{Line as line_of, Refused as refusal_of};
ghost use Rattle.answers.specs.Said.{said};
ghost use Rattle.answers.specs.Answers.{printed, dues, bill_due, said_text, refusal_text};
ghost use Rattle.answers.specs.Adds.{Adds, Begun};

use crate::kinds::{Answer, Printed};
use hours::Zone;
use settlement::{Line, Payment, Settlement};
use std::alloc::AllocError;

// Adds one printed line to the text.
fn print_line(out: &mut String, line: Printed) -> Result<(), AllocError>
    ensures { Adds result (line ∷ []) out.old out.new }
{
    out.push_str(line.text().as_str())
}

// Adds the lines of a settlement and what it left due to the text.
fn print_lines(out: &mut String, lines: &[Line], dues: &[Printed]) -> Result<(), AllocError>
    ensures { Adds result (map line_of lines.now ++ dues.now) out.old out.new }
{
    let settled = lines.iter().map(|line| Printed::Line(*line));
    for line in settled.chain(dues.iter().copied()) {
        print_line(out, line)?;
    }
    Ok(())
}

// The first lines of a list: so many, or all of them.
fn first_of(lines: &[Line], many: usize) -> &[Line]
    ensures { result.now ≡ take many lines.now }
{
    lines.get(..many).unwrap_or(lines)
}

// What a settlement left due in each zone, as lines.
fn dues_of(settlement: &Settlement) -> [Printed; 3]
    ensures { result ≡ dues settlement.now.due }
{
    [Zone::First, Zone::Second, Zone::Third].map(|zone| Printed::Due {
        zone: Some(zone),
        due: *settlement.due.of(zone),
    })
}

// What a bill left due, as a line.
fn due_of(payment: &Payment) -> Printed
    ensures { result ≡ bill_due payment.now.due }
{
    Printed::Due {
        zone: None,
        due: payment.due,
    }
}

// Prints an answer: the lines of its settlement, then what is due; or what a turn refunded and lost.
pub fn print_answer(out: &mut String, answer: &Answer, lines: &[Line]) -> Result<(), AllocError>
    ensures text { OnOk result (string_bytes out.new ≡ string_bytes out.old ++ said_text (said answer.now lines.now)) }
    ensures wanting { OnErr result (said_text (said answer.now lines.now) ≢ []) }
    ensures begun { OnErr result (Begun (printed (said answer.now lines.now)) out.old out.new) }
{
    match *answer {
        Answer::Nothing => Ok(()),
        Answer::Settled(settlement) => {
            print_lines(
                out,
                first_of(lines, settlement.lines),
                &dues_of(&settlement),
            )
        }
        Answer::Paid(payment) => {
            print_lines(out, first_of(lines, payment.lines), &[due_of(&payment)])
        }
        Answer::Turned { refunded, lost } => print_line(out, Printed::Turned { refunded, lost }),
    }
}

// Prints a refusal: the record's place, and the number of the refusal, which may be any: a narrower type would ask more.
pub fn print_refusal(out: &mut String, place: usize, number: u8) -> Result<(), AllocError>
    ensures text { OnOk result (string_bytes out.new ≡ string_bytes out.old ++ refusal_text place number) }
    ensures begun { OnErr result (Begun (refusal_of place number ∷ []) out.old out.new) }
{
    print_line(out, Printed::Refused { place, number })
}
