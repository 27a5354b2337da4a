// The text of one printed line.
ghost use Rattle.std.specs.Prelude.{◌≡◌, ◌<◌, ◌≤◌, ◌∷◌, ◌++◌, length, decimal};
ghost use Rattle.std.specs.List.{flat_map};
ghost use Rattle.answers.specs.Texts.{line_end, line_text};

use crate::kinds::Printed;
use arrayvec::ArrayString;
use itoa::Buffer;
use settlement::zone_number;

// The places of a line: a letter, at most four numbers of 20 digits with a blank before each, and the line's end.
pub(crate) const PLACES: usize = 86;

// A letter, numbers with a blank before each, and the end of a line.
fn spelt(letter: char, numbers: &[u64]) -> ArrayString<PLACES>
    requires plain { letter < 128 }
    requires few { length numbers.now ≤ 4 }
    ensures { result.bytes ≡ letter ∷ flat_map (λ n. 32 ∷ decimal n) numbers.now ++ line_end }
{
    let mut text = ArrayString::new();
    text.push(letter);
    for number in numbers {
        text.push(' ');
        text.push_str(Buffer::new().format(*number));
    }
    text.push('\n');
    text
}

impl Printed {
    // The whole line. It is no `Display`, of which no clause says that it fails only where its writer does.
    pub(crate) fn text(self) -> ArrayString<PLACES>
        ensures { result.bytes ≡ line_text self }
    {
        match self {
            Printed::Line(of) => spelt(
                'L',
                &[
                    of.zone.into(),
                    of.month.into(),
                    of.used.into(),
                    of.left.into(),
                ],
            ),
            Printed::Due { zone, due } => spelt('D', &[zone_number(zone).into(), due.into()]),
            Printed::Turned { refunded, lost } => spelt('T', &[refunded, lost]),
            Printed::Refused { place, number } => spelt('R', &[place as u64, number.into()]),
        }
    }
}
