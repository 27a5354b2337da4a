// Where one record ends and the next begins.
ghost use Rattle.std.specs.Prelude.{◌≡◌, ◌+◌, ◌^◌, ◌≤◌, drop, length, min};
ghost use Rattle.std.specs.Iterator.{at_most};
ghost use Rattle.records.specs.Frames.{frame_model, framed, NextGives};

use crate::left::Frames;

// A record's kind and payload, and the bytes after it.
#[derive(Clone, Copy)]
pub struct Frame<'a> {
    pub kind: u16,
    pub payload: &'a [u8],
    pub rest: &'a [u8],
}

// The first record of the input; `None` where the input ends in it.
pub fn next_frame(input: &[u8]) -> Option<Frame<'_>>
    ensures { frame_model result ≡ framed input.now }
{
    let [length0, length1, kind0, kind1, after @ ..] = input else {
        return None;
    };
    let len = usize::from(u16::from_le_bytes([*length0, *length1]));
    if after.len() < len {
        return None;
    }
    let (payload, rest) = after.split_at(len);
    Some(Frame {
        kind: u16::from_le_bytes([*kind0, *kind1]),
        payload,
        rest,
    })
}

// A record of a file, and the place where it begins.
#[derive(Clone, Copy)]
pub struct Placed<'a> {
    pub place: usize,
    pub frame: Frame<'a>,
}

impl<'a> Frames<'a> {
    // All records of a file.
    pub fn new(input: &'a [u8]) -> Frames<'a>
        ensures place { result.place ≡ 0 }
        ensures rest { result.rest.now ≡ input.now }
    {
        Frames {
            place: 0,
            rest: input,
        }
    }

    // The records of a file from a place on, of which these are the next bytes; `None` where the places after them cannot be counted.
    pub fn at(place: usize, bytes: &'a [u8]) -> Option<Frames<'a>>
        ensures { elim result [ Some s ↦ (s.place ≡ place) × (s.rest.now ≡ bytes.now) | None ↦ 2 ^ 64 ≤ place + length bytes.now ] }
    {
        place.checked_add(bytes.len())?;
        Some(Frames { place, rest: bytes })
    }

    // The place of the first byte that is left.
    pub fn place(&self) -> usize
        ensures { result ≡ self.now.place }
    {
        self.place
    }

    // The bytes that are left.
    pub fn rest(&self) -> &'a [u8]
        ensures { result.now ≡ self.now.rest.now }
    {
        self.rest
    }

    // Passes over the first of the bytes that are left; over all of them where there are not so many.
    pub fn pass(&mut self, count: usize)
        ensures place { self.new.place ≡ self.old.place + min count (length self.old.rest.now) }
        ensures rest { self.new.rest.now ≡ drop count self.old.rest.now }
    {
        let passed = count.min(self.rest.len());
        *self = Frames {
            place: self.place + passed,
            rest: &self.rest[passed..],
        };
    }
}

// The whole records, in their order; a last one in which the bytes end is left.
impl<'a> Iterator for Frames<'a> {
    type Item = Placed<'a>;

    ghost next_gives = { NextGives };

    ghost remaining = { λ s. at_most (length s.rest.now) };

    fn next(&mut self) -> Option<Placed<'a>> {
        let frame = next_frame(self.rest)?;
        let place = self.place;
        *self = Frames {
            place: place + 4 + frame.payload.len(),
            rest: frame.rest,
        };
        Some(Placed { place, frame })
    }
}
