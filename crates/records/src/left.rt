// The records of a file that are still to come.
ghost use Rattle.std.specs.Prelude.{◌+◌, ◌^◌, ◌<◌, length};

// The bytes that are left, and the place of the first of them, so that the end's place can be counted.
#[derive(Clone, Copy)]
pub struct Frames<'a> {
    pub(crate) place: usize,
    pub(crate) rest: &'a [u8],
    ghost counted: { place + length rest.now < 2 ^ 64 },
}
