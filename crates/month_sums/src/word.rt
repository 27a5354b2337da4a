// A word of the input, read as a number of the type that its place asks for.
ghost use Rattle.std.specs.Prelude.{◌≡◌, Ok, Err};

use crate::complaint::Reason;
use std::str::FromStr;

// What the word reads as, or else the reason of its place.
pub(crate) fn parse_word<T: FromStr>(word: &str, reason: Reason) -> Result<T, Reason>
where
    T::Err: Drop,
    ensures { elim result [ Ok x ↦ T.from_str_gives word.now (Ok x) | Err e ↦ ((f : T.Err) × T.from_str_gives word.now (Err f)) × (e ≡ reason) ] }
{
    word.parse::<T>().map_err(|_| reason)
}
