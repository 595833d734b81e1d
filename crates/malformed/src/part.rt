// The part of whichever of two lent inputs starts at the word that decides.
ghost use Rattle.std.specs.Prelude.{◌≤◌, length};
ghost use Rattle.malformed.specs.Part.{Tail, Part};

use crate::judging::{Malformed, find_malformed};

// The words from a place on, which is one of them or their end.
fn tail<'a>(input: &'a [u32], at: usize) -> &'a [u32]
    requires { at ≤ length input.now }
    ensures { Tail input.entry at result }
{
    &input[at..]
}

// The empty end.
fn end<'a>(input: &'a [u32]) -> &'a [u32]
    ensures { Tail input.entry (length input.now) result }
{
    tail(input, input.len())
}

// "the part of whichever of the two lent inputs starts at that word"
pub fn part<'a>(first: &'a [u32], second: &'a [u32]) -> &'a [u32]
    ensures { Part first.entry second.entry result }
{
    match find_malformed(first, second) {
        Some(Malformed::First(fault)) => tail(first, fault.at),
        Some(Malformed::Second(fault)) => tail(second, fault.at),
        Some(Malformed::TooLong) => end(first),
        None => end(first),
    }
}
