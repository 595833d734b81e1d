// One pass over the bytes of a text.
ghost use Rattle.std.specs.Prelude.{◌≡◌, ◌<◌, ◌≤◌, length};
ghost use Rattle.signs.specs.Limits.{largest_number, formula_limit};
ghost use Rattle.signs.specs.Signs.{sign_word};
ghost use Rattle.signs.specs.Machine.{Small, NumberLast, slot_of, number_sign, number_noted, noted, SignsNoted, over};
ghost use Rattle.signs.specs.Judged.{SignsJudged};

use crate::machine::{Due, Place, step};
use crate::word::{ATOM, FEATURE, KIND};

// "25 text over 4,096 bytes"
const TEXT_LIMIT: usize = 4096;

// The first byte at which no formula can go on; or a text of over 4,096 bytes.
#[derive(Debug, Clone, Copy, PartialEq, Eq)]
pub enum ReadError {
    Bad(usize),
    Long,
}

// The letter of a number, by what may follow it, as the word of 0.
#[tactic(auto, unfolding(crate::specs::Signs::sign_word))]
fn letter(due: Due) -> u32
    ensures { result ≡ sign_word (number_sign due 0) }
{
    match due {
        Due::After => ATOM * KIND,
        _ => FEATURE * KIND,
    }
}

// Where a number goes: over the shorter one, if there is one.
fn slot(old: Place, count: usize) -> usize
    requires { NumberLast old count }
    ensures { result ≡ slot_of old count }
{
    match old {
        Place::Number(_, _) => count - 1,
        _ => count,
    }
}

// Writes a number.
fn note_number(signs: &mut [u32], count: usize, old: Place, due: Due, value: u32) -> usize
    requires { (count < length signs.old) × NumberLast old count × (value ≤ largest_number) }
    ensures { SignsNoted (number_noted old (number_sign due value)) signs.old count signs.new result }
{
    let base = letter(due);
    let at = slot(old, count);
    signs[at] = base + value;
    at + 1
}

// Writes what a byte completes.
fn note(signs: &mut [u32], count: usize, old: Place, next: Place, b: u8) -> usize
    requires { (count < length signs.old) × NumberLast old count × Small next }
    ensures { SignsNoted (noted old next b) signs.old count signs.new result }
{
    match next {
        Place::Clean(_) => {
            signs[count] = u32::from(b) * KIND;
            count + 1
        }
        Place::Number(due, value) => note_number(signs, count, old, due, value),
        _ => count,
    }
}

// The text's end: a formula ends after a sign, with no group open.
fn ended(place: Place, groups: usize, count: usize, at: usize) -> Result<usize, ReadError>
    ensures { result ≡ over place groups count at }
{
    match place {
        Place::Clean(Due::After) | Place::Number(Due::After, _) if groups == 0 => Ok(count),
        _ => Err(ReadError::Bad(at)),
    }
}

// Goes over all bytes.
fn scan(text: &[u8], signs: &mut [u32]) -> Result<usize, ReadError>
    requires { (length text.now ≤ formula_limit) × (formula_limit ≤ length signs.old) }
    ensures { SignsJudged text.now signs.new result }
{
    let mut place = Place::Start;
    let mut groups = 0;
    let mut count = 0;
    for (at, &b) in text.iter().enumerate() {
        let seen = step(place, groups, b).ok_or(ReadError::Bad(at))?;
        count = note(signs, count, place, seen.place, b);
        place = seen.place;
        groups = seen.groups;
    }
    ended(place, groups, count, text.len())
}

// The signs are the first so many words; or "the first byte, from 0, at which no formula can go on".
pub fn read_signs(text: &[u8], signs: &mut [u32]) -> Result<usize, ReadError>
    requires { formula_limit ≤ length signs.old }
    ensures { SignsJudged text.now signs.new result }
{
    if TEXT_LIMIT < text.len() {
        return Err(ReadError::Long);
    }
    scan(text, signs)
}
