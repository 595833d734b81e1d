// Reading a description of a library.
ghost use Rattle.std.specs.Prelude.{◌≡◌, ◌+◌, ◌<◌, length, Ok, Err};
ghost use Rattle.library.specs.declared.read.ReadError.TheVariants.{Index};
ghost use Rattle.library.specs.Index.{room_of, index_of};
ghost use Rattle.library.specs.Read.{quad_at, words_from, whole_blocks, sought, StandsWithin, FetchesAt, FetchesFound, Fetches};
ghost use Rattle.library.specs.Told.{fetch_number, fetch_extent};

use crate::index::{IndexError, WORDS, blocks_for, find, first_part, judge_index};
use crate::row::{Row, done, no_room, refused};
use blocks::{BLOCK, is_damaged};
use layout::reading::judge;
use limits::{INPUT_LIMIT, wide};

// Why no description is read: the library has no index, or no such identifier; a block of the description is damaged; its words are
// malformed; or the area is too short for the words that are needed.
#[derive(Clone, Copy, Debug, PartialEq, Eq)]
pub enum ReadError {
    Index(IndexError),
    Absent,
    Damaged,
    Malformed,
    NoRoom { need: usize },
}

impl From<IndexError> for ReadError {
    ghost from_gives = { λ error result. result ≡ Index error };

    fn from(error: IndexError) -> ReadError {
        ReadError::Index(error)
    }
}

// The word that stands from `at` on.
fn read_word(bytes: &[u8], at: usize) -> u32
    requires { at + 3 < length bytes.now }
    ensures { result ≡ quad_at bytes.now at }
{
    u32::from_le_bytes([bytes[at], bytes[at + 1], bytes[at + 2], bytes[at + 3]])
}

// Whether all blocks of a description of so many words are intact, from block `first` on. That they stand within the file is a clause,
// here and below: it speaks of the file's length, and no ghost field stands beside a reference.
fn is_whole(file: &[u8], first: usize, words: usize) -> bool
    requires { StandsWithin first words file.now }
    ensures { result ≡ whole_blocks (room_of words) first words file.now }
{
    let mut rest = words;
    for k in first..first + blocks_for(words) {
        let here = first_part(rest);
        if is_damaged(file, k, 4 * here) {
            return false;
        }
        rest -= here;
    }
    true
}

// Copies words of a description to dst.
fn fill(dst: &mut [u32], file: &[u8], first: usize)
    requires { StandsWithin first (length dst.old) file.now }
    ensures { dst.new ≡ words_from first 0 (length dst.old) file.now }
{
    for (i, word) in dst.iter_mut().enumerate() {
        let at = BLOCK * (first + i / WORDS) + 4 * (i % WORDS);
        *word = read_word(file, at);
    }
}

// Reads the description of so many words that begins in block `first`: its words are judged before they are copied to the area.
#[tactic(auto, unfolding(crate::specs::Read::fetch_answer_at))]
fn read_description(
    file: &[u8],
    first: usize,
    words: usize,
    area: &mut [u32],
) -> Result<usize, ReadError>
    requires { StandsWithin first words file.now }
    ensures { FetchesAt first words file.now area.old area.new result }
{
    if !is_whole(file, first, words) {
        return Err(ReadError::Damaged);
    }
    let mut space = [0; INPUT_LIMIT];
    let copy = &mut space[..words];
    fill(copy, file, first);
    if !judge(copy) {
        return Err(ReadError::Malformed);
    }
    if area.len() < words {
        return Err(ReadError::NoRoom { need: words });
    }
    area[..words].copy_from_slice(copy);
    Ok(words)
}

// Reads the description of an identifier in a library whose index is good.
fn read_indexed(
    file: &[u8],
    count: usize,
    identifier: usize,
    area: &mut [u32],
) -> Result<usize, ReadError>
    requires { Ok count ≡ index_of file.now }
    ensures { FetchesFound (sought identifier count file.now) file.now area.old
        area.new result }
{
    let Some(start) = file.first_chunk::<BLOCK>() else {
        return Err(ReadError::Index(IndexError::BadLength));
    };
    let Some(place) = find(start, count, identifier) else {
        return Err(ReadError::Absent);
    };
    read_description(file, place.first, place.words, area)
}

// Reads the description of an identifier of a library to the start of the area. So many words are read.
#[tactic(auto, using(crate::proofs::Reading::fetches_refused))]
pub fn fetch(file: &[u8], identifier: u32, area: &mut [u32]) -> Result<usize, ReadError>
    ensures { Fetches file.now identifier area.old area.new result }
{
    let count = judge_index(file)?;
    read_indexed(file, count, wide(identifier), area)
}

impl From<ReadError> for Row {
    ghost from_gives = { λ error row. (row.number ≡ fetch_number (Err error)) × (row.extent ≡ fetch_extent (Err error)) };

    fn from(error: ReadError) -> Row {
        match error {
            ReadError::Index(error) => Row::from(error),
            ReadError::Absent => refused(43),
            ReadError::Damaged => refused(44),
            ReadError::Malformed => refused(45),
            ReadError::NoRoom { need } => no_room(need),
        }
    }
}

// The row of an answer.
pub fn fetch_told(answer: Result<usize, ReadError>) -> Row
    ensures { (result.number ≡ fetch_number answer) × (result.extent ≡ fetch_extent answer) }
{
    answer.map_or_else(Row::from, done)
}
