// The start of a library: its length, block 0 and the index in it.
ghost use Rattle.std.specs.Prelude.{◌≡◌, ◌+◌, ◌*◌, ◌<◌, ◌≤◌};
ghost use Rattle.library.specs.Index.{room_of, first_part, used_by, entry_good, index_good, found, start_of, index_of};
ghost use Rattle.library.specs.Told.{index_number};

use crate::row::{Row, refused};
use blocks::{BLOCK, CONTENT, is_intact, read_pair};
use limits::INPUT_LIMIT;

// The most entries that an index has, and the bytes of one.
pub const ENTRIES: usize = 60;

pub const ENTRY: usize = 8;

// Words of a block, and the least words of a description.
pub const WORDS: usize = 126;

pub const LEAST: usize = 3;

// Why a library has no index.
#[derive(Clone, Copy, Debug, PartialEq, Eq)]
pub enum IndexError {
    BadLength,
    BadStart,
    BadIndex,
}

impl From<IndexError> for Row {
    ghost from_gives = { λ error row. (row.number ≡ index_number error) × (row.extent ≡ 0) };

    fn from(error: IndexError) -> Row {
        match error {
            IndexError::BadLength => refused(40),
            IndexError::BadStart => refused(41),
            IndexError::BadIndex => refused(42),
        }
    }
}

// Where a description stands: its first block, and its words.
#[derive(Clone, Copy)]
pub struct Place {
    pub first: usize,
    pub words: usize,
}

// How many blocks so many words take.
pub fn blocks_for(words: usize) -> usize
    requires { words < 65536 }
    ensures { (result ≡ room_of words) × (result < 65536) }
{
    words.div_ceil(WORDS)
}

// How many of so many words stand in the first of their blocks.
pub fn first_part(words: usize) -> usize
    ensures { result ≡ first_part words }
{
    words.min(WORDS)
}

// How many bytes of block 0's content are used where it counts so many entries.
#[tactic(auto, unfolding(crate::specs::Index::used_by))]
fn used_bytes(count: usize) -> usize
    ensures { result ≡ used_by count }
{
    if ENTRIES < count {
        CONTENT
    } else {
        entry_at(count)
    }
}

// The byte of block 0 at which entry i stands.
pub(crate) fn entry_at(i: usize) -> usize
    requires { i ≤ 60 }
    ensures { result ≡ 2 + 8 * i }
{
    2 + ENTRY * i
}

// Whether the entry at that byte breaks no rule, where identifiers from `low` on may stand and block `next` comes next.
#[tactic(auto, unfolding(crate::specs::Index::entry_good))]
fn is_entry_good(start: &[u8; BLOCK], at: usize, low: usize, next: usize) -> bool
    requires { at < 500 }
    ensures { result ≡ entry_good low next at start.now }
{
    let words = read_pair(start, at + 4);
    low <= read_pair(start, at)
        && read_pair(start, at + 2) == next
        && LEAST <= words
        && words <= INPUT_LIMIT
        && read_pair(start, at + 6) == 0
}

// Whether the index breaks no rule.
fn is_index_good(start: &[u8; BLOCK], count: usize, total: usize) -> bool
    requires { count ≤ 60 }
    ensures { result ≡ index_good count 0 1 2 start.now total }
{
    let mut low = 0;
    let mut next = 1;
    for i in 0..count {
        let at = entry_at(i);
        if !is_entry_good(start, at, low, next) {
            return false;
        }
        low = read_pair(start, at) + 1;
        next += blocks_for(read_pair(start, at + 4));
    }
    next == total
}

// Judges block 0 of a library of so many blocks: how many entries its index has.
#[tactic(auto, unfolding(crate::specs::Index::start_of))]
fn judge_start(start: &[u8; BLOCK], total: usize) -> Result<usize, IndexError>
    ensures { result ≡ start_of start.now total }
{
    let count = read_pair(start, 0);
    if !is_intact(start, 0, used_bytes(count)) {
        return Err(IndexError::BadStart);
    }
    if ENTRIES < count {
        return Err(IndexError::BadIndex);
    }
    if !is_index_good(start, count, total) {
        return Err(IndexError::BadIndex);
    }
    Ok(count)
}

// Judges length, block 0 and index of a library: how many entries its index has.
#[tactic(auto, unfolding(crate::specs::Index::index_of))]
pub fn judge_index(file: &[u8]) -> Result<usize, IndexError>
    ensures { result ≡ index_of file.now }
{
    if file.len() % BLOCK != 0 {
        return Err(IndexError::BadLength);
    }
    let Some(start) = file.first_chunk::<BLOCK>() else {
        return Err(IndexError::BadLength);
    };
    judge_start(start, file.len() / BLOCK)
}

// Looks an identifier up among the entries.
pub(crate) fn find(start: &[u8; BLOCK], count: usize, identifier: usize) -> Option<Place>
    requires { count ≤ 60 }
    ensures { result ≡ found identifier count 2 start.now }
{
    for i in 0..count {
        let at = entry_at(i);
        if read_pair(start, at) == identifier {
            let first = read_pair(start, at + 2);
            let words = read_pair(start, at + 4);
            return Some(Place { first, words });
        }
    }
    None
}
