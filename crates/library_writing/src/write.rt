// Writing a library.
ghost use Rattle.std.specs.Prelude.{◌≡◌, true, Err, ◌++◌, ◌+◌, ◌*◌, ◌/◌, ◌<◌, ◌≤◌, length, take};
ghost use Rattle.blocks.specs.Block.{pair, block, filled};
ghost use Rattle.library.specs.File.{bodies, file};
ghost use Rattle.library_writing.specs.Write.{split, sound, InReach, blocks_asked, index_asked, WritesLibrary};
ghost use Rattle.library_writing.specs.Told.{write_number, write_extent};

use crate::entries::{count_blocks, is_listable, is_sound};
use crate::filling::write_description;
use blocks::{BLOCK, finish, put_pair};
use library::index::{ENTRIES, blocks_for};
use library::row::{Row, done, no_room, refused};
use limits::wide;

// Why no library is written: the entries keep no index's rules; a description is malformed; or the file is too short for the bytes
// that are needed.
#[derive(Clone, Copy, Debug, PartialEq, Eq)]
pub enum WriteError {
    BadEntries,
    Malformed,
    NoRoom { need: usize },
}

impl From<WriteError> for Row {
    ghost from_gives = { λ error row. (row.number ≡ write_number (Err error)) × (row.extent ≡ write_extent (Err error)) };

    fn from(error: WriteError) -> Row {
        match error {
            WriteError::BadEntries => refused(47),
            WriteError::Malformed => refused(45),
            WriteError::NoRoom { need } => no_room(need),
        }
    }
}

// Writes the four numbers of an index entry from `at` on.
fn put_entry(start: &mut [u8], at: usize, identifier: usize, first: usize, words: usize)
    requires { at + 7 < length start.old }
    ensures { take (at + 8) start.new ≡
        take at start.old ++ (pair identifier ++ (pair first ++ (pair words ++ pair 0))) }
{
    put_pair(start, at, identifier);
    put_pair(start, at + 2, first);
    put_pair(start, at + 4, words);
    put_pair(start, at + 6, 0);
}

// Writes the index entries from `at` on, where descriptions begin at block `next`.
fn write_index(start: &mut [u8], at: usize, next: usize, entries: &[u32])
    requires { InReach next entries.now × (at + 4 * length entries.now ≤ length start.old) }
    ensures { take (at + 4 * length entries.now) start.new ≡
        take at start.old ++ index_asked next entries.now }
{
    if 2 <= entries.len() {
        let words = wide(entries[1]);
        put_entry(start, at, wide(entries[0]), next, words);
        write_index(start, at + 8, next + blocks_for(words), &entries[2..]);
    }
}

// Makes block 0.
fn write_start(start: &mut [u8; BLOCK], entries: &[u32])
    requires { InReach 1 entries.now × (length entries.now ≤ 120) }
    ensures { start.new ≡
        block (filled (pair (length entries.now / 2) ++ index_asked 1 entries.now)) 0 }
{
    put_pair(start, 0, entries.len() / 2);
    write_index(start, 2, 1, entries);
    finish(start, 2 + 4 * entries.len(), 0);
}

// Makes the blocks of all descriptions, from block `next` on.
fn write_bodies(out: &mut [u8], next: usize, entries: &[u32], words: &[u32])
    requires { InReach next entries.now × (sound entries.now words.now ≡ true)
        × (length out.old ≡ 512 * blocks_asked entries.now) }
    ensures { out.new ≡ bodies next (split entries.now words.now) }
{
    if 2 <= entries.len() {
        let count = wide(entries[1]);
        let here = blocks_for(count);
        let size = BLOCK * here;
        write_description(&mut out[..size], next, &words[..count]);
        write_bodies(
            &mut out[size..],
            next + here,
            &entries[2..],
            &words[count..],
        );
    }
}

// Makes the file of a library.
fn write_file(out: &mut [u8], entries: &[u32], words: &[u32])
    requires { InReach 1 entries.now × (length entries.now ≤ 120) × (sound entries.now words.now ≡ true)
        × (length out.old ≡ 512 * (1 + blocks_asked entries.now)) }
    ensures { out.new ≡ file (split entries.now words.now) }
{
    if let Some((start, rest)) = out.split_first_chunk_mut::<BLOCK>() {
        write_start(start, entries);
        write_bodies(rest, 1, entries, words);
    }
}

// Writes a library of the entries, whose descriptions follow each other in `words`, to the start of the file. So many bytes are
// written.
pub fn write(entries: &[u32], words: &[u32], file: &mut [u8]) -> Result<usize, WriteError>
    ensures { WritesLibrary entries.now words.now file.old file.new result }
{
    if !is_listable(entries, ENTRIES, 0) {
        return Err(WriteError::BadEntries);
    }
    let need = BLOCK * (1 + count_blocks(entries));
    if !is_sound(entries, words) {
        return Err(WriteError::Malformed);
    }
    if file.len() < need {
        return Err(WriteError::NoRoom { need });
    }
    write_file(&mut file[..need], entries, words);
    Ok(need)
}

// The row of an answer.
pub fn write_told(answer: Result<usize, WriteError>) -> Row
    ensures { (result.number ≡ write_number answer) × (result.extent ≡ write_extent answer) }
{
    answer.map_or_else(Row::from, done)
}
