// The blocks of a description: its words in 32 bits, 126 a block.
ghost use Rattle.std.specs.Prelude.{◌≡◌, ◌+◌, ◌*◌, ◌<◌, ◌≤◌, length, take};
ghost use Rattle.std.proofs.lemmas.List.Edits.{sets};
ghost use Rattle.blocks.specs.Block.{block, filled};
ghost use Rattle.library.specs.Index.{room_of};
ghost use Rattle.library.specs.File.{quad, word_bytes, description_blocks};

use blocks::{BLOCK, finish};
use library::index::first_part;

// Writes a word from `at` on.
fn put_word(bytes: &mut [u8], at: usize, value: u32)
    requires { at + 3 < length bytes.old }
    ensures { bytes.new ≡ sets bytes.old at (quad value) }
{
    bytes[at..at + 4].copy_from_slice(&value.to_le_bytes());
}

// Writes words to the start of some bytes.
fn put_words(bytes: &mut [u8], words: &[u32])
    requires { 4 * length words.now ≤ length bytes.old }
    ensures { take (4 * length words.now) bytes.new ≡ word_bytes words.now }
{
    for (i, word) in words.iter().enumerate() {
        put_word(bytes, 4 * i, *word);
    }
}

// Makes the block of that number, which holds some words.
fn write_block(bytes: &mut [u8; BLOCK], number: usize, words: &[u32])
    requires { length words.now ≤ 126 }
    ensures { bytes.new ≡ block (filled (word_bytes words.now)) number }
{
    put_words(bytes, words);
    finish(bytes, 4 * words.len(), number);
}

// Makes the blocks of a description, from block `first` on.
pub(crate) fn write_description(out: &mut [u8], first: usize, words: &[u32])
    requires { (length out.old ≡ 512 * room_of (length words.now)) × (first + room_of (length words.now) ≤ 65536) }
    ensures { out.new ≡ description_blocks (room_of (length words.now)) first words.now }
{
    if let Some((block, rest)) = out.split_first_chunk_mut::<BLOCK>() {
        let here = first_part(words.len());
        write_block(block, first, &words[..here]);
        write_description(rest, first + 1, &words[here..]);
    }
}
