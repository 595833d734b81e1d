// What is asked to be written: entries of two words, identifier and number of words, over an area of words.
ghost use Rattle.std.specs.Prelude.{◌≡◌, ◌*◌, ◌≤◌, length};
ghost use Rattle.library_writing.specs.Write.{listable, sound, InPairs, blocks_asked};

use layout::reading::judge;
use library::index::blocks_for;
use limits::{INPUT_LIMIT, wide};

// Identifiers are below it.
const IDENTIFIERS: usize = 65536;

// Whether entries keep the rules of an index that has room for `left` more and whose identifiers go on from `low`.
pub(crate) fn is_listable(entries: &[u32], left: usize, low: usize) -> bool
    ensures { result ≡ listable left low entries.now }
{
    if entries.len() == 0 {
        return true;
    }
    if entries.len() == 1 {
        return false;
    }
    if left == 0 {
        return false;
    }
    let identifier = wide(entries[0]);
    if identifier < low {
        return false;
    }
    if IDENTIFIERS <= identifier {
        return false;
    }
    if INPUT_LIMIT < wide(entries[1]) {
        return false;
    }
    is_listable(&entries[2..], left - 1, identifier + 1)
}

// Whether each entry's words are a description's, where descriptions follow each other.
pub(crate) fn is_sound(entries: &[u32], words: &[u32]) -> bool
    ensures { result ≡ sound entries.now words.now }
{
    if entries.len() < 2 {
        return true;
    }
    let count = wide(entries[1]);
    if words.len() < count {
        return false;
    }
    judge(&words[..count]) && is_sound(&entries[2..], &words[count..])
}

// How many blocks the descriptions take.
pub(crate) fn count_blocks(entries: &[u32]) -> usize
    requires { InPairs entries.now × (length entries.now ≤ 120) }
    ensures { (result ≡ blocks_asked entries.now) × (2 * result ≤ 9 * length entries.now) }
{
    if entries.len() < 2 {
        return 0;
    }
    let here = blocks_for(wide(entries[1]));
    here + count_blocks(&entries[2..])
}
