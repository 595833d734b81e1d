// Stored vectors: runs of little-endian 32-bit words that a reader gives.
// What is proved is that each function is safe and ends, and that what is read had room. Each may fail as a read does.
#![tactic(auto)]

pub mod lent;

ghost use Rattle.std.specs.Prelude.{◌≤◌, length, IfOk, IfSome};

use std::io;
use std::io::Read;
use streams::read_full;

// At most so many words are read at once, and a word has so many bytes.
const MOST_WORDS: usize = 4096;

const WORD_BYTES: usize = 4;

const MOST_BYTES: usize = 16384;

// The next word, or nothing at the end of the run.
pub fn next<R: Read>(input: &mut R) -> io::Result<Option<u32>> {
    let mut bytes = [0; WORD_BYTES];
    let got = read_full(input, &mut bytes)?;
    if got < WORD_BYTES {
        return Ok(None);
    }
    Ok(Some(u32::from_le_bytes(bytes)))
}

// Turns the bytes into words of dst, as far as both go.
fn decode(bytes: &[u8], dst: &mut [u32]) {
    for (word, four) in dst.iter_mut().zip(bytes.chunks_exact(WORD_BYTES)) {
        *word = u32::from_le_bytes([four[0], four[1], four[2], four[3]]);
    }
}

// Fills dst, which has at most 4,096 words, with the next words: false where the run ends before or dst is longer.
pub fn fill<R: Read>(input: &mut R, dst: &mut [u32]) -> io::Result<bool> {
    if MOST_WORDS < dst.len() {
        return Ok(false);
    }
    let n = dst.len() * WORD_BYTES;
    let mut bytes = [0; MOST_BYTES];
    let got = read_full(input, &mut bytes[..n])?;
    decode(&bytes[..n], dst);
    Ok(got == n)
}

// Fills the front of dst with the next words, as many as the word before them says. Answers how many; or nothing, where they are not there
// or have no room.
pub fn counted<R: Read>(input: &mut R, dst: &mut [u32]) -> io::Result<Option<usize>>
    ensures { IfOk result (λ run. IfSome run (λ n. n ≤ length dst.old)) }
{
    let Some(len) = next(input)? else {
        return Ok(None);
    };
    let n = len as usize;
    if dst.len() < n || !fill(input, &mut dst[..n])? {
        return Ok(None);
    }
    Ok(Some(n))
}

// Fills the front of dst with the next bytes, as many as the word before them says; zeros fill the last word. Answers how many, or nothing,
// as `counted` does.
pub fn counted_bytes<R: Read>(input: &mut R, dst: &mut [u8]) -> io::Result<Option<usize>>
    ensures { IfOk result (λ run. IfSome run (λ n. n ≤ length dst.old)) }
{
    let Some(len) = next(input)? else {
        return Ok(None);
    };
    let n = len as usize;
    let whole = n.next_multiple_of(WORD_BYTES);
    if dst.len() < whole || read_full(input, &mut dst[..whole])? < whole {
        return Ok(None);
    }
    Ok(Some(n))
}

// Counts one more at i.
pub fn count(counts: &mut [u32], i: usize) {
    if let Some(x) = counts.get_mut(i) {
        *x = x.saturating_add(1);
    }
}
