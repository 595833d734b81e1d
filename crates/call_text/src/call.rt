// Reading a call from bytes: mode, word count, first words, word count, second words.
ghost use Rattle.std.specs.Prelude.{◌≡◌, ◌≤◌, length, drop};
ghost use Rattle.call_text.specs.Call.{count_limit, words_in, counted, done, inputs, heard_in, Heard};
ghost use Rattle.call_text.specs.Finding.{FindsRun, Puts, leading, FindsEnd};

use crate::number::{Token, read_token};

// The most words that a run may have.
pub const COUNT_LIMIT: usize = 2048;

// A run of words: how many, where they start, and the position after them.
#[derive(Clone, Copy, Debug, PartialEq, Eq)]
pub struct Run {
    pub count: usize,
    pub start: usize,
    pub next: usize,
}

// Passes over `count` words from p on; or there are not so many.
fn skip_words(text: &[u8], p: usize, count: usize) -> Option<Run>
    requires { count ≤ count_limit }
    ensures { FindsRun text.now (words_in count (drop p text.now)) result }
{
    let mut at = p;
    for _ in 0..count {
        let Token::Is { value: _, next } = read_token(text, at) else {
            return None;
        };
        at = next;
    }
    Some(Run {
        count,
        start: p,
        next: at,
    })
}

// Finds a word count at p, and so many words after it; or there is no such run.
pub fn find_counted(text: &[u8], p: usize) -> Option<Run>
    ensures { FindsRun text.now (counted (drop p text.now)) result }
{
    let Token::Is { value, next } = read_token(text, p) else {
        return None;
    };
    let count = value as usize;
    if COUNT_LIMIT < count {
        return None;
    }
    skip_words(text, next, count)
}

// Reads `count` words from p on, which stand there, to the start of dst.
pub fn read_words(text: &[u8], p: usize, count: usize, dst: &mut [u32])
    requires { count ≤ length dst.old }
    ensures { Puts (words_in count (drop p text.now)) dst.old dst.new }
{
    let mut at = p;
    for i in 0..count {
        let Token::Is { value, next } = read_token(text, at) else {
            return;
        };
        dst[i] = value;
        at = next;
    }
}

// The most bytes that a text may have.
pub const TEXT_LIMIT: usize = 65536;

// A call: its mode, and how many words each input has.
#[derive(Clone, Copy, Debug, PartialEq, Eq)]
pub struct Counts {
    pub mode: u32,
    pub first: usize,
    pub second: usize,
}

// Whether no number stands from p on.
pub fn is_over(text: &[u8], p: usize) -> bool
    ensures { result ≡ done (drop p text.now) }
{
    matches!(read_token(text, p), Token::Over)
}

// The rest of a call after its mode, from p on; or bad input. Nothing is written until the whole text is found good.
fn read_inputs(
    text: &[u8],
    p: usize,
    mode: u32,
    first: &mut [u32],
    second: &mut [u32],
) -> Option<Counts>
    requires { (count_limit ≤ length first.old) × (count_limit ≤ length second.old) }
    ensures { Heard (inputs mode (drop p text.now))
        first.old second.old first.new second.new result }
{
    let one = find_counted(text, p)?;
    let two = find_counted(text, one.next)?;
    if !is_over(text, two.next) {
        return None;
    }
    read_words(text, one.start, one.count, first);
    read_words(text, two.start, two.count, second);
    Some(Counts {
        mode,
        first: one.count,
        second: two.count,
    })
}

// Reads a call: its words go to the start of first and of second, which need room for 2,048 each; or bad input, which changes neither.
pub fn read_call(text: &[u8], first: &mut [u32], second: &mut [u32]) -> Option<Counts>
    ensures { Heard (heard_in (length first.old) (length second.old) text.now)
        first.old second.old first.new second.new result }
{
    if first.len() < COUNT_LIMIT {
        return None;
    }
    if second.len() < COUNT_LIMIT {
        return None;
    }
    if TEXT_LIMIT < text.len() {
        return None;
    }
    let Token::Is { value, next } = read_token(text, 0) else {
        return None;
    };
    read_inputs(text, next, value, first, second)
}

// Finds where the call ends that begins at p, after which others may stand; or none begins there.
pub fn call_end(text: &[u8], p: usize) -> Option<usize>
    ensures { FindsEnd text.now (leading (drop p text.now)) result }
{
    let Token::Is { value: _, next } = read_token(text, p) else {
        return None;
    };
    let one = find_counted(text, next)?;
    let two = find_counted(text, one.next)?;
    Some(two.next)
}
