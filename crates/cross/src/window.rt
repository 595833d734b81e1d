// The bytes that are read from standard input and not used yet.
ghost use Rattle.std.specs.Prelude.{◌≤◌, length};

use std::io;
use std::io::Read;
use streams::read_full;

// They stand from `start` up to `end`; `over` says that no more will come.
// A flag: both positions hold whether more come or not, so an enum's two cases would have the same fields.
#[derive(Clone, Copy)]
pub struct Window {
    pub start: usize,
    pub end: usize,
    pub over: bool,
}

// The most bytes of a call, and room for twice as many: unless no more come, there is always more than a whole call.
const MOST_BYTES: usize = 65536;

pub const TEXT_ROOM: usize = 131072;

// Moves the bytes from `start` up to `end` to the front, and answers how many they are.
fn to_front(text: &mut [u8], start: usize, end: usize) -> usize
    ensures { result ≤ length text.new }
{
    let end = end.min(text.len());
    if end < start {
        return 0;
    }
    text.copy_within(start..end, 0);
    end - start
}

// Reads on, where a whole call may not stand there.
pub fn refill<R: Read>(input: &mut R, text: &mut [u8], window: Window) -> io::Result<Window> {
    if window.over {
        return Ok(window);
    }
    if window.start <= window.end {
        if MOST_BYTES < window.end - window.start {
            return Ok(window);
        }
    }
    let count = to_front(text, window.start, window.end);
    let room = text.len() - count;
    let got = read_full(input, &mut text[count..])?;
    Ok(Window {
        start: 0,
        end: count + got,
        over: got < room,
    })
}
