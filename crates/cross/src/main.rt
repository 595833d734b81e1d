// The program `cross`: calls from standard input, one after another in the form of `meet`, each run in mode 2 by both engines. To standard
// output goes one line: how many calls were run, how many came out alike, and which was the first that did not, counted from 1.
#![tactic(auto)]

mod alike;
mod window;

use crate::alike::{AREA, alike};
use crate::window::{TEXT_ROOM, Window, refill};
use call_text::call::{call_end, read_call};
use call_text::number::{Token, read_token};
use std::io;
use std::io::{Read, Write};
use vectors::lent::zeros;

// At most so many calls are run.
const MOST_TURNS: u32 = 4000000000;

// A call was run, alike or not, and its text has so many bytes; or nothing is left; or what is left is no call. Each is an answer, which
// the report tells.
#[derive(Clone, Copy)]
enum Turn {
    Ran { same: bool, bytes: usize },
    Over,
    Bad,
}

// What came of all calls: of the first that is not alike and of bad input the number of the call, or 0.
#[derive(Clone, Copy)]
struct Report {
    calls: u32,
    alike: u32,
    unlike: u32,
    bad: u32,
}

// Whether only spaces and newlines are left.
fn is_over(text: &[u8]) -> bool {
    matches!(read_token(text, 0), Token::Over)
}

// Runs the call that the text is, whose inputs are read into these.
fn run_call(text: &[u8], first: &mut [u32], second: &mut [u32]) -> Turn {
    let Some(call) = read_call(text, first, second) else {
        return Turn::Bad;
    };
    if first.len() < call.first || second.len() < call.second {
        return Turn::Bad;
    }
    let same = alike(&first[..call.first], &second[..call.second]);
    Turn::Ran {
        same,
        bytes: text.len(),
    }
}

// Runs the call that the text begins with.
fn run_next(text: &[u8], first: &mut [u32], second: &mut [u32]) -> Turn {
    if is_over(text) {
        return Turn::Over;
    }
    let Some(end) = call_end(text, 0) else {
        return Turn::Bad;
    };
    if text.len() < end {
        return Turn::Bad;
    }
    run_call(&text[..end], first, second)
}

// The report with one call more.
fn counted(report: Report, same: bool) -> Report {
    let calls = next(report.calls);
    if same {
        return Report {
            calls,
            alike: next(report.alike),
            unlike: report.unlike,
            bad: 0,
        };
    }
    let unlike = if report.unlike == 0 {
        calls
    } else {
        report.unlike
    };
    Report {
        calls,
        alike: report.alike,
        unlike,
        bad: 0,
    }
}

// One more, as far as there is one.
fn next(x: u32) -> u32 {
    if x < MOST_TURNS { x + 1 } else { x }
}

// Runs the call that stands next in the text, between `start` and `end`.
fn run_between(
    text: &[u8],
    start: usize,
    end: usize,
    first: &mut [u32],
    second: &mut [u32],
) -> Turn {
    if text.len() < end || end < start {
        return Turn::Bad;
    }
    run_next(&text[start..end], first, second)
}

// Where the next call begins after one of so many bytes.
fn after(window: Window, bytes: usize) -> Window {
    if window.end < window.start || window.end - window.start < bytes {
        return window;
    }
    Window {
        start: window.start + bytes,
        ..window
    }
}

// Runs all calls.
fn all<R: Read>(
    input: &mut R,
    text: &mut [u8],
    first: &mut [u32],
    second: &mut [u32],
) -> io::Result<Report> {
    let mut window = Window {
        start: 0,
        end: 0,
        over: false,
    };
    let mut report = Report {
        calls: 0,
        alike: 0,
        unlike: 0,
        bad: 0,
    };
    for _ in 0..MOST_TURNS {
        window = refill(input, text, window)?;
        let step = run_between(text, window.start, window.end, first, second);
        match step {
            Turn::Ran { same, bytes } => {
                report = counted(report, same);
                window = after(window, bytes);
            }
            Turn::Over => {
                return Ok(report);
            }
            Turn::Bad => {
                return Ok(bad_next(report));
            }
        }
    }
    Ok(report)
}

// The report where the next call is none.
fn bad_next(report: Report) -> Report {
    Report {
        bad: next(report.calls),
        ..report
    }
}

fn say<W: Write>(output: &mut W, label: &[u8], n: u32) -> io::Result<()> {
    output.write_all(label)?;
    write!(output, "{n}")
}

// Says a number of the report, where there is one.
fn say_some<W: Write>(output: &mut W, label: &[u8], n: u32) -> io::Result<()> {
    if n == 0 {
        return Ok(());
    }
    say(output, label, n)
}

// Says the report.
fn say_all<W: Write>(output: &mut W, report: Report) -> io::Result<()> {
    say(output, b"calls ", report.calls)?;
    say(output, b" alike ", report.alike)?;
    say_some(output, b" unlike ", report.unlike)?;
    say_some(output, b" bad ", report.bad)?;
    output.write_all(b"\n")
}

// Room for the text: a function of its own, so that no other proof spells out so many zeros.
fn text_space() -> [u8; TEXT_ROOM] {
    [0; TEXT_ROOM]
}

fn main(rt: HostRuntime) -> io::Result<()> {
    let mut text = text_space();
    let mut first: [u32; AREA] = zeros();
    let mut second: [u32; AREA] = zeros();
    let report = all(&mut rt.stdin(), &mut text, &mut first, &mut second)?;
    say_all(&mut rt.stdout(), report)
}
