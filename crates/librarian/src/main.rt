// The program `librarian`: a text that asks something of a test library from standard input, what comes of it to standard output.
#![tactic(auto)]

ghost use Rattle.std.specs.Prelude.{◌≡◌, ◌≤◌, ◌<◌, length, IfSome, OnOk};
ghost use Rattle.std.specs.Io.KnownBytes.{Appends};
ghost use Rattle.answer_text.specs.Answer.{bad_text};
ghost use Rattle.library_text.specs.Serves.{serves};

use library_text::serve;
use programs::{Exact, area, print};
use std::io;
use std::io::{Read, Write};
use streams::read_full;

// More bytes than any library needs: a text that fills it may be cut off, and is bad input.
const TEXT_ROOM: usize = 720896;

// What is printed has at most 280,000 bytes (`serves_small`).
const OUT_ROOM: usize = 280000;

#[derive(Clone, Copy)]
struct Librarian;

impl Exact for Librarian {
    ghost says = { λ room text said. said ≡ serves text };

    ghost suffices = { λ room. 280000 ≤ room };

    // There is always room.
    fn answer(text: &[u8], out: &mut [u8]) -> Option<usize> {
        serve(text, out)
    }
}

// Reads the text, and prints what comes of it; a text that fills the room for it may be cut off, and is bad input.
fn run<R: Read, W: Write>(
    input: &mut R,
    output: &mut W,
    text: &mut [u8],
    out: &mut [u8],
) -> io::Result<()>
    requires { 280000 ≤ length out.old }
    ensures whole { OnOk result (IfSome (R.remaining input.old) (λ all. length all < length text.old
        → Appends (W.contents output.old) (W.contents output.new) (serves all))) }
    ensures cut { OnOk result (IfSome (R.remaining input.old) (λ all. length text.old ≤ length all
        → Appends (W.contents output.old) (W.contents output.new) bad_text)) }
{
    let n = read_full(input, text)?;
    if n == text.len() {
        output.write_all(b"bad input\n")
    } else {
        print::<Librarian, W>(output, &text[..n], out)
    }
}

fn main(rt: HostRuntime) -> io::Result<()> {
    let mut text = area::<TEXT_ROOM>();
    let mut out = area::<OUT_ROOM>();
    run(&mut rt.stdin(), &mut rt.stdout(), &mut text, &mut out)
}
