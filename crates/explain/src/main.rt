// The program `explain`: one call from standard input, to standard output what comes of it and, of a malformed input, why.
#![tactic(auto)]

ghost use Rattle.std.specs.Prelude.{◌≤◌, length, take, List, ℕ, IfSome, OnOk};
ghost use Rattle.std.specs.Io.KnownBytes.{Appends};
ghost use Rattle.call_text.specs.Call.{heard};
ghost use Rattle.explaining.specs.Explained.{ExplainedText};

use explaining::explain_text;
use programs::{Exact, area};
use std::io;
use std::io::{Read, Write};

// "input over 65,536 bytes" is bad input: room for one byte more is enough to tell.
const TEXT_ROOM: usize = 65537;

// What is printed has at most 24,000 bytes (`ExplainWrote`).
const OUT_ROOM: usize = 32768;

#[derive(Clone, Copy)]
struct Explain;

impl Exact for Explain {
    ghost says = { λ room text said. ExplainedText (heard text) said };

    ghost suffices = { λ room. 32768 ≤ room };

    // There is always room.
    fn answer(text: &[u8], out: &mut [u8]) -> Option<usize> {
        explain_text(text, out)
    }
}

// Reads the text, and prints what comes of it.
fn run<R: Read, W: Write>(
    input: &mut R,
    output: &mut W,
    text: &mut [u8],
    out: &mut [u8],
) -> io::Result<()>
    requires { 32768 ≤ length out.old }
    ensures { OnOk result (IfSome (R.remaining input.old) (λ all. (said : List ℕ)
        × ExplainedText (heard (take (length text.old) all)) said
        × Appends (W.contents output.old) (W.contents output.new) said)) }
{
    programs::run::<Explain, R, W>(input, output, text, out)
}

// The mains of meet, explain, formula and report stay alike: each lends its own rooms to its own run, and that is all it has.
fn main(rt: HostRuntime) -> io::Result<()> {
    let mut text = area::<TEXT_ROOM>();
    let mut out = area::<OUT_ROOM>();
    run(&mut rt.stdin(), &mut rt.stdout(), &mut text, &mut out)
}
