// The program `formula`: the text of a formula from standard input, what comes of it to standard output.
#![tactic(auto)]

ghost use Rattle.std.specs.Prelude.{◌≤◌, length, take, List, ℕ, IfSome, OnOk};
ghost use Rattle.std.specs.Io.KnownBytes.{Appends};
ghost use Rattle.formula_text.specs.Printed.{Prints};

use formula_text::reply;
use programs::{Exact, area};
use std::io;
use std::io::{Read, Write};

// "25 text over 4,096 bytes": room for one byte more is enough to tell.
const TEXT_ROOM: usize = 4097;

// What is printed has at most 11,400 bytes (`prints_small`).
const OUT_ROOM: usize = 16384;

#[derive(Clone, Copy)]
struct Formula;

impl Exact for Formula {
    ghost says = { λ room text said. Prints text said };

    ghost suffices = { λ room. 16384 ≤ room };

    // There is always room.
    fn answer(text: &[u8], out: &mut [u8]) -> Option<usize> {
        reply(text, out)
    }
}

// Reads the text, and prints what comes of it.
fn run<R: Read, W: Write>(
    input: &mut R,
    output: &mut W,
    text: &mut [u8],
    out: &mut [u8],
) -> io::Result<()>
    requires { 16384 ≤ length out.old }
    ensures { OnOk result (IfSome (R.remaining input.old) (λ all. (said : List ℕ)
        × Prints (take (length text.old) all) said × Appends (W.contents output.old) (W.contents output.new) said)) }
{
    programs::run::<Formula, R, W>(input, output, text, out)
}

// The mains of meet, explain, formula and report stay alike: each lends its own rooms to its own run, and that is all it has.
fn main(rt: HostRuntime) -> io::Result<()> {
    let mut text = area::<TEXT_ROOM>();
    let mut out = area::<OUT_ROOM>();
    run(&mut rt.stdin(), &mut rt.stdout(), &mut text, &mut out)
}
