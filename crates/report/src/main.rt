// The program `report`: the text of a suite from standard input, to standard output what came of it.
#![tactic(auto)]

ghost use Rattle.std.specs.Prelude.{◌≡◌, ◌≤◌, length, take, IfSome, OnOk, ⊤};
ghost use Rattle.std.specs.Io.KnownBytes.{Appends};
ghost use Rattle.suite_text.specs.Report.{suite_printed};

use programs::{Exact, area};
use std::io;
use std::io::{Read, Write};
use suite_text::report;

// A text of over 1,048,576 bytes is bad input: room for one byte more is enough to tell.
const TEXT_ROOM: usize = 1048577;

// The names of a text, and some 100 bytes beside for each of 64 tests.
const OUT_ROOM: usize = 1114112;

#[derive(Clone, Copy)]
struct Report;

impl Exact for Report {
    ghost says = { λ room text said. length (suite_printed text) ≤ room → said ≡ suite_printed text };

    ghost suffices = { λ room. ⊤ };

    // Nothing is said where there is no room.
    fn answer(text: &[u8], out: &mut [u8]) -> Option<usize> {
        report(text, out)
    }
}

// Reads the text, and prints what came of it.
fn run<R: Read, W: Write>(
    input: &mut R,
    output: &mut W,
    text: &mut [u8],
    out: &mut [u8],
) -> io::Result<()>
    ensures { OnOk result (IfSome (R.remaining input.old) (λ all.
        length (suite_printed (take (length text.old) all)) ≤ length out.old
        → Appends (W.contents output.old) (W.contents output.new) (suite_printed (take (length text.old) all)))) }
{
    programs::run::<Report, R, W>(input, output, text, out)
}

// The mains of meet, explain, formula and report stay alike: each lends its own rooms to its own run, and that is all it has.
fn main(rt: HostRuntime) -> io::Result<()> {
    let mut text = area::<TEXT_ROOM>();
    let mut out = area::<OUT_ROOM>();
    run(&mut rt.stdin(), &mut rt.stdout(), &mut text, &mut out)
}
