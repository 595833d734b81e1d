// From the text that `explain` reads to the text that it prints: what `meet` prints, and a second line after 4, 5 and 6.
#![tactic(auto)]

pub mod line;

ghost use Rattle.std.proofs.Math.Option.{some};
ghost use Rattle.call_text.specs.Call.{heard};
ghost use Rattle.explaining.specs.Explained.{ExplainWrote};

use crate::line::{put_second_line, second_line};
use answer_text::answer::write_bad;
use call_text::call::read_call;
use reply::answer_told;

// The inputs have at most 2,048 words.
const INPUT_ROOM: usize = 2048;

// Answers a call, and writes the answer and the second line to the start of out.
fn explain_call(mode: u32, first: &[u32], second: &[u32], out: &mut [u8]) -> Option<usize>
    ensures { ExplainWrote (some (record { mode = mode; first = first.now; second = second.now }))
        out.old out.new result }
{
    let replied = answer_told(mode, first, second, out);
    let line = second_line(mode, first, second, replied.number, replied.node);
    let at = replied.written?;
    put_second_line(out, at, line)
}

// Explains the call that the text is: writes what `explain` prints to the start of out.
pub fn explain_text(text: &[u8], out: &mut [u8]) -> Option<usize>
    ensures { ExplainWrote (heard text.now) out.old out.new result }
{
    let mut first = [0; INPUT_ROOM];
    let mut second = [0; INPUT_ROOM];
    let Some(call) = read_call(text, &mut first, &mut second) else {
        return write_bad(out);
    };
    explain_call(call.mode, &first[..call.first], &second[..call.second], out)
}
