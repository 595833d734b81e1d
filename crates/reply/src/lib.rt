// From the text that `meet` reads to the text that it prints.
#![tactic(auto)]

ghost use Rattle.std.specs.Prelude.{◌≡◌, length};
ghost use Rattle.answer_text.specs.Answer.{Wrote};
ghost use Rattle.reply.specs.Printed.{result_size, spoken, ReplyTold, printed};
ghost use Rattle.theory.specs.Limits.{working_size};

use answer_text::answer::{write_answer, write_bad};
use answering::answer::told;
use call_text::call::read_call;
use unify::unify;

// An area of N words: a function of its own, so that no proof spells out so many zeros.
pub fn zeros<const N: usize>() -> [u32; N]
    ensures { length result ≡ N }
{
    [0; N]
}

// "Its result area has 2,048 words", and so have the inputs at most.
pub const RESULT_SIZE: usize = 2048;

// "its working area 16,384"
pub const WORKING_SIZE: usize = 16384;

// What was written of an answer, if it had room, and its number and node.
#[derive(Clone, Copy, Debug, PartialEq, Eq)]
pub struct Replied {
    pub written: Option<usize>,
    pub number: u32,
    pub node: usize,
}

// Unifies two inputs in these areas, writes the answer to the start of out, and tells its number and node.
fn answer_in(
    mode: u32,
    first: &[u32],
    second: &[u32],
    res: &mut [u32],
    working: &mut [u32],
    out: &mut [u8],
) -> Replied
    requires { (length res.old ≡ result_size) × (length working.old ≡ working_size) }
    ensures { ReplyTold (record { mode = mode; first = first.now; second = second.now })
        out.old out.new result }
{
    let came = unify(mode, first, second, res, working);
    let row = told(came);
    let shown = if row.number == 0 { row.length } else { 0 };
    let written = write_answer(out, row.number, row.length, row.readings, &res[..shown]);
    Replied {
        written,
        number: row.number,
        node: row.node,
    }
}

// Unifies two inputs, writes the answer to the start of out, and tells its number and node.
pub fn answer_told(mode: u32, first: &[u32], second: &[u32], out: &mut [u8]) -> Replied
    ensures { ReplyTold (record { mode = mode; first = first.now; second = second.now })
        out.old out.new result }
{
    let mut result: [u32; RESULT_SIZE] = zeros();
    let mut working: [u32; WORKING_SIZE] = zeros();
    answer_in(mode, first, second, &mut result, &mut working, out)
}

// Unifies two inputs, and writes the answer to the start of out.
pub fn answer(mode: u32, first: &[u32], second: &[u32], out: &mut [u8]) -> Option<usize>
    ensures { Wrote (spoken (record { mode = mode; first = first.now; second = second.now }))
        out.old out.new result }
{
    answer_told(mode, first, second, out).written
}

// Answers the call that the text is, whose inputs are read into these, and writes what `meet` prints to the start of out.
fn reply_in(text: &[u8], first: &mut [u32], second: &mut [u32], out: &mut [u8]) -> Option<usize>
    requires { (length first.old ≡ result_size) × (length second.old ≡ result_size) }
    ensures { Wrote (printed text.now) out.old out.new result }
{
    let Some(call) = read_call(text, first, second) else {
        return write_bad(out);
    };
    answer(call.mode, &first[..call.first], &second[..call.second], out)
}

// Answers the call that the text is, and writes what `meet` prints to the start of out.
pub fn reply(text: &[u8], out: &mut [u8]) -> Option<usize>
    ensures { Wrote (printed text.now) out.old out.new result }
{
    let mut first: [u32; RESULT_SIZE] = zeros();
    let mut second: [u32; RESULT_SIZE] = zeros();
    reply_in(text, &mut first, &mut second, out)
}
