// From a text that asks something of a test library to what is printed for it.
#![tactic(auto)]

mod checking;
mod lines;
mod reading;
mod writing;

ghost use Rattle.answer_text.specs.Answer.{Wrote};
ghost use Rattle.library_text.specs.Serves.{obeys, serves};

use crate::checking::write_check;
use crate::reading::{write_fetched, write_listed};
use crate::writing::write_order;
use answer_text::answer::write_bad;
use call_text::number::{Token, read_token};

// Writes what is printed for a command over the rest of its text to the start of out. A text names its command by a number.
fn obey(command: u32, identifier: u32, rest: &[u8], out: &mut [u8]) -> Option<usize>
    ensures { Wrote (obeys command identifier rest.now) out.old out.new result }
{
    match command {
        1 => write_listed(rest, out),
        2 => write_fetched(rest, identifier, out),
        3 => write_check(rest, out),
        4 => write_order(rest, out),
        _ => write_bad(out),
    }
}

// Writes what is printed for the text to the start of out.
pub fn serve(text: &[u8], out: &mut [u8]) -> Option<usize>
    ensures { Wrote (serves text.now) out.old out.new result }
{
    let Token::Is {
        value: command,
        next,
    } = read_token(text, 0)
    else {
        return write_bad(out);
    };
    let Token::Is {
        value: identifier,
        next: end,
    } = read_token(text, next)
    else {
        return write_bad(out);
    };
    if text.len() <= end {
        return write_bad(out);
    }
    if text[end] != b'\n' {
        return write_bad(out);
    }
    obey(command, identifier, &text[end + 1..], out)
}
