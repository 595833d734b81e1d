// Writing what is printed for a formula: a line with the numbers of its answer, and after 0 a line with the words.
ghost use Rattle.std.specs.Prelude.{◌++◌};
ghost use Rattle.answer_text.specs.Answer.{newline, Wrote};
ghost use Rattle.answer_text.specs.Going.{Appends};
ghost use Rattle.formula_text.specs.Printed.{after_number, told_line, formula_text};

use answer_text::line::{put, put_labelled, put_last, put_words_line};
use translate::answer::{Refusal, told};

// Writes what is told after the number, and ends the line.
fn put_told(dst: &mut [u8], at: usize, answer: Result<usize, Refusal>) -> Option<usize>
    ensures { Appends (after_number answer ++ newline) dst.old at dst.new result }
{
    match answer {
        Ok(n) | Err(Refusal::NoRoom(n)) => put_last(dst, at, b" words ", n as u64),
        Err(Refusal::BadText(i)) => put_last(dst, at, b" byte ", i as u64),
        _ => put(dst, at, b'\n'),
    }
}

// Writes the first line.
#[tactic(auto, unfolding(crate::specs::Printed::told_line))]
fn put_told_line(dst: &mut [u8], number: u32, answer: Result<usize, Refusal>) -> Option<usize>
    ensures { Appends (told_line number answer) dst.old 0 dst.new result }
{
    let at = put_labelled(dst, 0, b"answer ", u64::from(number))?;
    put_told(dst, at, answer)
}

// Writes an answer to the start of dst, and after 0 these words.
#[tactic(auto, unfolding(crate::specs::Printed::formula_text))]
pub fn write_formula(dst: &mut [u8], answer: Result<usize, Refusal>, words: &[u32]) -> Option<usize>
    ensures { Wrote (formula_text answer words.now) dst.old dst.new result }
{
    let number = told(answer).number;
    let at = put_told_line(dst, number, answer)?;
    if number == 0 {
        put_words_line(dst, at, words)
    } else {
        Some(at)
    }
}
