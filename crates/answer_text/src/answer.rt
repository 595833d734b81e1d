// Writing what `meet` prints: an answer, or `bad input`. Each function answers how many bytes of the slice are written, from its start
// on; or nothing, where the text is longer than the slice.
ghost use Rattle.answer_text.specs.Answer.{first_line, answer_text, bad_text, Wrote};
ghost use Rattle.answer_text.specs.Going.{Appends};

use crate::line::{put_labelled, put_last, put_run, put_words_line};

// Writes the first line.
fn put_first_line(dst: &mut [u8], number: u32, length: usize, readings: u32) -> Option<usize>
    ensures { Appends (first_line number length readings) dst.old 0 dst.new result }
{
    let at = put_labelled(dst, 0, b"answer ", u64::from(number))?;
    let next = put_labelled(dst, at, b" words ", length as u64)?;
    put_last(dst, next, b" readings ", u64::from(readings))
}

// Writes an answer to the start of dst: a line with its numbers and, after number 0 only, a line with the words.
pub fn write_answer(
    dst: &mut [u8],
    number: u32,
    length: usize,
    readings: u32,
    words: &[u32],
) -> Option<usize>
    ensures { Wrote (answer_text number length readings words.now) dst.old dst.new result }
{
    let at = put_first_line(dst, number, length, readings)?;
    if number == 0 {
        return put_words_line(dst, at, words);
    }
    Some(at)
}

// Writes `bad input` to the start of dst.
pub fn write_bad(dst: &mut [u8]) -> Option<usize>
    ensures { Wrote bad_text dst.old dst.new result }
{
    put_run(dst, 0, b"bad input\n")
}
