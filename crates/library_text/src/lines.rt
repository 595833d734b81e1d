// Lines that are printed for a library.
ghost use Rattle.std.specs.Prelude.{◌≤◌, length, take};
ghost use Rattle.answer_text.specs.Answer.{Wrote};
ghost use Rattle.answer_text.specs.Going.{Appends};
ghost use Rattle.library_text.specs.Lines.{number_line, extent_line, words_text};

use answer_text::line::{put_labelled, put_last, put_words_line};

// Writes a line with a number to the start of dst.
pub(crate) fn put_number_line(dst: &mut [u8], number: u32) -> Option<usize>
    ensures { Appends (number_line number) dst.old 0 dst.new result }
{
    put_last(dst, 0, b"answer ", u64::from(number))
}

// Writes the first line: an answer's number, and how many words or bytes it tells of.
pub(crate) fn put_extent_line(
    dst: &mut [u8],
    number: u32,
    label: &[u8],
    extent: usize,
) -> Option<usize>
    ensures { Appends (extent_line number label.now extent) dst.old 0 dst.new result }
{
    let at = put_labelled(dst, 0, b"answer ", u64::from(number))?;
    put_last(dst, at, label, extent as u64)
}

// Writes an answer to the start of dst: the first line, and after 0 a line with the first words of the area.
pub(crate) fn write_words(dst: &mut [u8], number: u32, extent: usize, area: &[u32]) -> Option<usize>
    requires { extent ≤ length area.now }
    ensures { Wrote (words_text number extent (take extent area.now)) dst.old dst.new result }
{
    let at = put_extent_line(dst, number, b" words ", extent)?;
    if number == 0 {
        return put_words_line(dst, at, &area[..extent]);
    }
    Some(at)
}
