// Writing a library from numbers: what is printed.
ghost use Rattle.std.specs.Prelude.{◌≡◌, ◌≤◌, length, drop};
ghost use Rattle.call_text.specs.Call.{words_in};
ghost use Rattle.answer_text.specs.Answer.{Wrote};
ghost use Rattle.library_text.specs.Serves.{file_room, made_text, runs_text, order_text};
ghost use Rattle.library_text.specs.Run.{ReadsRun};

use crate::lines::{put_extent_line, put_number_line};
use answer_text::answer::write_bad;
use answer_text::line::put_run;
use call_text::call::is_over;
use call_text::number::{Token, read_token};
use library::row::Row;
use library_writing::write::write;
use limits::wide;

// The most words of entries that are read, two an entry and one entry more than an index has; the most words; and the bytes of the
// longest library.
const ENTRY_WORDS: usize = 122;

const WORDS: usize = 65536;

const FILE_ROOM: usize = 276992;

// Reads as many words from p on as dst has room for, and answers where the text goes on; or there is no such run.
fn read_run(text: &[u8], p: usize, dst: &mut [u32]) -> Option<usize>
    ensures { ReadsRun text.now (words_in (length dst.old) (drop p text.now)) dst.new result }
{
    let mut at = p;
    for word in dst.iter_mut() {
        let Token::Is { value, next } = read_token(text, at) else {
            return None;
        };
        *word = value;
        at = next;
    }
    Some(at)
}

// Writes a library of these entries and words to the start of out; its bytes stand in this area.
fn write_made(entries: &[u32], words: &[u32], file: &mut [u8], out: &mut [u8]) -> Option<usize>
    requires { length file.old ≡ file_room }
    ensures { Wrote (made_text entries.now words.now) out.old out.new result }
{
    match write(entries, words, file) {
        Ok(bytes) => {
            let at = put_extent_line(out, 0, b" bytes ", bytes)?;
            put_run(out, at, &file[..bytes])
        }
        Err(error) => put_number_line(out, Row::from(error).number),
    }
}

// Writes the library of these many entry words and words, which stand from p on, to the start of out.
fn write_runs(
    text: &[u8],
    p: usize,
    entries: &mut [u32],
    words: &mut [u32],
    file: &mut [u8],
    out: &mut [u8],
) -> Option<usize>
    requires { length file.old ≡ file_room }
    ensures { Wrote (runs_text (length entries.old) (length words.old) (drop p text.now)) out.old out.new result }
{
    let Some(middle) = read_run(text, p, entries) else {
        return write_bad(out);
    };
    let Some(end) = read_run(text, middle, words) else {
        return write_bad(out);
    };
    if is_over(text, end) {
        write_made(entries, words, file, out)
    } else {
        write_bad(out)
    }
}

// Writes the library that a text asks for to the start of out, in these areas.
fn order_in(
    text: &[u8],
    entries: &mut [u32; ENTRY_WORDS],
    words: &mut [u32; WORDS],
    file: &mut [u8; FILE_ROOM],
    out: &mut [u8],
) -> Option<usize>
    ensures { Wrote (order_text text.now) out.old out.new result }
{
    let Token::Is { value: count, next } = read_token(text, 0) else {
        return write_bad(out);
    };
    let Token::Is {
        value: total,
        next: start,
    } = read_token(text, next)
    else {
        return write_bad(out);
    };
    let many = wide(count);
    if ENTRY_WORDS < many {
        return write_bad(out);
    }
    let long = wide(total);
    if WORDS < long {
        return write_bad(out);
    }
    write_runs(
        text,
        start,
        &mut entries[..many],
        &mut words[..long],
        file,
        out,
    )
}

// Writes the library that a text asks for to the start of out.
pub(crate) fn write_order(text: &[u8], out: &mut [u8]) -> Option<usize>
    ensures { Wrote (order_text text.now) out.old out.new result }
{
    let mut entries = [0; ENTRY_WORDS];
    let mut words = [0; WORDS];
    let mut file = [0; FILE_ROOM];
    order_in(text, &mut entries, &mut words, &mut file, out)
}
