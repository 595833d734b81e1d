// Checking every block of a library: what is printed.
ghost use Rattle.std.specs.Prelude.{◌≡◌, ◌/◌, Ok, length};
ghost use Rattle.blocks.specs.Block.{block_size};
ghost use Rattle.answer_text.specs.Answer.{Wrote};
ghost use Rattle.answer_text.specs.Going.{Appends};
ghost use Rattle.library.specs.Index.{index_of};
ghost use Rattle.library_text.specs.Lines.{cost_line};
ghost use Rattle.library_text.specs.Serves.{block_line, block_lines, good_text, check_text};

use crate::lines::put_number_line;
use answer_text::line::{put_labelled, put_last};
use blocks::BLOCK;
use library::index::judge_index;
use library::row::Row;
use library::survey::check_held;

// Writes the line of a damaged block.
fn put_cost(dst: &mut [u8], at: usize, k: usize, identifier: usize) -> Option<usize>
    ensures { Appends (cost_line k identifier) dst.old at dst.new result }
{
    let next = put_labelled(dst, at, b"block ", k as u64)?;
    put_last(dst, next, b" costs ", identifier as u64)
}

// Writes the line of block k where it is damaged.
fn put_block(dst: &mut [u8], at: usize, file: &[u8], count: usize, k: usize) -> Option<usize>
    requires { Ok count ≡ index_of file.now }
    ensures { Appends (block_line k file.now) dst.old at dst.new result }
{
    match check_held(file, count, k) {
        Ok(Some(identifier)) => put_cost(dst, at, k, identifier),
        Ok(None) => Some(at),
        Err(_) => Some(at),
    }
}

// Writes the lines of all damaged blocks.
fn put_blocks(dst: &mut [u8], at: usize, file: &[u8], count: usize) -> Option<usize>
    requires { Ok count ≡ index_of file.now }
    ensures { Appends (block_lines (length file.now / block_size) 0 file.now)
        dst.old at dst.new result }
{
    let total = file.len() / BLOCK;
    let mut end = at;
    for k in 0..total {
        end = put_block(dst, end, file, count, k)?;
    }
    Some(end)
}

// Writes what is printed of a library whose index is good and counts so many entries.
fn write_good(file: &[u8], count: usize, out: &mut [u8]) -> Option<usize>
    requires { Ok count ≡ index_of file.now }
    ensures { Wrote (good_text file.now) out.old out.new result }
{
    let at = put_number_line(out, 0)?;
    put_blocks(out, at, file, count)
}

// Writes which blocks of the file are damaged to the start of out.
pub(crate) fn write_check(file: &[u8], out: &mut [u8]) -> Option<usize>
    ensures { Wrote (check_text file.now) out.old out.new result }
{
    match judge_index(file) {
        Ok(count) => write_good(file, count, out),
        Err(error) => put_number_line(out, Row::from(error).number),
    }
}
