// Translates stored texts of the second program and compares what comes of each with what is stored: number, length, byte and every word of
// the result area.
// Standard input has for each text: words of the result area, number, what is told (a length after 0 and 24, a byte after 20, else 0), and
// the bytes of the text and the words of the result, each after their number; 4,294,967,295 ends them.
#![tactic(auto)]

ghost use Rattle.std.specs.Prelude.{◌≤◌, IfOk};

use std::io;
use std::io::{Read, Write};
use translate::answer::{Row, told};
use translate::formula::formula;
use vectors::lent::{MOST_ROOM, prepare, result_right, zeros};

// A count for number 0, one for each number from 20 to 25, and one of what came out otherwise.
const COUNTS: usize = 8;

// Before its text a vector has the words of the result area and so many words more.
const ROW: usize = 2;

// A text has at most so many bytes here.
const MOST_TEXT: usize = 8192;

// At most so many vectors are run.
const MOST_TURNS: u32 = 1000000;

// What is stored of a vector, but for its text and its words.
#[derive(Clone, Copy)]
struct Vector {
    room: u32,
    number: u32,
    told: u32,
}

// Whether a row has the stored number, and beside it what is told and nothing else.
fn row_right(row: Row, v: Vector) -> bool {
    let told = v.told as usize;
    let (length, byte) = if v.number == 20 { (0, told) } else { (told, 0) };
    row == Row {
        number: v.number,
        length,
        byte,
    }
}

// Translates a text in this area: whether all comes out as stored.
fn translated(v: Vector, text: &[u8], words: &[u32], res: &mut [u32]) -> bool {
    prepare(res);
    let row = told(formula(text, res));
    row_right(row, v) && result_right(res, words)
}

// Translates a text in an area of the stored length.
fn lent(v: Vector, text: &[u8], words: &[u32]) -> bool {
    let mut area: [u32; MOST_ROOM] = zeros();
    let room = v.room as usize;
    room <= MOST_ROOM && translated(v, text, words, &mut area[..room])
}

// Whether the text and the words of a vector are there and it comes out as stored.
fn read<R: Read>(input: &mut R, v: Vector) -> io::Result<bool> {
    let mut text = [0; MOST_TEXT];
    let Some(n) = vectors::counted_bytes(input, &mut text)? else {
        return Ok(false);
    };
    let mut words: [u32; MOST_ROOM] = zeros();
    let Some(k) = vectors::counted(input, &mut words)? else {
        return Ok(false);
    };
    Ok(lent(v, &text[..n], &words[..k]))
}

// Which of the counts a number has.
fn place(number: u32) -> usize
    ensures { result ≤ 7 }
{
    match number {
        0 => 0,
        20..=25 => (number - 19) as usize,
        _ => 7,
    }
}

// Which of the counts a vector belongs to.
fn column<R: Read>(input: &mut R, v: Vector) -> io::Result<usize>
    ensures { IfOk result (λ n. n ≤ 7) }
{
    if read(input, v)? {
        Ok(place(v.number))
    } else {
        Ok(7)
    }
}

// Runs the next vector and counts what came of it. Whether there was one.
fn turn<R: Read>(input: &mut R, counts: &mut [u32]) -> io::Result<bool> {
    let Some(room) = vectors::next(input)? else {
        return Ok(false);
    };
    if room == u32::MAX {
        return Ok(false);
    }
    let mut row = [0; ROW];
    let filled = vectors::fill(input, &mut row)?;
    let [number, told] = row;
    let v = Vector { room, number, told };
    vectors::count(counts, column(input, v)?);
    Ok(filled)
}

// Runs all vectors.
fn all<R: Read>(input: &mut R, counts: &mut [u32]) -> io::Result<()> {
    for _ in 0..MOST_TURNS {
        if !turn(input, counts)? {
            break;
        }
    }
    Ok(())
}

// Says all counts.
fn say_all<W: Write>(output: &mut W, counts: [u32; COUNTS]) -> io::Result<()> {
    let [fine, bad, deep, clash, long, no_room, long_text, otherwise] = counts;
    writeln!(output, "translated, as stored with number 0: {fine}")?;
    write!(
        output,
        "refused, as stored with number 20: {bad}, 21: {deep}, "
    )?;
    writeln!(
        output,
        "22: {clash}, 23: {long}, 24: {no_room}, 25: {long_text}"
    )?;
    writeln!(output, "otherwise: {otherwise}")
}

fn main(rt: HostRuntime) -> io::Result<()> {
    let mut counts = [0; COUNTS];
    all(&mut rt.stdin(), &mut counts)?;
    say_all(&mut rt.stdout(), counts)
}
