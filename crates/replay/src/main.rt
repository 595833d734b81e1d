// Runs stored vectors of the second program and compares what comes of each with what is stored: number, length, readings, node and every
// word of both areas of a unification, in mode 2 by both engines, the number of a fit test, the number and the words of a join, which is
// unified too.
// Standard input has for each vector: 0 for a unification, 1 for a fit test or 2 for a join, mode, words of the result area, words of the
// working area, number, length, readings, node, and the words of both inputs and of the result, each after their length; 4,294,967,295 ends
// them. The node of a fit test is not looked at.
#![tactic(auto)]

mod areas;
mod joining;

ghost use Rattle.std.specs.Prelude.{◌≤◌, IfOk};

use crate::areas::{MOST_WORK, working_right};
use crate::joining::joined;
use answering::answer::{Answer, Row, told};
use std::io;
use std::io::{Read, Write};
use unify::{plain, unify};
use vectors::lent::{MOST_ROOM, prepare, result_right, zeros};

// How many kinds of vectors there are; another word ends them.
const KINDS: u32 = 3;

// A kind has so many counts: a count for each number, 0 to 11, that came out as stored, and one of what came out otherwise.
const COUNTS: usize = 13;

// The counts of all kinds.
const ALL_COUNTS: usize = 39;

// Before its words a vector has its kind and so many words more.
const ROW: usize = 7;

// At most so many vectors are run.
const MOST_TURNS: u32 = 1000000;

// What is stored of a vector, but for its words.
#[derive(Clone, Copy)]
struct Vector {
    kind: u32,
    mode: u32,
    room: u32,
    work: u32,
    number: u32,
    length: u32,
    readings: u32,
    node: u32,
}

// Whether a row has the stored number, length, readings and node.
fn row_right(row: Row, v: Vector) -> bool {
    row.number == v.number
        && row.length == v.length as usize
        && row.readings == v.readings
        && row.node == v.node as usize
}

// Unifies in these areas, by the plain engine or in the stored mode.
fn answered(
    plainly: bool,
    mode: u32,
    a: &[u32],
    b: &[u32],
    res: &mut [u32],
    working: &mut [u32],
) -> Answer {
    if plainly {
        return plain(a, b, res, working);
    }
    unify(mode, a, b, res, working)
}

// Unifies in these areas: whether all comes out as stored.
fn unified(
    plainly: bool,
    v: Vector,
    a: &[u32],
    b: &[u32],
    words: &[u32],
    res: &mut [u32],
    working: &mut [u32],
) -> bool {
    prepare(res);
    prepare(working);
    let answer = answered(plainly, v.mode, a, b, res, working);
    let row = told(answer);
    row_right(row, v) && result_right(res, words) && working_right(v.number, working)
}

// Unifies in these areas, in mode 2 by both engines: whether all comes out as stored.
fn unified_both(
    v: Vector,
    a: &[u32],
    b: &[u32],
    words: &[u32],
    res: &mut [u32],
    working: &mut [u32],
) -> bool {
    if !unified(false, v, a, b, words, res, working) {
        return false;
    }
    v.mode != 2 || unified(true, v, a, b, words, res, working)
}

// Unifies in areas of the stored lengths.
fn lent(v: Vector, a: &[u32], b: &[u32], words: &[u32]) -> bool {
    let room = v.room as usize;
    let work = v.work as usize;
    if MOST_ROOM < room || MOST_WORK < work {
        return false;
    }
    let mut result: [u32; MOST_ROOM] = zeros();
    let mut working: [u32; MOST_WORK] = zeros();
    unified_both(v, a, b, words, &mut result[..room], &mut working[..work])
}

// Tests the fit: whether its number is the stored one.
fn fitted(a: &[u32], b: &[u32], number: u32) -> bool {
    let verdict = fit::fit(a, b);
    fit::number(verdict) == number
}

// Whether what comes of a vector is what is stored.
fn as_stored(v: Vector, a: &[u32], b: &[u32], words: &[u32]) -> bool {
    match v.kind {
        0 => lent(v, a, b, words),
        1 => fitted(a, b, v.number),
        _ => joined(a, b, v.number, words) && lent(v, a, b, words),
    }
}

// Reads the words of a vector into these: whether they are there and it comes out as stored.
fn read_in<R: Read>(
    input: &mut R,
    v: Vector,
    a: &mut [u32],
    b: &mut [u32],
    words: &mut [u32],
) -> io::Result<bool> {
    let Some(n) = vectors::counted(input, a)? else {
        return Ok(false);
    };
    let Some(m) = vectors::counted(input, b)? else {
        return Ok(false);
    };
    let Some(k) = vectors::counted(input, words)? else {
        return Ok(false);
    };
    Ok(as_stored(v, &a[..n], &b[..m], &words[..k]))
}

// Whether the words of a vector are there and it comes out as stored.
fn read<R: Read>(input: &mut R, v: Vector) -> io::Result<bool> {
    let mut a: [u32; MOST_ROOM] = zeros();
    let mut b: [u32; MOST_ROOM] = zeros();
    let mut words: [u32; MOST_ROOM] = zeros();
    read_in(input, v, &mut a, &mut b, &mut words)
}

// Which of the counts of its kind a vector belongs to.
fn column<R: Read>(input: &mut R, v: Vector) -> io::Result<usize>
    ensures { IfOk result (λ n. n ≤ 12) }
{
    if read(input, v)? {
        if v.number < 12 {
            return Ok(v.number as usize);
        }
    }
    Ok(12)
}

// Runs the next vector and counts what came of it. Whether there was one.
fn turn<R: Read>(input: &mut R, counts: &mut [u32]) -> io::Result<bool> {
    let Some(kind) = vectors::next(input)? else {
        return Ok(false);
    };
    if KINDS <= kind {
        return Ok(false);
    }
    let mut row = [0; ROW];
    let filled = vectors::fill(input, &mut row)?;
    let v = Vector {
        kind,
        mode: row[0],
        room: row[1],
        work: row[2],
        number: row[3],
        length: row[4],
        readings: row[5],
        node: row[6],
    };
    vectors::count(counts, kind as usize * COUNTS + column(input, v)?);
    Ok(filled)
}

// Runs all vectors.
// replay_reading has the same six lines over its own `turn`: a closure that lends the counts would be longer.
fn all<R: Read>(input: &mut R, counts: &mut [u32]) -> io::Result<()> {
    for _ in 0..MOST_TURNS {
        if !turn(input, counts)? {
            return Ok(());
        }
    }
    Ok(())
}

fn say_count<W: Write>(output: &mut W, label: &[u8], n: u32) -> io::Result<()> {
    output.write_all(label)?;
    write!(output, "{n}")
}

// Says the counts of a kind, which stand from `from` on.
fn say<W: Write>(
    output: &mut W,
    label: &[u8],
    counts: &[u32; ALL_COUNTS],
    from: usize,
) -> io::Result<()>
    requires { from ≤ 26 }
{
    output.write_all(label)?;
    for count in &counts[from..from + 12] {
        say_count(output, b" ", *count)?;
    }
    say_count(output, b", otherwise: ", counts[from + 12])?;
    output.write_all(b"\n")
}

// Says all counts.
fn say_all<W: Write>(output: &mut W, counts: &[u32; ALL_COUNTS]) -> io::Result<()> {
    say(
        output,
        b"unified, as stored with numbers 0 to 11:",
        counts,
        0,
    )?;
    say(
        output,
        b"tested for fit, as stored with numbers 0 to 11:",
        counts,
        COUNTS,
    )?;
    say(
        output,
        b"joined, as stored with numbers 0 to 11:",
        counts,
        COUNTS * 2,
    )
}

fn main(rt: HostRuntime) -> io::Result<()> {
    let mut counts = [0; ALL_COUNTS];
    all(&mut rt.stdin(), &mut counts)?;
    say_all(&mut rt.stdout(), &counts)
}
