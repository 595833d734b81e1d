// Judges stored inputs of the second program and compares what is told of each with what is stored: as the first of two inputs, as the
// second, and by the part that starts at the word that decides.
// Standard input has the vectors: length, words, cause, its own data and the place; 4,294,967,295 ends them.
#![tactic(auto)]

use faults::hint::hint;
use layout::reading::judge;
use malformed::judging::{Report, find_malformed, told};
use malformed::part::part;
use std::io;
use std::io::{Read, Write};

// What is stored of an input; its cause is 0 where it is well formed.
#[derive(Clone, Copy)]
struct Stored {
    cause: u32,
    value: u32,
    place: u32,
}

// An input has at most so many words.
const MOST_WORDS: usize = 1024;

// At most so many vectors are run.
const MOST_TURNS: u32 = 1000000;

// After the words a vector has so many more.
const ROW: usize = 3;

// A count for each cause, 0 to 9, of what came out as stored; one of what came out otherwise; of words that end one for each kind of
// word that was to come, 1 to 6; and one of those that have 1,024 words.
const COUNTS: usize = 18;

const OTHERWISE: usize = 10;

const LONGEST: usize = 17;

// The least description: the other of two inputs.
const FINE_WORDS: usize = 3;

fn fine() -> [u32; FINE_WORDS] {
    [1, 0, 0]
}

// Whether the reader accepts what has no cause, and nothing else.
fn judged_right(words: &[u32], stored: Stored) -> bool {
    judge(words) == (stored.cause == 0)
}

// Whether a report has the stored cause and data, this number where there is a cause, and this place.
fn report_right(report: Report, stored: Stored, number: u32, place: u32) -> bool {
    let numbered = if stored.cause == 0 { 0 } else { number };
    report.number == numbered
        && report.cause == stored.cause
        && report.value == stored.value
        && report.place == place
}

// Whether all is told as stored of the words as the first input.
fn first_right(words: &[u32], stored: Stored) -> bool {
    let other = fine();
    let report = told(find_malformed(words, &other), words.len());
    report_right(report, stored, 4, stored.place)
}

// Whether all is told as stored of the words as the second input; without a fault the place is the length of the first.
fn second_right(words: &[u32], stored: Stored) -> bool {
    let other = fine();
    let report = told(find_malformed(&other, words), FINE_WORDS);
    let place = if stored.cause == 0 { 3 } else { stored.place };
    report_right(report, stored, 5, place)
}

// Whether the part that starts at the stored place is handed back, to its length.
fn part_right(words: &[u32], stored: Stored) -> bool {
    let other = fine();
    let left = words.len().checked_sub(stored.place as usize);
    left == Some(part(words, &other).len())
}

fn as_stored(words: &[u32], stored: Stored) -> bool {
    judged_right(words, stored)
        && first_right(words, stored)
        && second_right(words, stored)
        && part_right(words, stored)
}

// The count of a vector's cause, or of what came out otherwise.
fn cause_column(words: &[u32], stored: Stored) -> usize {
    if stored.cause < 10 && as_stored(words, stored) {
        return stored.cause as usize;
    }
    OTHERWISE
}

// Counts what came of a vector: its cause, of words that end what was to come, and those that could not be longer.
fn tally(counts: &mut [u32], words: &[u32], stored: Stored) {
    vectors::count(counts, cause_column(words, stored));
    if stored.cause == 1 {
        vectors::count(counts, OTHERWISE + hint(words) as usize);
    }
    if words.len() == MOST_WORDS {
        vectors::count(counts, LONGEST);
    }
}

// Runs the next vector. Whether there was one.
fn turn<R: Read>(input: &mut R, counts: &mut [u32]) -> io::Result<bool> {
    let mut words = [0; MOST_WORDS];
    let Some(n) = vectors::counted(input, &mut words)? else {
        return Ok(false);
    };
    let mut row: [u32; ROW] = [0; ROW];
    let filled = vectors::fill(input, &mut row)?;
    let [cause, value, place] = row;
    let stored = Stored {
        cause,
        value,
        place,
    };
    tally(counts, &words[..n], stored);
    Ok(filled)
}

// Runs all vectors.
// replay has the same six lines over its own `turn`: a closure that lends the counts would be longer.
fn all<R: Read>(input: &mut R, counts: &mut [u32]) -> io::Result<()> {
    for _ in 0..MOST_TURNS {
        if !turn(input, counts)? {
            return Ok(());
        }
    }
    Ok(())
}

// Says some of the counts.
fn say<W: Write>(output: &mut W, label: &[u8], counts: &[u32]) -> io::Result<()> {
    output.write_all(label)?;
    for count in counts {
        write!(output, " {count}")?;
    }
    output.write_all(b"\n")
}

// Says all counts.
fn say_all<W: Write>(output: &mut W, counts: &[u32; COUNTS]) -> io::Result<()> {
    say(output, b"well formed, as stored:", &counts[..1])?;
    say(
        output,
        b"malformed, as stored, by cause:",
        &counts[1..OTHERWISE],
    )?;
    say(output, b"told otherwise:", &counts[OTHERWISE..11])?;
    say(
        output,
        b"words that end, by what was to come:",
        &counts[11..LONGEST],
    )?;
    say(output, b"of 1,024 words:", &counts[LONGEST..])
}

fn main(rt: HostRuntime) -> io::Result<()> {
    let mut counts: [u32; COUNTS] = [0; COUNTS];
    all(&mut rt.stdin(), &mut counts)?;
    say_all(&mut rt.stdout(), &counts)
}
