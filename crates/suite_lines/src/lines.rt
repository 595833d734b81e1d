// The lines of a report.
ghost use Rattle.std.specs.Prelude.{◌≡◌, ◌≤◌, length};
ghost use Rattle.answer_text.specs.Going.{Appends};
ghost use Rattle.suite_reading.specs.Text.{name_in};
ghost use Rattle.verdicts.specs.Verdicts.{cells};
ghost use Rattle.verdicts.specs.declared.verdict.Verdict.TheVariants.{Refused, Other, NotRun};
ghost use Rattle.suite_lines.specs.Lines.{shown_name, verdict_text, line_of, row_text, table_text, totals_text, summary};

use answer_text::line::{put, put_after_spaces, put_labelled, put_last, put_run};
use answering::answer::Row;
use suite::test::Test;
use suite_reading::text::find_name;
use verdicts::table::{CELLS, NUMBERS};
use verdicts::verdict::{Totals, Verdict};

// Writes the name in a run of bytes, or the number from 1 of the test at i.
fn put_name(out: &mut [u8], at: usize, i: usize, run: &[u8]) -> Option<usize>
    requires { i ≤ 64 }
    ensures { Appends (shown_name i (name_in run.now)) out.old at out.new result }
{
    let name = find_name(run);
    if name.from == name.to {
        return put_labelled(out, at, b"test ", (i + 1) as u64);
    }
    put_run(out, at, &run[name.from..name.to])
}

// Writes that a test was refused, as expected.
fn put_refused(out: &mut [u8], at: usize, test: Test, seen: Row) -> Option<usize>
    ensures { Appends (verdict_text Refused test seen.number seen.readings) out.old at out.new result }
{
    let end = put_labelled(out, at, b": refused with number ", seen.number as u64)?;
    put_run(out, end, b", as expected\n")
}

// Writes what was expected and what came.
fn put_other(out: &mut [u8], at: usize, test: Test, seen: Row) -> Option<usize>
    ensures { Appends (verdict_text Other test seen.number seen.readings) out.old at out.new result }
{
    let two = put_labelled(out, at, b": expected number ", test.number as u64)?;
    let three = put_labelled(out, two, b" readings ", test.readings as u64)?;
    let four = put_labelled(out, three, b", came number ", seen.number as u64)?;
    put_last(out, four, b" readings ", seen.readings as u64)
}

// Writes that a test was not run, and what was expected.
fn put_not_run(out: &mut [u8], at: usize, test: Test, seen: Row) -> Option<usize>
    ensures { Appends (verdict_text NotRun test seen.number seen.readings) out.old at out.new result }
{
    let two = put_labelled(out, at, b": not run, number ", seen.number as u64)?;
    let three = put_labelled(out, two, b"; expected number ", test.number as u64)?;
    put_last(out, three, b" readings ", test.readings as u64)
}

// Writes what is said of a test.
fn put_verdict(out: &mut [u8], at: usize, what: Verdict, test: Test, seen: Row) -> Option<usize>
    ensures { Appends (verdict_text what test seen.number seen.readings) out.old at out.new result }
{
    match what {
        Verdict::Good => Some(at),
        Verdict::Refused => put_refused(out, at, test, seen),
        Verdict::Other => put_other(out, at, test, seen),
        Verdict::NotRun => put_not_run(out, at, test, seen),
    }
}

// Writes the line of the test at i, whose name stands in this run of bytes.
pub fn put_line(
    out: &mut [u8],
    at: usize,
    i: usize,
    run: &[u8],
    what: Verdict,
    test: Test,
    seen: Row,
) -> Option<usize>
    requires { i ≤ 64 }
    ensures { Appends (line_of i (name_in run.now) what test seen.number seen.readings)
        out.old at out.new result }
{
    if let Verdict::Good = what {
        return Some(at);
    }
    let end = put_name(out, at, i, run)?;
    put_verdict(out, end, what, test, seen)
}

// Writes the counts of a mode.
fn put_row(out: &mut [u8], at: usize, mode: u32, row: &[u32]) -> Option<usize>
    ensures { Appends (row_text mode row.now) out.old at out.new result }
{
    let two = put_labelled(out, at, b"mode ", mode as u64)?;
    let three = put(out, two, b':')?;
    let four = put_after_spaces(out, three, row, 0)?;
    put(out, four, b'\n')
}

// Writes the table of counts.
fn put_table(out: &mut [u8], at: usize, table: &[u32]) -> Option<usize>
    requires { length table.now ≡ cells }
    ensures { Appends (table_text table.now) out.old at out.new result }
{
    let two = put_row(out, at, 0, &table[0..NUMBERS])?;
    let three = put_row(out, two, 1, &table[NUMBERS..2 * NUMBERS])?;
    put_row(out, three, 2, &table[2 * NUMBERS..CELLS])
}

// Writes the last line.
fn put_totals(out: &mut [u8], at: usize, totals: Totals) -> Option<usize>
    ensures { Appends (totals_text totals) out.old at out.new result }
{
    let two = put_labelled(out, at, b"", totals.good as u64)?;
    let three = put_labelled(out, two, b" as expected, ", totals.other as u64)?;
    let four = put_labelled(out, three, b" not, ", totals.missed as u64)?;
    put_run(out, four, b" not run\n")
}

// Writes what stands after the lines of the tests.
pub fn put_summary(out: &mut [u8], at: usize, table: &[u32], totals: Totals) -> Option<usize>
    requires { length table.now ≡ cells }
    ensures { Appends (summary table.now totals) out.old at out.new result }
{
    let end = put_table(out, at, table)?;
    put_totals(out, end, totals)
}
