// From the text of a suite to what is printed for it.
#![tactic(auto)]

ghost use Rattle.std.specs.Prelude.{◌≡◌, false, ◌≤◌, ◌<◌, length, drop};
ghost use Rattle.theory.specs.Limits.{working_size};
ghost use Rattle.reply.specs.Printed.{result_size};
ghost use Rattle.call_text.specs.Call.{count_limit};
ghost use Rattle.answer_text.specs.Answer.{Wrote};
ghost use Rattle.suite_reading.specs.Text.{blanked};
ghost use Rattle.suite_reading.specs.Tests.{tests_in};
ghost use Rattle.verdicts.specs.Verdicts.{no_table};
ghost use Rattle.suite_text.specs.Report.{TestAnswers, MayRun, ReportWrote, typed_printed, suite_text_limit, suite_printed};

use answer_text::answer::write_bad;
use answer_text::line::put_last;
use answering::answer::{Row, told};
use call_text::call::read_words;
use call_text::number::{Token, read_token};
use reply::{RESULT_SIZE, WORKING_SIZE, zeros};
use suite::checks::number;
use suite_lines::lines::{put_line, put_summary};
use suite_reading::tests::{Place, expected, find_test, judge_tests};
use suite_reading::text::{after_spaces, blank};
use unify::unify;
use verdicts::table::{no_table, raise};
use verdicts::verdict::{added, none, verdict_of};

// The most bytes that a text may have.
pub const TEXT_LIMIT: usize = 1048576;

// Room for a text: a function of its own, so that no other proof spells out so many zeros.
fn numbers_space() -> [u8; TEXT_LIMIT]
    ensures { length result ≡ suite_text_limit }
{
    [0; TEXT_LIMIT]
}

// Runs a test whose words stand in the text from these places on.
fn run_test(
    numbers: &[u8],
    place: Place,
    first: &mut [u32],
    second: &mut [u32],
    res: &mut [u32],
    working: &mut [u32],
) -> Row
    requires first_len { (length first.old ≡ result_size) × (length second.old ≡ result_size) }
    requires res_len { (length res.old ≡ result_size) × (length working.old ≡ working_size) }
    requires firsts_le_count_limit { (place.firsts ≤ count_limit) × (place.seconds ≤ count_limit) }
    ensures { TestAnswers numbers.now place result.number result.readings }
{
    let count = place.firsts;
    let other = place.seconds;
    read_words(numbers, place.first, count, first);
    read_words(numbers, place.second, other, second);
    let answer = unify(place.mode, &first[..count], &second[..other], res, working);
    told(answer)
}

// Runs n tests, which are all that stands from p on, and writes the report on them to the start of out.
fn run_tests(
    text: &[u8],
    numbers: &[u8],
    p: usize,
    n: usize,
    first: &mut [u32],
    second: &mut [u32],
    res: &mut [u32],
    working: &mut [u32],
    table: &mut [u32],
    out: &mut [u8],
) -> Option<usize>
    requires first_len { (length first.old ≡ result_size) × (length second.old ≡ result_size) }
    requires res_len { (length res.old ≡ result_size) × (length working.old ≡ working_size) }
    requires table_value { table.old ≡ no_table }
    requires numbers_len { (length numbers.now ≡ length text.now) × MayRun n (tests_in n (drop p numbers.now)) }
    ensures { ReportWrote text.now (tests_in n (drop p numbers.now)) out.old
        out.new result }
{
    let mut totals = none();
    let mut at = p;
    let mut end = 0;
    for i in 0..n {
        let place = find_test(numbers, at)?;
        let seen = run_test(numbers, place, first, second, res, working);
        let test = expected(place);
        let what = verdict_of(test, seen);
        let from = place.named.min(numbers.len());
        let to = after_spaces(numbers, place.next.min(numbers.len()));
        end = put_line(out, end, i, &text[from..to], what, test, seen)?;
        raise(table, place.mode, seen.number);
        totals = added(totals, what);
        at = place.next;
    }
    put_summary(out, end, table, totals)
}

// Writes the report on the text to the start of out; `numbers` is the text without its names.
fn report_on(
    text: &[u8],
    numbers: &[u8],
    first: &mut [u32],
    second: &mut [u32],
    res: &mut [u32],
    working: &mut [u32],
    table: &mut [u32],
    out: &mut [u8],
) -> Option<usize>
    requires first_len { (length first.old ≡ result_size) × (length second.old ≡ result_size) }
    requires res_len { (length res.old ≡ result_size) × (length working.old ≡ working_size) }
    requires table_value { table.old ≡ no_table }
    requires numbers_value { numbers.now ≡ blanked false text.now }
    ensures { Wrote (typed_printed text.now) out.old out.new result }
{
    let Token::Is { value: n, next } = read_token(numbers, 0) else {
        return write_bad(out);
    };
    let Some(verdict) = judge_tests(numbers, next, n) else {
        return write_bad(out);
    };
    let refusal = number(verdict);
    if refusal != 0 {
        return put_last(out, 0, b"answer ", u64::from(refusal));
    }
    run_tests(
        text, numbers, next, n as usize, first, second, res, working, table, out,
    )
}

// Takes the names out of the text, and writes the report on it to the start of out.
fn report_in(
    text: &[u8],
    numbers: &mut [u8],
    first: &mut [u32],
    second: &mut [u32],
    res: &mut [u32],
    working: &mut [u32],
    table: &mut [u32],
    out: &mut [u8],
) -> Option<usize>
    requires first_len { (length first.old ≡ result_size) × (length second.old ≡ result_size) }
    requires res_len { (length res.old ≡ result_size) × (length working.old ≡ working_size) }
    requires table_value { table.old ≡ no_table }
    requires numbers_len { length numbers.old ≡ length text.now }
    ensures { Wrote (typed_printed text.now) out.old out.new result }
{
    blank(text, numbers);
    report_on(text, numbers, first, second, res, working, table, out)
}

// Runs the suite that the text is, and writes what is printed for it to the start of out.
pub fn report(text: &[u8], out: &mut [u8]) -> Option<usize>
    ensures { Wrote (suite_printed text.now) out.old out.new result }
{
    let n = text.len();
    if TEXT_LIMIT < n {
        return write_bad(out);
    }
    let mut numbers = numbers_space();
    let mut first: [u32; RESULT_SIZE] = zeros();
    let mut second: [u32; RESULT_SIZE] = zeros();
    let mut result: [u32; RESULT_SIZE] = zeros();
    let mut working: [u32; WORKING_SIZE] = zeros();
    let mut table = no_table();
    report_in(
        text,
        &mut numbers[..n],
        &mut first,
        &mut second,
        &mut result,
        &mut working,
        &mut table,
        out,
    )
}
