// The tests that a text without names has.
ghost use Rattle.std.specs.Prelude.{◌≡◌, drop};
ghost use Rattle.suite_reading.specs.Tests.{descriptions_then, leading_test, tests_in, expected_test};
ghost use Rattle.suite_reading.specs.Finding.{FindsTest, Judges};

use call_text::call::{find_counted, is_over};
use call_text::number::{Token, read_token};
use limits::wide;
use suite::checks::{Refusal, counted, judged};
use suite::test::Test;

// A test in a text: what is expected, where the text goes on after its mode, where the words of both descriptions stand and how many
// there are, and where the text goes on after it.
#[derive(Clone, Copy)]
pub struct Place {
    pub mode: u32,
    pub number: u32,
    pub readings: u32,
    pub named: usize,
    pub first: usize,
    pub firsts: usize,
    pub second: usize,
    pub seconds: usize,
    pub next: usize,
}

// The rest of a test whose mode ended at `named`: both descriptions, from p on; or there are none.
fn find_descriptions(
    text: &[u8],
    p: usize,
    named: usize,
    mode: u32,
    number: u32,
    readings: u32,
) -> Option<Place>
    ensures { FindsTest text.now
        (descriptions_then mode (drop named text.now) number readings (drop p text.now)) result }
{
    let one = find_counted(text, p)?;
    let two = find_counted(text, one.next)?;
    Some(Place {
        mode,
        number,
        readings,
        named,
        first: one.start,
        firsts: one.count,
        second: two.start,
        seconds: two.count,
        next: two.next,
    })
}

// The test that begins at p, if there is one.
pub fn find_test(text: &[u8], p: usize) -> Option<Place>
    ensures { FindsTest text.now (leading_test (drop p text.now)) result }
{
    let Token::Is {
        value: mode,
        next: named,
    } = read_token(text, p)
    else {
        return None;
    };
    let Token::Is {
        value: number,
        next: third,
    } = read_token(text, named)
    else {
        return None;
    };
    let Token::Is {
        value: readings,
        next: words,
    } = read_token(text, third)
    else {
        return None;
    };
    find_descriptions(text, words, named, mode, number, readings)
}

// What is expected of a test; no word area is lent, and no place in it is named.
pub fn expected(place: Place) -> Test
    ensures { result ≡ expected_test place.mode place.number place.readings }
{
    Test {
        mode: place.mode,
        number: place.number,
        readings: place.readings,
        first: 0,
        firsts: 0,
        second: 0,
        seconds: 0,
    }
}

// Looks at n tests, which are all that stands from p on: whether they may run; or nothing, where the text has no such tests.
pub fn judge_tests(text: &[u8], p: usize, n: u32) -> Option<Result<(), Refusal>>
    ensures { Judges n (tests_in n (drop p text.now)) result }
{
    let mut verdict = counted(wide(n));
    let mut at = p;
    for _ in 0..n {
        let place = find_test(text, at)?;
        verdict = verdict.and(judged(expected(place), 0));
        at = place.next;
    }
    if is_over(text, at) {
        return Some(verdict);
    }
    None
}
