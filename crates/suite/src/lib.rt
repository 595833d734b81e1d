// A night's suite: a table of tests lent by the caller is run in order, and the counts, a running record and both areas tell how it went.
#![tactic(auto)]

pub mod checks;
pub mod counts;
pub mod running;
pub mod test;

ghost use Rattle.std.specs.Prelude.{◌≡◌, length};
ghost use Rattle.suite.specs.Suite.{Within, Runnable, AsAnswered, begun_night, night_after, Suited, number_of};

use crate::checks::{Refusal, checked};
use crate::counts::{none, raised};
use crate::running::{Running, begun, noted};
use crate::test::Test;
use answering::answer::{Row, told};
use limits::wide;
use unify::unify;

// One test: its call is made.
fn one(test: Test, words: &[u32], res: &mut [u32], working: &mut [u32]) -> Row
    requires { Within (length words.now) test }
    ensures { AsAnswered words.now test (record { result = res.old; working = working.old })
        result.number result.readings (record { result = res.new; working = working.new }) }
{
    let a = wide(test.first);
    let b = a + wide(test.firsts);
    let c = wide(test.second);
    let d = c + wide(test.seconds);
    let answer = unify(test.mode, &words[a..b], &words[c..d], res, working);
    told(answer)
}

// Every test, one after the other; the record is updated after each.
fn each(
    tests: &[Test],
    words: &[u32],
    res: &mut [u32],
    working: &mut [u32],
    running: &mut Running,
) -> [[u32; 12]; 3]
    requires { Runnable (length tests.now) (length words.now) tests.now }
    ensures { record { counts = result; running = running.new; result = res.new; working = working.new }
        ≡ night_after words.now tests.now (begun_night res.old working.old) (length tests.now) }
{
    *running = begun();
    let mut counts = none();
    for test in tests {
        let seen = one(*test, words, res, working);
        *running = noted(*running, *test, seen);
        let next = raised(counts, *test, seen);
        counts = next;
    }
    counts
}

// Runs a suite: "Run them in order and report counts by mode and number", 3 by 12, "tests as expected, and the first that wasn't".
// A refused suite leaves everything as it came.
pub fn suite(
    tests: &[Test],
    words: &[u32],
    res: &mut [u32],
    working: &mut [u32],
    running: &mut Running,
    counts: &mut [[u32; 12]; 3],
) -> Result<(), Refusal>
    ensures { Suited words.now tests.now
        (record {
          counts = counts.old;
          running = running.old;
          result = res.old;
          working = working.old;
        }) (number_of result)
        (record {
          counts = counts.new;
          running = running.new;
          result = res.new;
          working = working.new;
        }) }
{
    checked(tests, words.len())?;
    let all = each(tests, words, res, working, running);
    *counts = all;
    Ok(())
}
