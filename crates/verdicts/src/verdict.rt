// What is said of a test, and how often.
ghost use Rattle.std.specs.Prelude.{◌≡◌, ◌<◌};
ghost use Rattle.verdicts.specs.Verdicts.{decides, verdict_of, totals_after, no_totals};

use answering::answer::Row;
use suite::running::agreed;
use suite::test::Test;

// As expected; refused, as expected; otherwise than expected; not run. Four answers, none of which is a failure.
#[derive(Clone, Copy, Debug, PartialEq, Eq)]
pub enum Verdict {
    Good,
    Refused,
    Other,
    NotRun,
}

// Whether a number decides anything.
#[tactic(auto, unfolding(crate::specs::Verdicts::decides))]
fn decides(number: u32) -> bool
    ensures { result ≡ decides number }
{
    matches!(number, 0 | 6 | 10 | 11)
}

// What is said of a test to which this came.
#[tactic(auto, unfolding(crate::specs::Verdicts::verdict_of))]
pub fn verdict_of(test: Test, seen: Row) -> Verdict
    ensures { result ≡ verdict_of test seen.number seen.readings }
{
    match (agreed(test, seen), decides(seen.number)) {
        (true, true) => Verdict::Good,
        (true, false) => Verdict::Refused,
        (false, true) => Verdict::Other,
        (false, false) => Verdict::NotRun,
    }
}

// The tests as expected, those otherwise, and those not run.
#[derive(Clone, Copy)]
pub struct Totals {
    pub good: u32,
    pub other: u32,
    pub missed: u32,
}

// No test yet.
pub fn none() -> Totals
    ensures { result ≡ no_totals }
{
    Totals {
        good: 0,
        other: 0,
        missed: 0,
    }
}

// One test more.
#[tactic(auto, unfolding(crate::specs::Verdicts::totals_after))]
pub fn added(totals: Totals, what: Verdict) -> Totals
    requires { (totals.good < 64) × ((totals.other < 64) × (totals.missed < 64)) }
    ensures { result ≡ totals_after what totals }
{
    match what {
        Verdict::Good | Verdict::Refused => Totals {
            good: totals.good + 1,
            ..totals
        },
        Verdict::Other => Totals {
            other: totals.other + 1,
            ..totals
        },
        Verdict::NotRun => Totals {
            missed: totals.missed + 1,
            ..totals
        },
    }
}
