// The running record: begun before any test, and noted after each.
ghost use Rattle.std.specs.Prelude.{◌≡◌, ◌+◌, ◌<◌};
ghost use Rattle.suite.specs.Suite.{as_expected, begun_record, noted_record};

use crate::test::Test;
use answering::answer::Row;

// The tests run, those as expected, and the first that was not (64 if none).
#[repr(C)]
#[derive(Clone, Copy)]
pub struct Running {
    pub run: u32,
    pub good: u32,
    pub first: u32,
}

// A record before any test.
pub(crate) fn begun() -> Running
    ensures { result ≡ begun_record }
{
    Running {
        run: 0,
        good: 0,
        first: 64,
    }
}

// "both numbers agree"
pub fn agreed(test: Test, seen: Row) -> bool
    ensures { result ≡ as_expected test seen.number seen.readings }
{
    test.number == seen.number && test.readings == seen.readings
}

// The record after one test more.
pub(crate) fn noted(held: Running, test: Test, seen: Row) -> Running
    requires { (held.run < 64) × (held.good < 64) }
    ensures { result ≡ noted_record test seen.number seen.readings held }
{
    let run = held.run + 1;
    if agreed(test, seen) {
        return Running {
            run,
            good: held.good + 1,
            ..held
        };
    }
    if held.first == 64 {
        return Running {
            run,
            first: held.run,
            ..held
        };
    }
    Running { run, ..held }
}
