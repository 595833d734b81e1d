// The counts by mode and number: an array by value, one cell of which is raised for each test.
ghost use Rattle.std.specs.Prelude.{◌≡◌, ◌<◌};
ghost use Rattle.suite.specs.Suite.{no_counts, counts_sum, raised_at};

use crate::test::Test;
use answering::answer::Row;
use limits::wide;

// No test is counted.
pub(crate) fn none() -> [[u32; 12]; 3]
    ensures { result ≡ no_counts }
{
    [[0; 12]; 3]
}

// One cell is raised.
pub(crate) fn raised(mut counts: [[u32; 12]; 3], test: Test, seen: Row) -> [[u32; 12]; 3]
    requires { (test.mode < 3) × ((seen.number < 12) × (counts_sum counts < 64)) }
    ensures { result ≡ raised_at counts test.mode seen.number }
{
    let mode = wide(test.mode);
    let number = wide(seen.number);
    counts[mode][number] += 1;
    counts
}
