// What a table is refused for, looked at before any test runs.
ghost use Rattle.std.specs.Prelude.{◌≡◌, ◌+◌, length};
ghost use Rattle.suite.specs.Suite.{number_of, length_fault, record_fault, table_fault};

use crate::test::Test;
use limits::wide;

// "30 over 64 records, 31 a record names words beyond the area, 32 a record with a mode above 2 or an expected number above" the greatest.
#[derive(Clone, Copy, Debug, PartialEq, Eq)]
pub enum Refusal {
    TooMany,
    BeyondArea,
    OutOfTable,
}

// The number of a suite: 0 where it is not refused.
pub fn number(checked: Result<(), Refusal>) -> u32
    ensures { result ≡ number_of checked }
{
    match checked {
        Ok(()) => 0,
        Err(Refusal::TooMany) => 30,
        Err(Refusal::BeyondArea) => 31,
        Err(Refusal::OutOfTable) => 32,
    }
}

// "at most 64 records"
const LIMIT: usize = 64;

// Refuses a record that is not fine: of its refusals 31 stands before 32.
pub fn judged(test: Test, space: usize) -> Result<(), Refusal>
    ensures { number_of result ≡ record_fault space test }
{
    let first_end = wide(test.first) + wide(test.firsts);
    let second_end = wide(test.second) + wide(test.seconds);
    if space < first_end {
        return Err(Refusal::BeyondArea);
    }
    if space < second_end {
        return Err(Refusal::BeyondArea);
    }
    if 2 < test.mode {
        return Err(Refusal::OutOfTable);
    }
    if 11 < test.number {
        return Err(Refusal::OutOfTable);
    }
    Ok(())
}

// Refuses a table of n records where that is too long.
pub fn counted(n: usize) -> Result<(), Refusal>
    ensures { number_of result ≡ length_fault n }
{
    if LIMIT < n {
        return Err(Refusal::TooMany);
    }
    Ok(())
}

// Refuses a table over an area of so many words that may not run: the lowest record that is refused decides.
pub(crate) fn checked(tests: &[Test], space: usize) -> Result<(), Refusal>
    ensures { number_of result ≡ table_fault space tests.now (length tests.now) }
{
    counted(tests.len())?;
    for test in tests {
        judged(*test, space)?;
    }
    Ok(())
}
