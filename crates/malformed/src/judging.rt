// Which of two inputs is malformed, and why.
ghost use Rattle.std.specs.Prelude.{◌≡◌};
ghost use Rattle.roles.specs.Coded.{cause_of};
ghost use Rattle.roles.specs.Causes.{cause_number, cause_data};
ghost use Rattle.malformed.specs.Malformed.{BothShort, MalformedIn, capped, report_of};

use faults::fault::fault;
use faults::verdict::Fault;
use limits::INPUT_LIMIT;
use roles::cause::{cause_data, cause_number};

// An input is over 1,024 words; or the first is malformed, or only the second, with the cause and the place of the word that decides.
#[derive(Clone, Copy, Debug, PartialEq, Eq)]
pub enum Malformed {
    TooLong,
    First(Fault),
    Second(Fault),
}

// Of two malformed inputs the first.
fn find_in_short(first: &[u32], second: &[u32]) -> Option<Malformed>
    requires { BothShort first.now second.now }
    ensures { MalformedIn first.now second.now result }
{
    if let Some(fault) = fault(first) {
        return Some(Malformed::First(fault));
    }
    if let Some(fault) = fault(second) {
        return Some(Malformed::Second(fault));
    }
    None
}

// What is malformed of two inputs, if any.
pub fn find_malformed(first: &[u32], second: &[u32]) -> Option<Malformed>
    ensures { MalformedIn first.now second.now result }
{
    if INPUT_LIMIT < first.len() {
        return Some(Malformed::TooLong);
    }
    if INPUT_LIMIT < second.len() {
        return Some(Malformed::TooLong);
    }
    find_in_short(first, second)
}

// A number of document 01's table, the cause and its own data, and the place of the word that decides, or else the length of the first.
#[derive(Clone, Copy)]
pub struct Report {
    pub number: u32,
    pub cause: u32,
    pub value: u32,
    pub place: u32,
}

// A place or a length as a word: the greatest word stands for a greater one.
fn capped(n: usize) -> u32
    ensures { result ≡ capped n }
{
    u32::try_from(n).unwrap_or(u32::MAX)
}

// No cause, and the length of the first input.
fn causeless(number: u32, length: usize) -> Report
    ensures { (result.number ≡ number) × (result.cause ≡ 0) × (result.value ≡ 0) × (result.place ≡ capped length) }
{
    Report {
        number,
        cause: 0,
        value: 0,
        place: capped(length),
    }
}

// A cause, and the place of the word that decides.
fn caused(number: u32, fault: Fault) -> Report
    ensures { (result.number ≡ number) × (result.cause ≡ cause_number (cause_of fault.cause))
        × (result.value ≡ cause_data (cause_of fault.cause)) × (result.place ≡ capped fault.at) }
{
    Report {
        number,
        cause: cause_number(fault.cause),
        value: cause_data(fault.cause),
        place: capped(fault.at),
    }
}

// What is told of two inputs, of which the first has such a length.
pub fn told(what: Option<Malformed>, length: usize) -> Report
    ensures { (result.number ≡ (report_of length what).number) × (result.cause ≡ (report_of length what).cause)
        × (result.value ≡ (report_of length what).value) × (result.place ≡ (report_of length what).place) }
{
    match what {
        None => causeless(0, length),
        Some(Malformed::TooLong) => causeless(3, length),
        Some(Malformed::First(fault)) => caused(4, fault),
        Some(Malformed::Second(fault)) => caused(5, fault),
    }
}
