// The answers of unification, and document 01's row for each.
ghost use Rattle.std.specs.Prelude.{◌≡◌};
ghost use Rattle.answering.specs.Number.{row_of};

use roles::cause::Cause;

// A result: so many words, with so many readings.
#[derive(Clone, Copy)]
pub struct Unified {
    pub length: usize,
    pub readings: u32,
}

// Why a call gives no result, of a malformed input with its cause.
#[derive(Clone, Copy)]
pub enum Refusal {
    BadMode,
    SmallArea,
    TooLong,
    BadFirst(Cause),
    BadSecond(Cause),
    Clash { node: usize },
    TooMany,
    NoRoom { length: usize },
    QuickFails,
    NoChoice,
}

// What comes of a call; `row_of` gives number, length, readings and node of each.
pub type Answer = Result<Unified, Refusal>;

// A row of document 01's table: number, length and readings; and the node where definite graphs clash.
#[derive(Clone, Copy)]
pub struct Row {
    pub number: u32,
    pub length: usize,
    pub readings: u32,
    pub node: usize,
}

// What document 01 gives for an answer, as the C interface has it (`bublastyr_unify`).
pub fn told(answer: Answer) -> Row
    ensures { (result.number ≡ (row_of answer).number) × ((result.length ≡ (row_of answer).extent)
        × ((result.readings ≡ (row_of answer).readings) × (result.node ≡ (row_of answer).node))) }
{
    match answer {
        Ok(Unified { length, readings }) => Row {
            number: 0,
            length,
            readings,
            node: 0,
        },
        Err(Refusal::BadMode) => refused(1),
        Err(Refusal::SmallArea) => refused(2),
        Err(Refusal::TooLong) => refused(3),
        Err(Refusal::BadFirst(_)) => refused(4),
        Err(Refusal::BadSecond(_)) => refused(5),
        Err(Refusal::Clash { node }) => Row { node, ..refused(6) },
        Err(Refusal::TooMany) => refused(7),
        Err(Refusal::NoRoom { length }) => Row {
            length,
            ..refused(8)
        },
        Err(Refusal::QuickFails) => refused(10),
        Err(Refusal::NoChoice) => refused(11),
    }
}

// A refusal with this number, and no more to tell.
fn refused(number: u32) -> Row
    ensures { (result.number ≡ number) × ((result.length ≡ 0) × ((result.readings ≡ 0) × (result.node ≡ 0))) }
{
    Row {
        number,
        length: 0,
        readings: 0,
        node: 0,
    }
}
