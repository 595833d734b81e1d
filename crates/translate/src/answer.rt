// What comes of a formula's text.
ghost use Rattle.std.specs.Prelude.{◌≡◌};
ghost use Rattle.translate.specs.Row.{number_in, length_in, byte_in, refusal_of};

use signs::reading::ReadError;

// The first byte at which no formula can go on; disjunctions nested too deep; a clash; over 1,024 words; a result area of fewer words
// than so many; a text of over 4,096 bytes.
#[derive(Debug, Clone, Copy, PartialEq, Eq)]
pub enum Refusal {
    BadText(usize),
    TooDeep,
    Clash,
    TooLong,
    NoRoom(usize),
    LongText,
}

impl From<ReadError> for Refusal {
    ghost from_gives = { λ error refusal. refusal ≡ refusal_of error };

    fn from(error: ReadError) -> Self {
        match error {
            ReadError::Bad(at) => Refusal::BadText(at),
            ReadError::Long => Refusal::LongText,
        }
    }
}

// The row of the table: the number, the length and the byte.
#[derive(Debug, Clone, Copy, PartialEq, Eq)]
pub struct Row {
    pub number: u32,
    pub length: usize,
    pub byte: usize,
}

// The row of an answer.
pub fn told(answer: Result<usize, Refusal>) -> Row
    ensures { (result.number ≡ number_in answer) × (result.length ≡ length_in answer) × (result.byte ≡ byte_in answer) }
{
    let (number, length, byte) = match answer {
        Ok(n) => (0, n, 0),
        Err(Refusal::BadText(at)) => (20, 0, at),
        Err(Refusal::TooDeep) => (21, 0, 0),
        Err(Refusal::Clash) => (22, 0, 0),
        Err(Refusal::TooLong) => (23, 0, 0),
        Err(Refusal::NoRoom(n)) => (24, n, 0),
        Err(Refusal::LongText) => (25, 0, 0),
    };
    Row {
        number,
        length,
        byte,
    }
}
