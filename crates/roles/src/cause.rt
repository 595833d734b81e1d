// Why words are no description.
ghost use Rattle.std.specs.Prelude.{◌≡◌};
ghost use Rattle.roles.specs.Coded.{cause_of};
ghost use Rattle.roles.specs.Causes.{cause_number, cause_data};

// The nine causes, in request Two's order; some have data of their own.
#[derive(Clone, Copy, Debug, PartialEq, Eq)]
pub enum Cause {
    WordsEnd,
    WordsLeftOver,
    NoNodes,
    BadHead(u32),
    BadFeature,
    BadTarget(u32),
    NotMet,
    FewAlternatives,
    TooDeep,
}

// The number of a cause, 1 to 9, as the C interface has it (`bublastyr_malformed`).
pub fn cause_number(cause: Cause) -> u32
    ensures { result ≡ cause_number (cause_of cause) }
{
    match cause {
        Cause::WordsEnd => 1,
        Cause::WordsLeftOver => 2,
        Cause::NoNodes => 3,
        Cause::BadHead(_) => 4,
        Cause::BadFeature => 5,
        Cause::BadTarget(_) => 6,
        Cause::NotMet => 7,
        Cause::FewAlternatives => 8,
        Cause::TooDeep => 9,
    }
}

// The head or the target that is told; 0 for the other causes.
pub fn cause_data(cause: Cause) -> u32
    ensures { result ≡ cause_data (cause_of cause) }
{
    match cause {
        Cause::BadHead(word) | Cause::BadTarget(word) => word,
        _ => 0,
    }
}
