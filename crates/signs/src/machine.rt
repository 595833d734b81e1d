// What a byte does: the place in a formula before it, and after it.
ghost use Rattle.std.specs.Prelude.{◌≡◌, ◌<◌, ◌≤◌};
ghost use Rattle.signs.specs.Limits.{largest_number, formula_limit};
ghost use Rattle.signs.specs.Machine.{seen_at, started, after_sign, numeral, longer, within_sign, stepped, Small};

// "Numbers go to 65,535"
const LARGEST: u32 = 65535;

// Which sign may come next.
#[derive(Clone, Copy)]
pub enum Due {
    Operand,
    Colon,
    Path,
    Steps,
    Listed,
    After,
}

// What of a sign stands there: of `NIL`, of `TOP`, or the letter before a number.
#[derive(Clone, Copy)]
pub enum Part {
    N,
    Ni,
    T,
    To,
    Atom,
    Arc,
    Step,
}

// The text's start; after a sign; after a space; after a number, which may have more digits; within a sign.
#[derive(Clone, Copy)]
pub enum Place {
    Start,
    Clean(Due),
    Spaced(Due),
    Number(Due, u32),
    Within(Part),
}

// The place after a byte, and how many groups are open there.
#[derive(Clone, Copy)]
pub struct Seen {
    pub place: Place,
    pub groups: usize,
}

// A formula can go on from this place.
fn seen_at(place: Place, groups: usize) -> Option<Seen>
    ensures { result ≡ seen_at place groups }
{
    Some(Seen { place, groups })
}

// A unit's first byte.
#[tactic(auto, unfolding(crate::specs::Machine::started))]
fn unit(groups: usize, b: u8) -> Option<Seen>
    requires { groups < formula_limit }
    ensures { result ≡ started Due.Operand groups b }
{
    match b {
        b'N' => seen_at(Place::Within(Part::N), groups),
        b'T' => seen_at(Place::Within(Part::T), groups),
        b'a' => seen_at(Place::Within(Part::Atom), groups),
        b'f' => seen_at(Place::Within(Part::Arc), groups),
        b'[' => seen_at(Place::Clean(Due::Path), groups),
        b'(' => seen_at(Place::Clean(Due::Operand), groups + 1),
        _ => None,
    }
}

// What follows a unit.
#[tactic(auto, unfolding(crate::specs::Machine::started))]
fn after(groups: usize, b: u8) -> Option<Seen>
    ensures { result ≡ started Due.After groups b }
{
    match b {
        b'&' | b'|' => seen_at(Place::Clean(Due::Operand), groups),
        b')' if 0 < groups => seen_at(Place::Clean(Due::After), groups - 1),
        _ => None,
    }
}

// A sign's first byte.
#[tactic(auto, unfolding(crate::specs::Machine::started))]
fn start(due: Due, groups: usize, b: u8) -> Option<Seen>
    requires { groups < formula_limit }
    ensures { result ≡ started due groups b }
{
    match (due, b) {
        (Due::Operand, _) => unit(groups, b),
        (Due::Colon, b':') => seen_at(Place::Clean(Due::Operand), groups),
        (Due::Path, b'<') => seen_at(Place::Clean(Due::Steps), groups),
        (Due::Steps, b'f') => seen_at(Place::Within(Part::Step), groups),
        (Due::Steps, b'>') => seen_at(Place::Clean(Due::Listed), groups),
        (Due::Listed, b',') => seen_at(Place::Clean(Due::Path), groups),
        (Due::Listed, b']') => seen_at(Place::Clean(Due::After), groups),
        (Due::After, _) => after(groups, b),
        _ => None,
    }
}

// A space or a sign's first byte.
fn next(due: Due, groups: usize, b: u8) -> Option<Seen>
    requires { groups < formula_limit }
    ensures { result ≡ after_sign due groups b }
{
    if b == b' ' {
        seen_at(Place::Spaced(due), groups)
    } else {
        start(due, groups, b)
    }
}

// A number's first digit.
#[tactic(auto, unfolding(crate::specs::Machine::digit_byte))]
fn first_digit(due: Due, groups: usize, b: u8) -> Option<Seen>
    ensures { result ≡ numeral due groups b }
{
    if b.is_ascii_digit() {
        seen_at(Place::Number(due, u32::from(b - b'0')), groups)
    } else {
        None
    }
}

// A number's further digit: no 0 leads, and numbers go to 65,535.
fn further_digit(due: Due, value: u32, groups: usize, b: u8) -> Option<Seen>
    requires { (value ≤ largest_number) × (47 < b) }
    ensures { result ≡ longer due value groups b }
{
    if value == 0 {
        return None;
    }
    let more = value * 10 + u32::from(b - b'0');
    if LARGEST < more {
        return None;
    }
    seen_at(Place::Number(due, more), groups)
}

// After a digit.
#[tactic(auto, unfolding(crate::specs::Machine::stepped, crate::specs::Machine::digit_byte))]
fn number(due: Due, value: u32, groups: usize, b: u8) -> Option<Seen>
    requires { (groups < formula_limit) × (value ≤ largest_number) }
    ensures { result ≡ stepped (Place.Number due value) groups b }
{
    if b.is_ascii_digit() {
        further_digit(due, value, groups, b)
    } else {
        next(due, groups, b)
    }
}

// Within a sign.
#[tactic(auto, unfolding(crate::specs::Machine::within_sign))]
fn inner(part: Part, groups: usize, b: u8) -> Option<Seen>
    ensures { result ≡ within_sign part groups b }
{
    match (part, b) {
        (Part::N, b'I') => seen_at(Place::Within(Part::Ni), groups),
        (Part::Ni, b'L') => seen_at(Place::Clean(Due::After), groups),
        (Part::T, b'O') => seen_at(Place::Within(Part::To), groups),
        (Part::To, b'P') => seen_at(Place::Clean(Due::After), groups),
        (Part::Atom, _) => first_digit(Due::After, groups, b),
        (Part::Arc, _) => first_digit(Due::Colon, groups, b),
        (Part::Step, _) => first_digit(Due::Steps, groups, b),
        _ => None,
    }
}

// A byte, wherever it stands: none where no formula can go on.
#[tactic(auto, unfolding(crate::specs::Machine::stepped))]
pub(crate) fn step(place: Place, groups: usize, b: u8) -> Option<Seen>
    requires { (groups < formula_limit) × Small place }
    ensures { result ≡ stepped place groups b }
{
    match place {
        Place::Start => start(Due::Operand, groups, b),
        Place::Clean(due) | Place::Spaced(due) => next(due, groups, b),
        Place::Number(due, value) => number(due, value, groups, b),
        Place::Within(part) => inner(part, groups, b),
    }
}
