// What is left of a disjunction: which of its alternatives are kept.
ghost use Rattle.std.specs.Prelude.{◌≡◌};
ghost use Rattle.marks.specs.Readable.{Alternatives};
ghost use Rattle.marks.specs.Tallied.{remnant_of, Tallied};

use crate::marking::kept;
use crate::positions::{after_at, mark_at};
use area::map::Area;

// None of the alternatives is left, or one, by its position, or several, by their number: three answers, and none of them a failure.
#[derive(Clone, Copy)]
pub enum Remnant {
    Nothing,
    One(usize),
    Several(usize),
}

// Of some alternatives: what is left of them, and where they end.
#[derive(Clone, Copy)]
pub struct Tally {
    pub remnant: Remnant,
    pub after: usize,
}

// What is left where `found` alternatives are kept, the first of them at `first`.
#[tactic(auto, unfolding(crate::specs::Tallied::remnant_of))]
fn remnant_of(found: usize, first: usize) -> Remnant
    ensures { result ≡ remnant_of found first }
{
    match found {
        0 => Remnant::Nothing,
        1 => Remnant::One(first),
        _ => Remnant::Several(found),
    }
}

// Tells what is left of the `count` alternatives from p on.
pub fn count_kept(w: &Area, p: usize, count: usize) -> Tally
    requires { Alternatives w.now p count }
    ensures { (s : Alternatives w.now p count) → Tallied w.now s result.remnant result.after }
{
    let mut at = p;
    let mut first = p;
    let mut found: usize = 0;
    for _ in 0..count {
        let here = kept(w, mark_at(w, at));
        at = after_at(w, at);
        if here {
            found += 1;
        } else if found == 0 {
            first = at;
        }
    }
    Tally {
        remnant: remnant_of(found, first),
        after: at,
    }
}
