// Whether something beside its own graph is certain in a description.
ghost use Rattle.std.specs.Prelude.{ℕ};
ghost use Rattle.marks.specs.Readable.{Readable};
ghost use Rattle.showing.specs.Alone.{Looks};

use area::map::Area;
use marks::positions::{alternatives_at, disjunctions_at, tail_at};
use marks::tally::{Remnant, count_kept};

// Has the description at g a disjunction with one alternative left?
pub fn lone(w: &Area, g: usize) -> bool
    requires { (left : ℕ) × Readable w.now g left }
    ensures { Looks w.now g result }
{
    let e = tail_at(w, g);
    let more = disjunctions_at(w, e);
    let mut at = e + 1;
    for _ in 0..more {
        let of = alternatives_at(w, at);
        let tally = count_kept(w, at + 1, of);
        if let Remnant::One(_) = tally.remnant {
            return true;
        }
        at = tally.after;
    }
    false
}
