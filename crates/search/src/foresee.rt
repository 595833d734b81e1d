// What comes of an alternative is told without entering it, where that is plain.
ghost use Rattle.search.specs.Foreseen.{Foreseeing, Foresees};

use area::map::{Area, Nodes};
use marks::positions::{disjunctions_at, tail_at};
use trying::guess::guess;
use trying::told::Guess;

// Of the alternative at g, where `left` frames are still to be gone through: it clashes, or it agrees and nothing is left with it or
// after it.
pub fn foresee(w: &Area, k: usize, n: Nodes, g: usize, left: usize) -> Guess
    requires { Foreseeing n.count k w.now g left }
    ensures { Foresees n.count k w.now g left result }
{
    let told = guess(w, k, n, g);
    let Guess::Agrees = told else {
        return told;
    };
    if left != 0 {
        return Guess::Unsure;
    }
    let e = tail_at(w, g);
    let more = disjunctions_at(w, e);
    if more != 0 {
        return Guess::Unsure;
    }
    Guess::Agrees
}
