// A disjunction is settled once its alternatives were tried.
ghost use Rattle.entering.specs.Settled.{Alternating, Settles};

use crate::enter::enter;
use area::map::{Area, Nodes};
use marks::tally::{Remnant, count_kept};

// Of the `count` alternatives from p on: with none left it fails, one that stands alone is entered, and several stay.
pub fn settle(w: &mut Area, k: usize, n: Nodes, p: usize, count: usize, left: u32) -> Option<usize>
    requires { Alternating n.count k w.old p count left }
    ensures { Settles n.count k w.old p count left result w.new }
{
    let tally = count_kept(w, p, count);
    match tally.remnant {
        Remnant::Nothing => None,
        Remnant::One(first) => enter(w, k, n, first, left),
        Remnant::Several(_) => Some(k),
    }
}
