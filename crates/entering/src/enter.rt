// A description is entered: its graph and all that is certain in it are pushed.
ghost use Rattle.entering.specs.Entered.{Entering, Enters};

use area::map::{Area, Nodes};
use classes::push::{back, push};
use marks::positions::{alternatives_at, disjunctions_at, tail_at};
use marks::tally::{Remnant, count_kept};

// Pushes the graph at g and, of each disjunction after it with one alternative left, that alternative in the same way. How many entries
// the log has then; a clash takes all of it back.
pub fn enter(w: &mut Area, k: usize, n: Nodes, g: usize, left: u32) -> Option<usize>
    requires { Entering n.count k w.old g left }
    ensures { Enters n.count k w.old g left result w.new }
{
    let mut log = push(w, k, n, g)?;
    let e = tail_at(w, g);
    let more = disjunctions_at(w, e);
    let mut at = e + 1;
    for _ in 0..more {
        let count = alternatives_at(w, at);
        let tally = count_kept(w, at + 1, count);
        if let Remnant::One(first) = tally.remnant {
            let Some(inner) = enter(w, log, n, first, left - 1) else {
                back(w, log, k);
                return None;
            };
            log = inner;
        }
        at = tally.after;
    }
    Some(log)
}
