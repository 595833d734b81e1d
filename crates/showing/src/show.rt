// The whole result.
ghost use Rattle.std.specs.Prelude.{◌≡◌, ◌<◌};
ghost use Rattle.area.specs.Map.{SECOND, LOADED};
ghost use Rattle.marks.specs.Positions.{tail_at};
ghost use Rattle.showing.specs.Showing.{disjunctions_in, Showing, Shows};

use crate::put::put_disjunctions;
use area::map::{Area, Nodes, RESULT, SECOND};
use classes::push::back;
use limits::DEPTH_LIMIT;
use marks::positions::{disjunctions_at, tail_at};
use writing::graph::write_graph;

// How many disjunctions both inputs have.
fn disjunctions(w: &Area) -> usize
    requires { (tail_at w.now 0 < LOADED) × (tail_at w.now SECOND < LOADED) }
    ensures { result ≡ disjunctions_in w.now }
{
    let first = disjunctions_at(w, tail_at(w, 0));
    let second = disjunctions_at(w, tail_at(w, SECOND));
    first + second
}

// Writes what the marks leave of the joined description at the start of the result, where the log has k entries and there are n
// numbers. How many words it has. What is pushed is taken back where an input has a disjunction, so that its alternatives can be put
// out, and else stays.
pub fn show(w: &mut Area, k: usize, n: Nodes) -> usize
    requires { Showing n.count k w.old }
    ensures { Shows n.count k w.old result w.new }
{
    let e = write_graph(w, k, n, 0);
    if disjunctions(w) == 0 {
        w[RESULT + e] = 0;
        return e + 1;
    }
    back(w, k, 0);
    let first = put_disjunctions(w, n, 0, DEPTH_LIMIT, e + 1);
    let middle = first.at;
    let second = put_disjunctions(w, n, SECOND, DEPTH_LIMIT, middle);
    let count = first.count + second.count;
    w[RESULT + e] = count as u32;
    second.at
}
