// The nodes of the joined graph, in the order of their numbers.
ghost use Rattle.std.specs.Prelude.{◌≡◌, ℕ, ◌+◌, get_or};
ghost use Rattle.area.specs.Map.{STACK};
ghost use Rattle.writing.specs.Writing.{NodeWriting, NodeWritten, NodesWriting, NodesWritten, Writing, Writes};

use crate::arcs::{Place, arcs, number};
use area::clearing::clear;
use area::map::{Area, LOG, Nodes, RESULT, STACK};
use forest::forest::find;
use forest::held::{Held, held_by};
use limits::wide;

// Writes the node with the number i at `at` of the result, where m classes are met.
fn node(w: &mut Area, k: usize, n: Nodes, i: usize, at: usize, m: usize) -> Place
    requires { NodeWriting n.count k w.old i at m }
    ensures { NodeWritten n.count k w.old i at m result.at result.met w.new }
{
    let c = wide(w[LOG + k + i]);
    let x = match held_by(w, c) {
        Held::Nothing => 0,
        Held::Arcs(chain) => chain,
        Held::Atom(h) => {
            w[RESULT + at] = h;
            return Place { at: at + 1, met: m };
        }
    };
    let p = arcs(w, k, n, x, at + 1, m);
    let e = p.at;
    w[RESULT + at] = ((e - at) / 2) as u32;
    p
}

// Writes all nodes from `from` of the result on, where the class of the root is met.
fn nodes(w: &mut Area, k: usize, n: Nodes, from: usize) -> Place
    requires { NodesWriting n.count k w.old from }
    ensures { NodesWritten n.count k w.old from result.at result.met w.new }
{
    let mut at = from;
    let mut met: usize = 1;
    // While a node is written more classes may be met, so these are not the numbers of a range.
    let mut i: usize = 0;
    while i < met {
        let p = node(w, k, n, i, at, met);
        at = p.at;
        met = p.met;
        i += 1;
    }
    Place { at, met }
}

// Writes the joined graph of the pushed graphs at o of the result, where the log has k entries and there are n numbers. Where it ends.
pub fn write_graph(w: &mut Area, k: usize, n: Nodes, o: usize) -> usize
    requires { Writing n.count k w.old o }
    ensures { Writes n.count k w.old o result w.new }
{
    clear(w, STACK, n.count);
    let c = find(w, n, 0);
    number(w, k, n, c, 0);
    let p = nodes(w, k, n, o + 1);
    w[RESULT + o] = p.met as u32;
    p.at
}
