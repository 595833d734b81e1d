// Graphs are pushed and taken back.
ghost use Rattle.std.specs.Prelude.{◌+◌, ◌<◌};
ghost use Rattle.forest.specs.Outcome.{log_of, clashes};
ghost use Rattle.classes.specs.Holds.{Adding, Adds, Pushing, Pushes, Remembers, Backs, Starts, Labelled, Classed};

use crate::visit::nodes;
use area::log::undo;
use area::map::{Area, HELD, NEXT, NODES, Nodes, PARENT};
use forest::chain::loaded;
use forest::forest::find;
use forest::merge::Clash;
use forest::settle::unite;
use packing::{nodes_of, number_of};

// Nothing is pushed: each number is its own class, which holds nothing.
pub fn start(w: &mut Area)
    ensures { Starts w.old w.new }
{
    for i in 0..NODES {
        w[HELD + i] = 0;
        w[PARENT + i] = i as u32;
        w[NEXT + i] = 0;
        w[NEXT + NODES + i] = 0;
    }
}

// The graph at g, of c nodes from the number `base` on: its root joins all roots, and then its nodes come. The log's entries then.
fn add(w: &mut Area, k: usize, n: Nodes, g: usize, base: usize, c: usize) -> Result<usize, Clash>
    requires { Adding n.count k w.old g base c }
    ensures { Adds n.count k w.old g base c (log_of result) (clashes result) w.new }
{
    let e = unite(w, k, n, 0, base)?;
    nodes(w, e, n, base, g + 1, c)
}

// The graph whose header is at g is pushed where the log has k entries. The log's entries then; or None, where the graph clashes with
// those that are there, and is taken back.
pub fn push(w: &mut Area, k: usize, n: Nodes, g: usize) -> Option<usize>
    requires { Pushing n.count k w.old g }
    ensures { Pushes n.count k w.old g result w.new }
{
    let head = loaded(w, g);
    let c = nodes_of(head);
    let base = number_of(head);
    match add(w, k, n, g, base, c) {
        Ok(e) => Some(e),
        Err(clash) => {
            undo(w, clash.k, k);
            None
        }
    }
}

// Back from k entries in the log to the m of a mark.
pub fn back(w: &mut Area, k: usize, m: usize)
    requires { Remembers m k w.old }
    ensures { Backs m k w.old w.new }
{
    undo(w, k, m);
}

// The class of the number x.
pub fn class_of(w: &Area, n: Nodes, x: usize) -> usize
    requires x_lt_n { x < n.count }
    requires labelled { Labelled n.count w.now }
    ensures { Classed n.count w.now x result }
{
    find(w, n, x)
}
