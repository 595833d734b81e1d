// Both inputs are put into the working area, and their definite graphs pushed: where every mode begins.
#![tactic(auto)]

ghost use Rattle.opening.specs.Opening.{Pairing, Paired, Opening, Opens};

use area::map::{Area, MARKS, Nodes, SECOND, WORDS};
use classes::push::{push, start};
use loading::loading::load;

// The definite graphs join: how many nodes there are, and how many entries the log has.
#[derive(Clone, Copy, Debug, PartialEq, Eq)]
pub struct Opened {
    pub nodes: Nodes,
    pub log: usize,
}

// Loads both inputs into the words t. The number of their nodes.
fn load_both(t: &mut [u32], a: &[u32], b: &[u32]) -> usize
    requires { Pairing t.old a.now b.now }
    ensures { Paired t.old a.now b.now result t.new }
{
    let m = load(t, a, 0, 0);
    load(t, b, SECOND, m)
}

// Loads both inputs and pushes their definite graphs. None, where these clash.
pub fn open(w: &mut Area, a: &[u32], b: &[u32]) -> Option<Opened>
    requires { Opening w.old a.now b.now }
    ensures { Opens w.old a.now b.now result w.new }
{
    let count = load_both(&mut w[WORDS..MARKS], a, b);
    start(w);
    let nodes = Nodes { count };
    let first = push(w, 0, nodes, 0)?;
    let log = push(w, first, nodes, SECOND)?;
    Some(Opened { nodes, log })
}
