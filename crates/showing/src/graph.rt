// The graph of a description, joined with all that is certain in it.
ghost use Rattle.showing.specs.Putting.{Describing, LeadPut};

use crate::copy::copy_graph;
use crate::lone::lone;
use area::map::{Area, Nodes};
use classes::push::back;
use entering::enter::enter;
use writing::graph::write_graph;

// Writes all that is certain in the description at g, joined: it is entered and taken back.
fn join_graph(w: &mut Area, n: Nodes, g: usize, left: u32, o: usize) -> usize
    requires { Describing n.count w.old g left o }
    ensures { LeadPut n.count w.old g left o result w.new }
{
    let Some(k) = enter(w, 0, n, g, left) else {
        return o;
    };
    let r = write_graph(w, k, n, o);
    back(w, k, 0);
    r
}

// Writes the graph of the description at g at o of the result. Where it ends. A graph that nothing is joined to is copied, at the cost
// of its own words.
pub fn put_graph(w: &mut Area, n: Nodes, g: usize, left: u32, o: usize) -> usize
    requires { Describing n.count w.old g left o }
    ensures { LeadPut n.count w.old g left o result w.new }
{
    if lone(w, g) {
        return join_graph(w, n, g, left, o);
    }
    copy_graph(w, g, o)
}
