// The node where two loaded definite graphs clash.
ghost use Rattle.finding_clash.specs.TwoGraphs.{Stripping, Strips, BothPushing, BothPushes, Locating, Locates};

use crate::heads::bare;
use crate::notes::{first_clash, note_heads};
use area::map::{Area, Nodes, SECOND, WORDS};
use classes::push::{push, start};
use packing::{nodes_of, number_of};

// The atoms of both graphs, which have c and d nodes, are taken out.
fn strip(w: &mut Area, c: usize, d: usize)
    requires { Stripping w.old c d }
    ensures { Strips w.old c d w.new }
{
    bare(w, WORDS + 1, c, 0);
    bare(w, WORDS + SECOND + 1, d, c);
}

// Both graphs, which do not clash, are pushed: there are n numbers.
fn push_both(w: &mut Area, n: Nodes)
    requires { BothPushing n.count w.old }
    ensures { BothPushes n.count w.old w.new }
{
    start(w);
    let Some(k) = push(w, 0, n, 0) else {
        return;
    };
    push(w, k, n, SECOND);
}

// The smallest node, counting the first graph's nodes and then the second's, whose class holds a clash. Nothing of the area is of use
// afterwards.
pub fn clash_node(w: &mut Area) -> usize
    requires { Locating w.old }
    ensures { Locates w.old result w.new }
{
    let c = nodes_of(w[WORDS]);
    let second = w[WORDS + SECOND];
    let d = nodes_of(second);
    let b = number_of(second);
    let n = Nodes { count: b + d };
    strip(w, c, d);
    push_both(w, n);
    note_heads(w, n, c, b, c + d);
    first_clash(w, n, c, b, c + d)
}
