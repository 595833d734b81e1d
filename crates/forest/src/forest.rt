// Classes as a forest in the working area. The word PARENT + i of a node i has the number of its parent. A root is its own parent, and its
// word tells besides how many nodes its class has.
ghost use Rattle.std.specs.Prelude.{◌≡◌, ◌+◌, ◌≤◌, ◌<◌, get_or};
ghost use Rattle.area.specs.Map.{PARENT, NODES, ENTRIES, ENTRY_MOST};
ghost use Rattle.area.specs.Log.{Logged, Stores};
ghost use Rattle.forest.specs.Forest.{parents, size_of, root_word, Shape, Root};
ghost use Rattle.forest.specs.Roots.{YieldTold, Linking, Linked, ByItself};

use area::log::put;
use area::map::{Area, Nodes, PARENT};
use limits::wide;

// A root's word is its number, and this times how many nodes its class has beside it.
const SIZE_STEP: u32 = 1024;

// The word of the root c whose class has as many nodes.
fn root_word(c: usize, nodes: usize) -> u32
    requires { (c < NODES) × ((0 < nodes) × (nodes ≤ NODES)) }
    ensures { result ≡ root_word c nodes }
{
    c as u32 + SIZE_STEP * (nodes - 1) as u32
}

// How many nodes the class of the root c has.
fn class_size(w: &Area, c: usize) -> usize
    requires { c < NODES }
    ensures { result ≡ size_of (get_or w.now (PARENT + c) 0) }
{
    wide(w[PARENT + c] / SIZE_STEP) + 1
}

// The parent of x.
fn parent(w: &Area, n: Nodes, x: usize) -> usize
    requires x_lt_n { x < n.count }
    requires shape { Shape (parents n.count w.now) }
    ensures { (result ≡ get_or (parents n.count w.now) x 0) × (result < n.count) }
{
    wide(w[PARENT + x] % SIZE_STEP)
}

// The root of i, ten steps up at most.
pub fn find(w: &Area, n: Nodes, i: usize) -> usize
    requires i_lt_n { i < n.count }
    requires shape { Shape (parents n.count w.now) }
    ensures { Root n.count w.now i result }
{
    let mut x = i;
    let mut p = parent(w, n, x);
    while p != x {
        x = p;
        p = parent(w, n, x);
    }
    x
}

// Whether the root b is to go under the root a: its class has fewer nodes, or as many and the greater number.
pub fn yields(w: &Area, b: usize, a: usize) -> bool
    requires a_bound { (a < NODES) × (b < NODES) }
    requires fact { a ≡ b → ⊥ }
    ensures { YieldTold w.now b a result }
{
    let m = class_size(w, b);
    let k = class_size(w, a);
    if m == k {
        return a < b;
    }
    m < k
}

// The word of the root a becomes v.
fn put_root(w: &mut Area, k: usize, a: usize, v: u32) -> usize
    requires logged { Logged k w.old }
    requires a_bound { (a < NODES) × ((k < ENTRIES) × (v < ENTRY_MOST)) }
    ensures { Stores k w.old (PARENT + a) v result w.new }
{
    put(w, k, PARENT + a, v)
}

// The root b goes under the root a, whose word then tells the nodes of both classes.
pub fn link(w: &mut Area, k: usize, n: Nodes, a: usize, b: usize) -> usize
    requires linking { Linking n.count k w.old a b }
    ensures { Linked n.count k w.old a b result w.new }
{
    let there = class_size(w, a);
    let came = class_size(w, b);
    let v = root_word(a, there + came);
    let e = put(w, k, PARENT + b, a as u32);
    put_root(w, e, a, v)
}

// The node b, a class by itself, goes under the root a, whose word then tells one node more.
pub fn adopt(w: &mut Area, k: usize, n: Nodes, a: usize, b: usize) -> usize
    requires linking { Linking n.count k w.old a b × ByItself w.old b }
    ensures { Linked n.count k w.old a b result w.new }
{
    let v = w[PARENT + a] + SIZE_STEP;
    let e = put(w, k, PARENT + b, a as u32);
    put_root(w, e, a, v)
}
