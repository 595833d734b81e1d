// A merge of two classes.
// It puts one chain before the other and leaves a frame on the stack: the part of the chain that came, up to what was there, whose arcs
// have yet to be compared with those after it.
// The log's entries k stay a number of their own beside w and n: callers keep them as marks to go back to, and most steps give them alone.
ghost use Rattle.std.specs.Prelude.{◌≡◌, true, false, ◌<◌};
ghost use Rattle.area.specs.Map.{NODES};
ghost use Rattle.forest.specs.declared.held.Held.TheVariants.{Arcs};
ghost use Rattle.forest.specs.Held.{held_by, Covered};
ghost use Rattle.forest.specs.Roots.{Fusing, ByItself};
ghost use Rattle.forest.specs.State.{SomeState, Merged, AdoptedNew};
ghost use Rattle.forest.specs.Outcome.{entries_of, frames_of, clashes};

use crate::chain::last;
use crate::forest::{adopt, find, link, yields};
use crate::held::{Held, held_by};
use area::log::put;
use area::map::{Area, FRAME_STEP, HELD, NEXT, Nodes, PARENT, STACK};

// The log's entries and the frames on the stack after a step.
#[derive(Clone, Copy)]
pub struct Progress {
    pub k: usize,
    pub s: usize,
}

// A step met a clash: the entries of the log, which the caller takes back.
#[derive(Clone, Copy, Debug, PartialEq, Eq)]
pub struct Clash {
    pub k: usize,
}

// Whether a class that holds `there` holds what comes: nothing comes, or the same atom.
fn covered(came: Held, there: Held) -> bool
    ensures { (result ≡ true → Covered came there) × (result ≡ false → Covered came there → ⊥) }
{
    match came {
        Held::Nothing => true,
        Held::Arcs(_) => false,
        Held::Atom(u) => match there {
            Held::Nothing | Held::Arcs(_) => false,
            Held::Atom(v) => u == v,
        },
    }
}

// The class b goes under the class a, which holds what b holds. The log's entries after it.
fn tuck(w: &mut Area, k: usize, s: usize, n: Nodes, a: usize, b: usize) -> usize
    requires fusing { Fusing n.count w.old a b }
    requires covered { Covered (held_by w.old b) (held_by w.old a) }
    requires some_state { SomeState n.count k s w.old }
    ensures { Merged n.count k s w.old a b result s false w.new }
{
    link(w, k, n, a, b)
}

// The node b, a class by itself that holds nothing, goes under the class a. The log's entries after it.
fn take_in(w: &mut Area, k: usize, s: usize, n: Nodes, a: usize, b: usize) -> usize
    requires fusing { Fusing n.count w.old a b × ByItself w.old b }
    requires some_state { SomeState n.count k s w.old }
    ensures { Merged n.count k s w.old a b result s false w.new }
{
    adopt(w, k, n, a, b)
}

// The class b goes under the class a, where both have chains, from p and from q.
fn knit(
    w: &mut Area,
    k: usize,
    s: usize,
    n: Nodes,
    a: usize,
    b: usize,
    p: usize,
    q: usize,
) -> Progress
    requires fusing { Fusing n.count w.old a b }
    requires b_value { (held_by w.old b ≡ Arcs p) × (held_by w.old a ≡ Arcs q) }
    requires some_state { SomeState n.count k s w.old }
    ensures { Merged n.count k s w.old a b result.k result.s false w.new }
{
    let x = p as u32;
    let y = q as u32;
    let z = last(w, p);
    let e = link(w, k, n, a, b);
    let d = put(w, e, NEXT + z, y);
    let c = put(w, d, HELD + a, x);
    w[STACK + s] = x + FRAME_STEP * y;
    Progress { k: c, s: s + 1 }
}

// The class b goes under the class a.
fn fuse(w: &mut Area, k: usize, s: usize, n: Nodes, a: usize, b: usize) -> Result<Progress, Clash>
    requires fusing { Fusing n.count w.old a b }
    requires some_state { SomeState n.count k s w.old }
    ensures { Merged n.count k s w.old a b (entries_of result) (frames_of s result) (clashes result) w.new }
{
    let came = held_by(w, b);
    if let Held::Nothing = came {
        return Ok(Progress {
            k: tuck(w, k, s, n, a, b),
            s,
        });
    }
    let there = held_by(w, a);
    if let Held::Nothing = there {
        let h = w[HELD + b];
        let e = link(w, k, n, a, b);
        let d = put(w, e, HELD + a, h);
        return Ok(Progress { k: d, s });
    }
    if covered(came, there) {
        return Ok(Progress {
            k: tuck(w, k, s, n, a, b),
            s,
        });
    }
    let Held::Arcs(p) = came else {
        return Err(Clash { k });
    };
    let Held::Arcs(q) = there else {
        return Err(Clash { k });
    };
    Ok(knit(w, k, s, n, a, b, p, q))
}

// The classes of x and y become one, whichever they are.
pub fn blend(
    w: &mut Area,
    k: usize,
    s: usize,
    n: Nodes,
    x: usize,
    y: usize,
) -> Result<Progress, Clash>
    requires x_lt_n { (x < n.count) × (y < n.count) }
    requires some_state { SomeState n.count k s w.old }
    ensures { Merged n.count k s w.old x y (entries_of result) (frames_of s result) (clashes result) w.new }
{
    let a = find(w, n, x);
    let b = find(w, n, y);
    if a == b {
        return Ok(Progress { k, s });
    }
    if yields(w, b, a) {
        return fuse(w, k, s, n, a, b);
    }
    fuse(w, k, s, n, b, a)
}

// Whether y is a class by itself that holds nothing, as a node is that has just come.
fn is_by_itself(w: &Area, y: usize) -> bool
    requires { y < NODES }
    ensures { result ≡ true → ByItself w.now y }
{
    w[PARENT + y] == y as u32 && w[HELD + y] == 0
}

// Of x and y, one that is a class by itself goes under the other's class at once where that has the lower number. The log's entries after
// it; or None, where none of them did.
pub fn adopt_new(w: &mut Area, k: usize, s: usize, n: Nodes, x: usize, y: usize) -> Option<usize>
    requires x_lt_n { (x < n.count) × (y < n.count) }
    requires some_state { SomeState n.count k s w.old }
    ensures { AdoptedNew n.count k s w.old x y result w.new }
{
    if is_by_itself(w, y) {
        let a = find(w, n, x);
        if a < y {
            return Some(take_in(w, k, s, n, a, y));
        }
    }
    if is_by_itself(w, x) {
        let b = find(w, n, y);
        if b < x {
            return Some(take_in(w, k, s, n, b, x));
        }
    }
    None
}

// The classes of x and y become one.
pub fn join(
    w: &mut Area,
    k: usize,
    s: usize,
    n: Nodes,
    x: usize,
    y: usize,
) -> Result<Progress, Clash>
    requires x_lt_n { (x < n.count) × (y < n.count) }
    requires some_state { SomeState n.count k s w.old }
    ensures { Merged n.count k s w.old x y (entries_of result) (frames_of s result) (clashes result) w.new }
{
    match adopt_new(w, k, s, n, x, y) {
        Some(e) => Ok(Progress { k: e, s }),
        None => blend(w, k, s, n, x, y),
    }
}
