// The arcs and atoms of a graph meet the classes of its nodes.
ghost use Rattle.std.specs.Prelude.{◌≡◌, true, false, ◌+◌, ◌*◌, ◌-◌, ◌≤◌, ◌<◌, get_or};
ghost use Rattle.theory.specs.Limits.{code_limit};
ghost use Rattle.area.specs.Map.{LOADED, NEXT, LOG, ENTRIES, TARGETS, ENTRY_MOST};
ghost use Rattle.area.specs.Log.{Logged};
ghost use Rattle.area.specs.Region.{loaded_words};
ghost use Rattle.forest.specs.Held.{AtomCode};
ghost use Rattle.forest.specs.State.{targets, Coming, Heading, Headed};
ghost use Rattle.forest.specs.Order.{Ordered, Steady, Turning, VisitedInOrder};
ghost use Rattle.forest.specs.Outcome.{log_of, clashes, link_code};
ghost use Rattle.classes.specs.Came.{log_after, link_after};
ghost use Rattle.classes.specs.Nodes.{Follows, Hung, Batched, Run, Noding, Noded, Listing, Listed};

use area::log::put;
use area::map::{Area, HELD, NEXT, Nodes};
use forest::chain::{Start, loaded, locate, rises, target};
use forest::forest::find;
use forest::held::{Held, bears_atom, held_by};
use forest::merge::Clash;
use forest::settle::unite;
use limits::{CODE_LIMIT, wide};

// The log's entries after an arc, and where to look for the next one.
#[derive(Clone, Copy)]
pub struct Came {
    pub k: usize,
    pub at: Start,
}

// From the first arc on, where the chain of the class of x rises.
fn afresh(w: &Area, k: usize, n: Nodes, x: usize) -> Start
    requires x_lt_n { x < n.count }
    requires steady { Steady n.count k w.now }
    ensures { Ordered (loaded_words w.now) n.count w.now x (link_code result) }
{
    let c = find(w, n, x);
    match held_by(w, c) {
        Held::Nothing => Start::First,
        Held::Arcs(chain) => {
            if rises(w, chain) {
                Start::First
            } else {
                Start::Unordered
            }
        }
        Held::Atom(_) => Start::Unordered,
    }
}

// Where to look for the first of the d arcs of x. Where they are few, each is looked for by itself.
fn outset(w: &Area, k: usize, n: Nodes, x: usize, d: usize) -> Start
    requires x_lt_n { x < n.count }
    requires steady { Steady n.count k w.now }
    ensures { Ordered (loaded_words w.now) n.count w.now x (link_code result) }
{
    if d < 4 {
        return Start::Unordered;
    }
    afresh(w, k, n, x)
}

// Where to go on from after a union that took the log from k entries to e: where it took three at most, no chain has changed, and the
// arc r is still on that of the class c.
fn onward(w: &Area, k: usize, e: usize, n: Nodes, x: usize, c: usize, r: usize, at: Start) -> Start
    requires x_lt_n { x < n.count }
    requires r_bound { (r < LOADED) × (k ≤ ENTRIES) }
    requires turning { Turning (loaded_words w.now) n.count k e w.now c r (link_code at) }
    ensures { Ordered (loaded_words w.now) n.count w.now x (link_code result) }
{
    if let Start::Unordered = at {
        return Start::Unordered;
    }
    let d = find(w, n, x);
    if d == c {
        if e <= k + 3 {
            return Start::After(r);
        }
    }
    afresh(w, e, n, x)
}

// y follows the arc t, which nothing follows yet: 0 takes no entry.
fn follow(w: &mut Area, k: usize, t: usize, y: u32) -> usize
    requires t_bound { (t < TARGETS) × (y < ENTRY_MOST) }
    requires logged { Logged k w.old × (k < ENTRIES) }
    requires t_value { get_or w.old (NEXT + t) 0 ≡ 0 }
    ensures { Follows k w.old t y result w.new }
{
    if y == 0 {
        return k;
    }
    put(w, k, NEXT + t, y)
}

// The arc t goes onto a chain at the link l. The next arc is looked for after t, where the chain is known to rise.
fn hang(w: &mut Area, k: usize, t: usize, l: usize, at: Start) -> Came
    requires l_bound { (l < LOG) × (t < TARGETS) }
    requires logged { Logged k w.old × (k + 2 ≤ ENTRIES) }
    requires t_value { get_or w.old (NEXT + t) 0 ≡ 0 }
    ensures { Hung k w.old t l (link_code at) result.k (link_code result.at) w.new }
{
    let y = w[l];
    let e = follow(w, k, t, y);
    let d = put(w, e, l, (t + 1) as u32);
    let at = match at {
        Start::Unordered => Start::Unordered,
        _ => Start::After(t),
    };
    Came { k: d, at }
}

// The arc t of the node x: it goes onto the chain of its class, or its target joins that of the arc there with its feature.
fn visit(w: &mut Area, k: usize, n: Nodes, x: usize, t: usize, at: Start) -> Result<Came, Clash>
    requires x_lt_n { (x < n.count) × (t < TARGETS) }
    requires coming { Coming (loaded_words w.old) (targets w.old) n.count k w.old x t }
    requires ordered { Ordered (loaded_words w.old) n.count w.old x (link_code at) }
    ensures { VisitedInOrder (loaded_words w.old) (targets w.old) n.count k w.old x t (log_after result)
        (link_after result) (clashes result) w.new }
{
    let c = find(w, n, x);
    if bears_atom(w, c) {
        return Err(Clash { k });
    }
    let f = loaded(w, t);
    let place = locate(w, c, f, at);
    let Some(r) = place.arc else {
        return Ok(hang(w, k, t, place.link, at));
    };
    let p = target(w, t);
    let q = target(w, r);
    let e = unite(w, k, n, p, q)?;
    let a = onward(w, k, e, n, x, c, r, at);
    Ok(Came { k: e, at: a })
}

// The atom's head v of the node x meets what its class holds. The log's entries then.
fn mark(w: &mut Area, k: usize, n: Nodes, x: usize, v: u32) -> Result<usize, Clash>
    requires x_lt_n { x < n.count }
    requires atom_code { AtomCode v × (v < ENTRY_MOST) }
    requires heading { Heading (loaded_words w.old) (targets w.old) n.count k w.old x v }
    ensures { Headed (loaded_words w.old) (targets w.old) n.count k w.old x v (log_of result) (clashes result)
        w.new }
{
    let c = find(w, n, x);
    match held_by(w, c) {
        Held::Nothing => Ok(put(w, k, HELD + c, v)),
        Held::Arcs(_) => Err(Clash { k }),
        Held::Atom(h) => { if h == v { Ok(k) } else { Err(Clash { k }) } }
    }
}

// The d arcs of the node x that stand from `from` on. The log's entries then.
fn arcs(w: &mut Area, k: usize, n: Nodes, x: usize, from: usize, d: usize) -> Result<usize, Clash>
    requires x_lt_n { (x < n.count) × (from + 2 * d ≤ LOADED) }
    requires batched { Batched (loaded_words w.old) (targets w.old) n.count k w.old x from d }
    ensures { Run (loaded_words w.old) (targets w.old) n.count k w.old x from d (log_of result)
        (clashes result) w.new }
{
    let at = outset(w, k, n, x, d);
    let mut came = Came { k, at };
    for i in 0..d {
        came = visit(w, came.k, n, x, from + 2 * i, came.at)?;
    }
    Ok(came.k)
}

// The node x, whose head stands at p. The log's entries then.
fn node(w: &mut Area, k: usize, n: Nodes, x: usize, p: usize) -> Result<usize, Clash>
    requires noding { Noding (loaded_words w.old) (targets w.old) n.count k w.old x p }
    ensures { Noded (loaded_words w.old) (targets w.old) n.count k w.old x p (log_of result) (clashes result)
        w.new }
{
    let h = loaded(w, p);
    if h >= CODE_LIMIT {
        return mark(w, k, n, x, h);
    }
    arcs(w, k, n, x, p + 1, wide(h))
}

// How many words a node with the head h takes.
pub fn span(h: u32) -> usize
    ensures { (code_limit ≤ h → result ≡ 1) × (h < code_limit → result ≡ 1 + 2 * h) }
{
    if h >= CODE_LIMIT { 1 } else { 1 + 2 * wide(h) }
}

// The c nodes from x on, the first of which has its head at p. The log's entries then.
pub fn nodes(w: &mut Area, k: usize, n: Nodes, x: usize, p: usize, c: usize) -> Result<usize, Clash>
    requires listing { Listing (loaded_words w.old) (targets w.old) n.count k w.old x p c }
    ensures { Listed (loaded_words w.old) (targets w.old) n.count k w.old x p c (log_of result)
        (clashes result) w.new }
{
    let mut e = k;
    let mut at = p;
    for y in x..x + c {
        e = node(w, e, n, y, at)?;
        at += span(loaded(w, at));
    }
    Ok(e)
}

// One node, x, whose head stands at p: the same as `node`, by the loop that a push goes through, so that the step is there once.
pub fn one_node(w: &mut Area, k: usize, n: Nodes, x: usize, p: usize) -> Result<usize, Clash>
    requires noding { Noding (loaded_words w.old) (targets w.old) n.count k w.old x p }
    ensures { Noded (loaded_words w.old) (targets w.old) n.count k w.old x p (log_of result) (clashes result)
        w.new }
{
    nodes(w, k, n, x, p, 1)
}
