// STACK + c, which is free once both graphs are pushed, has a note of what the class c bears: 0 nothing, 1 arcs, 2 a clash, or the head
// of its atom.
ghost use Rattle.std.specs.Prelude.{◌≡◌, ◌+◌, ◌≤◌, ◌<◌};
ghost use Rattle.area.specs.Map.{NODES};
ghost use Rattle.finding_clash.specs.Notes.{Mixes, engine_number, NotesAsked, NotesOne, NotesAll, ClashSought};

use area::clearing::clear;
use area::map::{Area, MARKS, Nodes, STACK};
use forest::forest::find;
use limits::CODE_LIMIT;

const ARCS: u32 = 1;

const CLASH: u32 = 2;

// The note v where the head h comes.
fn mix(v: u32, h: u32) -> u32
    ensures { Mixes v h result }
{
    if h == 0 {
        return v;
    }
    if v == 0 {
        return if h < CODE_LIMIT { ARCS } else { h };
    }
    if v == h {
        return v;
    }
    if v == ARCS {
        return if h < CODE_LIMIT { ARCS } else { CLASH };
    }
    CLASH
}

// The number by which the engine knows node i, where the first graph has c nodes, and node 0 of the second has the number b.
fn engine_number(i: usize, c: usize, b: usize) -> usize
    requires { (i < NODES) × (b ≤ NODES) }
    ensures { result ≡ engine_number c b i }
{
    if i < c { i } else { b + (i - c) }
}

// The head of node i is noted.
fn note_head(w: &mut Area, n: Nodes, c: usize, b: usize, i: usize, m: usize)
    requires i_lt_m { (i < m) × (b ≤ NODES) }
    requires notes_asked { NotesAsked n.count c b m w.old }
    ensures { NotesOne n.count c b i w.old w.new }
{
    let x = engine_number(i, c, b);
    let r = find(w, n, x);
    let v = w[STACK + r];
    let h = w[MARKS + i];
    w[STACK + r] = mix(v, h);
}

// The heads of all m nodes are noted.
pub(crate) fn note_heads(w: &mut Area, n: Nodes, c: usize, b: usize, m: usize)
    requires b_bound { b ≤ NODES }
    requires notes_asked { NotesAsked n.count c b m w.old }
    ensures { NotesAll n.count c b m w.old w.new }
{
    clear(w, STACK, n.count);
    for i in 0..m {
        note_head(w, n, c, b, i, m);
    }
}

// The first of m nodes whose class has a clash noted, or m.
pub(crate) fn first_clash(w: &Area, n: Nodes, c: usize, b: usize, m: usize) -> usize
    requires b_bound { b ≤ NODES }
    requires notes_asked { NotesAsked n.count c b m w.now }
    ensures { ClashSought n.count c b m w.now result }
{
    for i in 0..m {
        let x = engine_number(i, c, b);
        let r = find(w, n, x);
        if w[STACK + r] == CLASH {
            return i;
        }
    }
    m
}
