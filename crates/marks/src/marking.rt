// The marks, a word for each alternative under the number that loading gave it, those of a disjunction together.
ghost use Rattle.std.specs.Prelude.{◌≡◌, ◌≤◌, ◌<◌};
ghost use Rattle.area.specs.Map.{NODES};
ghost use Rattle.marks.specs.Marked.{marking, Dropped, Cleared, Lighted, Changed, dimmed, LitKept, doused, Doused};

use area::clearing::clear;
use area::map::{Area, MARKS, NODES, Nodes};

// What a mark says of its alternative: it is kept, or dropped, or kept and found to stand in a consistent choice.
const KEPT: u32 = 0;

const DROPPED: u32 = 1;

const FOUND: u32 = 2;

// Is the alternative x kept?
pub fn kept(w: &Area, x: usize) -> bool
    requires { x < NODES }
    ensures { result ≡ marking w.now x }
{
    w[MARKS + x] != DROPPED
}

// Drops the alternative x.
pub fn drop(w: &mut Area, x: usize)
    requires { x < NODES }
    ensures { Dropped w.old x w.new }
{
    w[MARKS + x] = DROPPED;
}

// Keeps all alternatives.
pub fn clear_marks(w: &mut Area)
    ensures { Cleared w.old w.new }
{
    clear(w, MARKS, NODES);
}

// The alternative x, which is kept, was found.
pub fn light(w: &mut Area, x: usize)
    requires { x < NODES }
    ensures { Lighted w.old x w.new }
{
    w[MARKS + x] = FOUND;
}

// Each of the marks below n becomes what `change` makes of it.
fn change_marks<F: Fn(u32) -> u32>(w: &mut Area, n: usize, change: F)
    requires n_bound { n ≤ NODES }
    requires callable { F.IsAlwaysCallable change }
    ensures { Changed (F.post change) n w.old w.new }
{
    for mark in &mut w[MARKS..MARKS + n] {
        *mark = change(*mark);
    }
}

// A mark, once only those found are kept.
#[tactic(auto, unfolding(crate::specs::Marked::dimmed))]
fn dim(v: u32) -> u32
    ensures { result ≡ dimmed v }
{
    if v == FOUND { FOUND } else { DROPPED }
}

// Of the alternatives below n only those found are kept.
pub fn keep_lit(w: &mut Area, n: Nodes)
    ensures { LitKept w.old n.count w.new }
{
    change_marks(w, n.count, dim);
}

// A mark, where none is found.
#[tactic(auto, unfolding(crate::specs::Marked::doused))]
fn doused(v: u32) -> u32
    ensures { result ≡ doused v }
{
    if v == DROPPED { DROPPED } else { KEPT }
}

// Of all alternatives none is found.
pub fn douse(w: &mut Area)
    ensures { Doused w.old w.new }
{
    change_marks(w, NODES, doused);
}
