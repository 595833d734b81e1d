// What a class holds: nothing, a chain of arcs, or an atom. HELD + c has it for the class c.
ghost use Rattle.std.specs.Prelude.{◌≡◌, ◌<◌};
ghost use Rattle.area.specs.Map.{NODES};
ghost use Rattle.forest.specs.Held.{held_by, bears};

use area::map::{Area, HELD};
use limits::wide;

// A chain by its first arc, counted from 1, or an atom by its head: three contents of a class, and none of them a failure.
#[derive(Clone, Copy)]
pub enum Held {
    Nothing,
    Arcs(usize),
    Atom(u32),
}

// The code of an arc is this at most, and an atom's head is above it.
const LAST_ARC: u32 = 2048;

// What the class c holds.
pub fn held_by(w: &Area, c: usize) -> Held
    requires { c < NODES }
    ensures { result ≡ held_by w.now c }
{
    let h = w[HELD + c];
    if h > LAST_ARC {
        return Held::Atom(h);
    }
    if h == 0 {
        return Held::Nothing;
    }
    Held::Arcs(wide(h))
}

// Whether the class c holds an atom.
pub fn bears_atom(w: &Area, c: usize) -> bool
    requires { c < NODES }
    ensures { result ≡ bears (held_by w.now c) }
{
    w[HELD + c] > LAST_ARC
}
