// A flat graph is tried on the classes of the graphs that are pushed, and nothing is written. Its root has an arc to each of its other
// nodes, in order, and each of these is a leaf: it bears an atom or says nothing.
ghost use Rattle.std.specs.Prelude.{◌+◌, ◌*◌, ◌≤◌, ◌<◌};
ghost use Rattle.area.specs.Map.{LOADED, NODES};
ghost use Rattle.forest.specs.Held.{AtomCode};
ghost use Rattle.classes.specs.Holds.{Pushing};
ghost use Rattle.sieving.specs.Sieved.{Sieves, Sieved};
ghost use Rattle.trying.specs.Leaf.{Anchored, Suits, LeafTold, LeavesTold};
ghost use Rattle.trying.specs.Guessed.{Guesses};

use crate::told::Guess;
use area::map::{Area, Nodes};
use classes::push::class_of;
use forest::chain::{loaded, target};
use forest::forest::find;
use forest::held::{Held, held_by};
use limits::{CODE_LIMIT, wide};
use packing::{nodes_of, number_of};
use sieving::through::look_through;

// Whether the atom's head v may stand under the feature f of the roots, whose chain begins with the code x.
fn suit(w: &Area, n: Nodes, x: usize, f: u32, v: u32, t: &[u32]) -> Guess
    requires anchored { Anchored n.count w.now x }
    requires sieves { Sieves w.now t.now x }
    requires atom_code { AtomCode v }
    ensures { Suits n.count w.now f v result }
{
    let Some(arc) = look_through(w, x, f, t) else {
        return Guess::Agrees;
    };
    let y = target(w, arc);
    let c = class_of(w, n, y);
    let held = held_by(w, c);
    match held {
        Held::Nothing => Guess::Unsure,
        Held::Arcs(_) => Guess::Clashes,
        Held::Atom(z) => {
            if z == v {
                Guess::Agrees
            } else {
                Guess::Clashes
            }
        }
    }
}

// The arc i of the d arcs of the root of the graph at g, whose number is `base`, and the leaf that it leads to.
fn lead(w: &Area, n: Nodes, g: usize, base: usize, d: usize, x: usize, i: usize, t: &[u32]) -> Guess
    requires anchored { Anchored n.count w.now x }
    requires sieves { Sieves w.now t.now x }
    requires base_bound { (base < NODES) × ((i < d) × (g + 2 + 3 * d ≤ LOADED)) }
    ensures { LeafTold n.count w.now g base d i result }
{
    let at = g + 2 + 2 * i;
    let to = target(w, at);
    if to != base + 1 + i {
        return Guess::Unsure;
    }
    let v = loaded(w, g + 2 + 2 * d + i);
    if v == 0 {
        return Guess::Agrees;
    }
    if v < CODE_LIMIT {
        return Guess::Unsure;
    }
    let f = loaded(w, at);
    suit(w, n, x, f, v, t)
}

// All the d arcs.
fn lead_all(w: &Area, n: Nodes, g: usize, base: usize, d: usize, x: usize, t: &[u32]) -> Guess
    requires anchored { Anchored n.count w.now x }
    requires sieves { Sieves w.now t.now x }
    requires base_bound { (base < NODES) × (g + 2 + 3 * d ≤ LOADED) }
    ensures { LeavesTold n.count w.now g base d result }
{
    for i in 0..d {
        let one = lead(w, n, g, base, d, x, i, t);
        let Guess::Agrees = one else {
            return one;
        };
    }
    Guess::Agrees
}

// Tells of the graph at g whether it agrees with the graphs that are pushed, where it is flat and that is plain. Features are looked
// for through the sieve t.
pub fn guess_through(w: &Area, k: usize, n: Nodes, g: usize, t: &[u32]) -> Guess
    requires pushing { Pushing n.count k w.now g }
    requires sieved { Sieved n.count w.now t.now }
    ensures { Guesses n.count k w.now g result }
{
    let head = loaded(w, g);
    let c = nodes_of(head);
    let base = number_of(head);
    let d = wide(loaded(w, g + 1));
    if d + 1 != c {
        return Guess::Unsure;
    }
    let a = find(w, n, 0);
    let held = held_by(w, a);
    let x = match held {
        Held::Nothing => 0,
        Held::Arcs(chain) => chain,
        Held::Atom(_) => {
            if d == 0 {
                return Guess::Unsure;
            }
            return Guess::Clashes;
        }
    };
    lead_all(w, n, g, base, d, x, t)
}

// The same without a sieve: one of no words tells nothing.
pub fn guess(w: &Area, k: usize, n: Nodes, g: usize) -> Guess
    requires { Pushing n.count k w.now g }
    ensures { Guesses n.count k w.now g result }
{
    guess_through(w, k, n, g, &[])
}
