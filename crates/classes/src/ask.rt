// What may be asked of the classes: the atom of one, and its target under a feature.
ghost use Rattle.std.specs.Prelude.{◌<◌};
ghost use Rattle.classes.specs.Holds.{Labelled};
ghost use Rattle.classes.specs.Ask.{AtomOf, TargetOf};

use crate::push::class_of;
use area::map::{Area, Nodes};
use forest::chain::{look, target};
use forest::held::{Held, held_by};
use limits::CODE_LIMIT;

// The atom of the class of the number x, if it bears one.
pub fn atom_of(w: &Area, n: Nodes, x: usize) -> Option<u32>
    requires x_lt_n { x < n.count }
    requires labelled { Labelled n.count w.now }
    ensures { AtomOf n.count w.now x result }
{
    let c = class_of(w, n, x);
    match held_by(w, c) {
        Held::Atom(v) => Some(v - CODE_LIMIT),
        Held::Nothing | Held::Arcs(_) => None,
    }
}

// The class that the class of the number x leads to under the feature f, if there is one.
pub fn target_of(w: &Area, n: Nodes, x: usize, f: u32) -> Option<usize>
    requires x_lt_n { x < n.count }
    requires labelled { Labelled n.count w.now }
    ensures { TargetOf n.count w.now x f result }
{
    let c = class_of(w, n, x);
    let Held::Arcs(chain) = held_by(w, c) else {
        return None;
    };
    let arc = look(w, chain, f)?;
    let y = target(w, arc);
    Some(class_of(w, n, y))
}
