// An alternative without disjunctions is tried.
ghost use Rattle.classes.specs.Holds.{Pushing};
ghost use Rattle.sieving.specs.Sieved.{Sieved};
ghost use Rattle.quick.specs.Stepped.{TriesBare};

use crate::step::Step;
use area::map::{Area, Nodes};
use classes::push::{back, push};
use trying::guess::guess_through;
use trying::told::Guess;

// Tries the alternative at g by its graph, which is pushed and taken back.
fn push_bare(w: &mut Area, k: usize, n: Nodes, g: usize) -> Option<Step>
    requires { Pushing n.count k w.old g }
    ensures { TriesBare n.count k w.old g result w.new }
{
    let log = push(w, k, n, g)?;
    back(w, log, k);
    Some(Step { log: k, drops: 0 })
}

// Tries the alternative at g. Mostly its graph need not be pushed for that.
pub fn try_bare(w: &mut Area, k: usize, n: Nodes, g: usize, t: &[u32]) -> Option<Step>
    requires pushing { Pushing n.count k w.old g }
    requires sieved { Sieved n.count w.old t.now }
    ensures { TriesBare n.count k w.old g result w.new }
{
    let told = guess_through(w, k, n, g, t);
    match told {
        Guess::Agrees => Some(Step { log: k, drops: 0 }),
        Guess::Clashes => None,
        Guess::Unsure => push_bare(w, k, n, g),
    }
}
