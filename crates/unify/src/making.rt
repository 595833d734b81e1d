// What a mode makes of two inputs, in the working area.
ghost use Rattle.std.specs.Prelude.{◌≤◌};
ghost use Rattle.opening.specs.Opening.{Opening};
ghost use Rattle.unify.specs.Making.{Begins, Makes, Completing, Completes};

use answering::answer::Unified;
use answering::hand::{Failure, Made};
use area::map::{Area, Nodes};
use finding_clash::finding::clash_node;
use full::full::{Engine, full};
use leaving::leave::{Left, NoneLeft};
use marks::marking::{clear_marks, douse};
use opening::{Opened, open};
use quick::quick::quick;
use showing::show::show;

// Opens both inputs, and keeps all alternatives. Where they clash, the node is looked for only then, so that other calls cost nothing
// more.
fn begin(w: &mut Area, a: &[u32], b: &[u32]) -> Result<Opened, Failure>
    requires { Opening w.old a.now b.now }
    ensures { Begins w.old a.now b.now result w.new }
{
    let Some(opened) = open(w, a, b) else {
        let node = clash_node(w);
        return Err(Failure::Clash { node });
    };
    clear_marks(w);
    Ok(opened)
}

// The full step after the quick one.
fn complete(engine: Engine, w: &mut Area, k: usize, n: Nodes) -> Made
    requires { Completing n.count k w.old }
    ensures { Completes n.count k w.old result w.new }
{
    douse(w);
    // No `?` here: `leaving` knows nothing of how a call ends, and `answering` nothing of the full step.
    match full(engine, w, k, n) {
        Err(NoneLeft::TooMany) => Err(Failure::TooMany),
        Err(NoneLeft::NoChoice) => Err(Failure::NoChoice),
        Ok(Left { log, readings }) => {
            let length = show(w, log, n);
            Ok(Unified { length, readings })
        }
    }
}

// Makes what the mode makes of both inputs, whichever engine completes it.
pub fn make(mode: u32, engine: Engine, w: &mut Area, a: &[u32], b: &[u32]) -> Made
    requires { (mode ≤ 2) × Opening w.old a.now b.now }
    ensures { Makes mode w.old a.now b.now result w.new }
{
    let opened = begin(w, a, b)?;
    let nodes = opened.nodes;
    if mode == 0 {
        let length = show(w, opened.log, nodes);
        return Ok(Unified {
            length,
            readings: 0,
        });
    }
    let log = quick(w, opened.log, nodes).ok_or(Failure::QuickFails)?;
    if mode == 1 {
        let length = show(w, log, nodes);
        return Ok(Unified {
            length,
            readings: 0,
        });
    }
    complete(engine, w, log, nodes)
}
