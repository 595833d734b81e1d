// One pass over the disjunctions of both inputs.
ghost use Rattle.quick.specs.Passed.{Passing, Passes};

use crate::narrow::narrow;
use crate::step::Step;
use area::map::{Area, Nodes, SECOND};
use classes::push::back;
use limits::DEPTH_LIMIT;

// Narrows the disjunctions of the first input, then those of the second.
pub fn pass(w: &mut Area, k: usize, n: Nodes) -> Option<Step>
    requires { Passing n.count k w.old }
    ensures { Passes n.count k w.old result w.new }
{
    let first = narrow(w, k, n, 0, DEPTH_LIMIT)?;
    let Some(second) = narrow(w, first.log, n, SECOND, DEPTH_LIMIT) else {
        back(w, first.log, k);
        return None;
    };
    Some(Step {
        log: second.log,
        drops: first.drops + second.drops,
    })
}
