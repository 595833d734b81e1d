// The quick step on both inputs.
ghost use Rattle.quick.specs.Quickened.{Quickening, Quickens};

use crate::pass::pass;
use area::map::{Area, Nodes};
use classes::push::back;

// Passes until one drops nothing, where what is certain in both inputs is pushed, and all alternatives are kept. So many entries are
// in the log then; `None` where it fails.
pub fn quick(w: &mut Area, k: usize, n: Nodes) -> Option<usize>
    requires { Quickening n.count k w.old }
    ensures { Quickens n.count k w.old result w.new }
{
    let mut log = k;
    let mut again = true;
    while again {
        let Some(step) = pass(w, log, n) else {
            back(w, log, k);
            return None;
        };
        log = step.log;
        again = 0 < step.drops;
    }
    Some(log)
}
