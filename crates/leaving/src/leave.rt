// Of the alternatives only those that were found are kept, and what is certain then is pushed.
ghost use Rattle.leaving.specs.Restarted.{Restarting, Restarts};
ghost use Rattle.leaving.specs.Kept.{Keeping, Keeps};

use area::map::{Area, Nodes, SECOND};
use classes::push::back;
use entering::enter::enter;
use limits::DEPTH_LIMIT;
use marks::marking::keep_lit;

// Only alternatives in consistent choices are left, with so many entries in the log and so many readings.
#[derive(Clone, Copy)]
pub struct Left {
    pub log: usize,
    pub readings: u32,
}

// Why nothing is left: there are too many choices, or none is consistent.
#[derive(Clone, Copy)]
pub enum NoneLeft {
    TooMany,
    NoChoice,
}

// Takes back all that is pushed, the k entries of the log, and pushes all that is certain in both inputs.
fn restart(w: &mut Area, k: usize, n: Nodes) -> Option<usize>
    requires { Restarting n.count k w.old }
    ensures { Restarts n.count k w.old result w.new }
{
    back(w, k, 0);
    let first = enter(w, 0, n, 0, DEPTH_LIMIT)?;
    enter(w, first, n, SECOND, DEPTH_LIMIT)
}

// Drops every alternative that was not found, where so many readings were; k entries in the log are what was certain before.
pub fn leave(w: &mut Area, k: usize, n: Nodes, readings: u32) -> Result<Left, NoneLeft>
    requires { Keeping n.count k w.old readings }
    ensures { Keeps n.count k w.old readings result w.new }
{
    if readings == 0 {
        return Err(NoneLeft::NoChoice);
    }
    keep_lit(w, n);
    let log = restart(w, k, n).ok_or(NoneLeft::NoChoice)?;
    Ok(Left { log, readings })
}
