// Clearing a part of the working area.
ghost use Rattle.std.specs.Prelude.{◌+◌, ◌≤◌};
ghost use Rattle.area.specs.Map.{SIZE};
ghost use Rattle.area.specs.Region.{Zeroed};

use crate::map::Area;

// The n words from `from` on become 0.
pub fn clear(w: &mut Area, from: usize, n: usize)
    requires { from + n ≤ SIZE }
    ensures { Zeroed from n w.old w.new }
{
    w[from..from + n].fill(0);
}
