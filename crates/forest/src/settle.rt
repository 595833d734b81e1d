// Frames that are worked off, until none is left.
ghost use Rattle.std.specs.Prelude.{◌≡◌, true, false, ◌+◌, ◌-◌, ◌<◌};
ghost use Rattle.area.specs.Region.{loaded_words};
ghost use Rattle.forest.specs.Outcome.{entries_of, frames_of, log_of, clashes};
ghost use Rattle.forest.specs.State.{targets, Working, Turned, Drained, Stacked, Settled, Uniting, United};

use crate::chain::{loaded, look, next, target};
use crate::merge::{Clash, Progress, adopt_new, blend, join};
use area::map::{Area, FRAME_STEP, Nodes, STACK};
use limits::wide;

// The first arc of what is left of a frame: its target joins that of the first arc from `to` on with its feature.
fn step(w: &mut Area, k: usize, s: usize, n: Nodes, x: usize, to: usize) -> Result<Progress, Clash>
    requires fact { x ≡ to → ⊥ }
    requires working { Working (loaded_words w.old) (targets w.old) n.count k s x to w.old }
    ensures { Turned (loaded_words w.old) (targets w.old) n.count k s w.old x to (entries_of result)
        (frames_of s result) (clashes result) w.new }
{
    let j = x - 1;
    let f = loaded(w, j);
    let Some(i) = look(w, to, f) else {
        return Ok(Progress { k, s });
    };
    let p = target(w, j);
    let q = target(w, i);
    join(w, k, s, n, p, q)
}

// A frame, to its end.
fn drain(
    w: &mut Area,
    k: usize,
    s: usize,
    n: Nodes,
    from: usize,
    to: usize,
) -> Result<Progress, Clash>
    requires working { Working (loaded_words w.old) (targets w.old) n.count k s from to w.old }
    ensures { Drained (loaded_words w.old) (targets w.old) n.count k s w.old from to (entries_of result)
        (frames_of s result) (clashes result) w.new }
{
    let mut m = Progress { k, s };
    let mut x = from;
    while x != to {
        m = step(w, m.k, m.s, n, x, to)?;
        x = next(w, x - 1);
    }
    Ok(m)
}

// All frames, until none is left. The log's entries then.
fn settle(w: &mut Area, k: usize, s: usize, n: Nodes) -> Result<usize, Clash>
    requires stacked { Stacked (loaded_words w.old) (targets w.old) n.count k s w.old }
    ensures { Settled (loaded_words w.old) (targets w.old) n.count k s w.old (log_of result)
        (clashes result) w.new }
{
    let mut m = Progress { k, s };
    while m.s != 0 {
        let i = m.s - 1;
        let frame = w[STACK + i];
        let from = wide(frame % FRAME_STEP);
        let to = wide(frame / FRAME_STEP);
        m = drain(w, m.k, i, n, from, to)?;
    }
    Ok(m.k)
}

// The classes of x and y become one, with all that follows. The log's entries then.
pub fn unite(w: &mut Area, k: usize, n: Nodes, x: usize, y: usize) -> Result<usize, Clash>
    requires x_lt_n { (x < n.count) × (y < n.count) }
    requires uniting { Uniting (loaded_words w.old) (targets w.old) n.count k w.old x y }
    ensures { United (loaded_words w.old) (targets w.old) n.count k w.old x y (log_of result) (clashes result)
        w.new }
{
    if let Some(e) = adopt_new(w, k, 0, n, x, y) {
        return Ok(e);
    }
    let m = blend(w, k, 0, n, x, y)?;
    settle(w, m.k, m.s, n)
}
