// An undo log in the working area: the body is the words before LOG, and the log has an entry a word from LOG on, 4,096 of them at most.
ghost use Rattle.std.specs.Prelude.{◌≡◌, ◌+◌, ◌*◌, ◌≤◌, ◌<◌};
ghost use Rattle.area.specs.Map.{LOG, ENTRIES, ENTRY_MOST};
ghost use Rattle.area.specs.Log.{Logged, Stores, Undone};

use crate::map::{Area, ENTRY_STEP, LOG};
use limits::wide;

// Stores v at i of the body, and what stood there in the log, which has n entries. The entries after it.
pub fn put(w: &mut Area, n: usize, i: usize, v: u32) -> usize
    requires logged { Logged n w.old }
    requires i_bound { (i < LOG) × ((n < ENTRIES) × (v < ENTRY_MOST)) }
    ensures { Stores n w.old i v result w.new }
{
    let old = w[i];
    w[LOG + n] = i as u32 + ENTRY_STEP * old;
    w[i] = v;
    n + 1
}

// Takes the entries from n down to m back.
pub fn undo(w: &mut Area, n: usize, m: usize)
    requires logged { Logged n w.old }
    requires m_le_n { m ≤ n }
    ensures { Undone m n w.old w.new }
{
    for k in (m..n).rev() {
        let e = w[LOG + k];
        let i = wide(e % ENTRY_STEP);
        w[i] = e / ENTRY_STEP;
    }
}
