// The sieve has a word for each feature modulo SIEVE_SIZE: the first arc of such a feature on the chain of the class of all roots, counted
// from 1, or 0 where there is none.
ghost use Rattle.std.specs.Prelude.{◌≡◌, ◌≤◌, ◌<◌, length};
ghost use Rattle.classes.specs.Holds.{Labelled};
ghost use Rattle.sieving.specs.Sieved.{SIEVE_SIZE, Blank, Sieved};

use area::map::{Area, Nodes};
use forest::chain::{loaded, next};
use forest::forest::find;
use forest::held::{Held, held_by};
use limits::wide;

// A sieve has as many words.
pub const SIEVE_SIZE: usize = 256;

// Notes in t, where nothing is noted yet, the arcs on the chain of the class of all roots.
pub fn gather(w: &Area, n: Nodes, t: &mut [u32])
    requires n_nonzero { (0 < n.count) × (SIEVE_SIZE ≤ length t.old) }
    requires labelled { Labelled n.count w.now }
    requires blank { Blank t.old }
    ensures { Sieved n.count w.now t.new }
{
    let c = find(w, n, 0);
    let held = held_by(w, c);
    let Held::Arcs(x) = held else {
        return;
    };
    let mut y = x;
    while y != 0 {
        let j = y - 1;
        let i = wide(loaded(w, j)) % SIEVE_SIZE;
        if t[i] == 0 {
            t[i] = y as u32;
        }
        y = next(w, j);
    }
}

// Gathers t anew where the log, which had k entries when t told the same, has another number j of them now.
pub fn renew(w: &Area, n: Nodes, t: &mut [u32; SIEVE_SIZE], k: usize, j: usize)
    requires n_nonzero { (0 < n.count) × (length t.old ≡ SIEVE_SIZE) }
    requires labelled { Labelled n.count w.now }
    requires sieved { j ≡ k → Sieved n.count w.now t.old }
    ensures { (length t.new ≡ SIEVE_SIZE) × Sieved n.count w.now t.new }
{
    if j == k {
        return;
    }
    *t = [0; SIEVE_SIZE];
    gather(w, n, t);
}
