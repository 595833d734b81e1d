// A feature is looked for through the sieve.
ghost use Rattle.area.specs.Region.{loaded_words};
ghost use Rattle.forest.specs.State.{Runs, Looked};
ghost use Rattle.forest.specs.Outcome.{arc_code};
ghost use Rattle.sieving.specs.Sieved.{Sieves};

use crate::gather::SIEVE_SIZE;
use area::map::Area;
use forest::chain::look;
use limits::wide;

// The first arc with the feature f on the chain from the code x, of which t tells, if there is one. A sieve may be short: then all is
// looked through.
pub fn look_through(w: &Area, x: usize, f: u32, t: &[u32]) -> Option<usize>
    requires runs { Runs w.now x }
    requires sieves { Sieves w.now t.now x }
    ensures { Looked (loaded_words w.now) w.now f x (arc_code result) }
{
    let i = wide(f) % SIEVE_SIZE;
    let mut y = x;
    if i < t.len() {
        y = wide(t[i]);
    }
    look(w, y, f)
}
