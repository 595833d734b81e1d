// The full step, on marks that the quick step left, by either engine.
ghost use Rattle.leaving.specs.Fulled.{Fulling, Fulls};

use area::map::{Area, Nodes};
use counting::choices::count_both;
use leaving::leave::{Left, NoneLeft, leave};
use limits::{CHOICE_LIMIT, DEPTH_LIMIT};
use plain::expand::expand;
use search::search::search;

// What finds the consistent choices: the search, or the plain expansion to every choice. A value, since a closure over the area would
// have to say all that both promise once more.
#[derive(Clone, Copy)]
pub enum Engine {
    Fast,
    Plain,
}

// Drops every alternative that stands in no consistent choice, where k entries in the log are what is certain after the quick step.
pub fn full(engine: Engine, w: &mut Area, k: usize, n: Nodes) -> Result<Left, NoneLeft>
    requires { Fulling n.count k w.old }
    ensures { Fulls n.count k w.old result w.new }
{
    let choices = count_both(w, DEPTH_LIMIT);
    if CHOICE_LIMIT < choices {
        return Err(NoneLeft::TooMany);
    }
    let readings = match engine {
        Engine::Fast => search(w, k, n),
        Engine::Plain => expand(w, k, n, choices),
    };
    leave(w, k, n, readings)
}
