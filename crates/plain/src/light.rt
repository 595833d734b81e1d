// The marks of what a choice takes are lit.
ghost use Rattle.std.specs.Prelude.{◌≡◌, ◌+◌, ◌<◌, get_or};
ghost use Rattle.area.specs.Map.{NODES, RESULT};
ghost use Rattle.plain.specs.Lit.{Lighting, Lights};

use area::map::{Area, RESULT};
use choosing::word::place_of;
use marks::marking::light;
use marks::positions::mark_at;

// The word that stands for the alternative i of the choice that is listed.
pub fn listed(w: &Area, i: usize) -> u32
    requires { i < NODES }
    ensures { result ≡ get_or w.now (RESULT + i) 0 }
{
    w[RESULT + i]
}

// Each of the `many` alternatives that are listed is found.
pub fn light_taken(w: &mut Area, many: usize)
    requires { Lighting w.old many }
    ensures { Lights w.old many w.new }
{
    for i in 0..many {
        let g = place_of(listed(w, i));
        let x = mark_at(w, g);
        light(w, x);
    }
}
