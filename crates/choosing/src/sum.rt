// The number of choices with one of some alternatives.
ghost use Rattle.choosing.specs.Chosen.{Summing, Sums};

use area::map::Area;
use counting::choices::{capped, count_choices};
use marks::marking::kept;
use marks::positions::{after_at, mark_at};

// The sum over the kept ones of the `count` alternatives from p on, stopping at 4,097.
pub fn sum_choices(w: &Area, p: usize, count: usize, left: u32) -> u32
    requires { Summing w.now p count left }
    ensures { Sums w.now p count left result }
{
    let mut at = p;
    let mut sum: u32 = 0;
    for _ in 0..count {
        if kept(w, mark_at(w, at)) {
            let one = count_choices(w, at, left);
            sum = capped(sum + one);
        }
        at = after_at(w, at);
    }
    sum
}
