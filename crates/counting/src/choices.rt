// Counting choices by descent over the nesting.
ghost use Rattle.std.specs.Prelude.{◌≡◌, min};
ghost use Rattle.area.specs.Map.{SECOND};
ghost use Rattle.theory.specs.Limits.{choice_stop};
ghost use Rattle.marks.specs.Readable.{Readable};
ghost use Rattle.counting.specs.Counted.{Counted, CountedBoth};

use area::map::{Area, SECOND};
use limits::CHOICE_STOP;
use marks::marking::kept;
use marks::positions::{after_at, alternatives_at, disjunctions_at, mark_at, tail_at};

// The lesser of x and the stop.
pub fn capped(x: u32) -> u32
    ensures { result ≡ min x choice_stop }
{
    x.min(CHOICE_STOP)
}

// The number of choices of the description at p, under which alternatives nest at most `left` deep: the product over its disjunctions
// of the sum over their kept alternatives.
pub fn count_choices(w: &Area, p: usize, left: u32) -> u32
    requires { Readable w.now p left }
    ensures { Counted w.now p left result }
{
    let e = tail_at(w, p);
    let mut at = e + 1;
    let mut product: u32 = 1;
    for _disjunction in 0..disjunctions_at(w, e) {
        let count = alternatives_at(w, at);
        at += 1;
        let mut sum: u32 = 0;
        for _alternative in 0..count {
            if kept(w, mark_at(w, at)) {
                let one = count_choices(w, at, left - 1);
                sum = capped(sum + one);
            }
            at = after_at(w, at);
        }
        product = capped(product * sum);
    }
    product
}

// The number of choices of both inputs together.
pub fn count_both(w: &Area, left: u32) -> u32
    requires { Readable w.now 0 left × Readable w.now SECOND left }
    ensures { CountedBoth w.now left result }
{
    let first = count_choices(w, 0, left);
    let second = count_choices(w, SECOND, left);
    capped(first * second)
}
