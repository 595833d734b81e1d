// The way with a given number is written down at the result, a word for each alternative that it takes.
ghost use Rattle.std.specs.Prelude.{◌≡◌};
ghost use Rattle.choosing.specs.Chosen.{ChoosingIn, ChoosesIn, Picking, Picks, ChoosingBoth, ChoosesBoth};
ghost use Rattle.choosing.specs.Told.{told_beside};

use crate::sum::sum_choices;
use crate::word::word_of;
use area::map::{Area, RESULT, SECOND};
use counting::choices::count_choices;
use limits::DEPTH_LIMIT;
use marks::marking::kept;
use marks::positions::{after_at, alternatives_at, disjunctions_at, mark_at, tail_at};
use marks::tally::{Remnant, count_kept};

// Is an alternative new where so many are left beside it?
fn beside_other(which: Remnant, new: bool) -> bool
    ensures { result ≡ told_beside which new }
{
    match which {
        Remnant::Nothing | Remnant::One(_) => new,
        Remnant::Several(_) => true,
    }
}

// The way with the number c of the `total` through the description at g, from `at` on. How many words there are then.
#[cycle(choose_pick)]
fn choose(w: &mut Area, g: usize, left: u32, c: u32, total: u32, new: bool, at: usize) -> usize
    requires { ChoosingIn w.old g left total at }
    ensures { ChoosesIn w.old g left c total new at result w.new }
{
    let e = tail_at(w, g);
    let more = disjunctions_at(w, e);
    let mut p = e + 1;
    let mut rest = total;
    let mut index = c;
    let mut to = at;
    for _ in 0..more {
        let count = alternatives_at(w, p);
        let first = p + 1;
        let inside = left - 1;
        let tally = count_kept(w, first, count);
        let beside = beside_other(tally.remnant, new);
        let sum = sum_choices(w, first, count, inside);
        rest /= sum;
        to = pick(w, first, count, inside, index / rest, beside, to);
        index %= rest;
        p = tally.after;
    }
    to
}

// The same through the one of the `count` alternatives from p on that has the choice with the number i, over all kept ones.
#[cycle(choose_pick)]
fn pick(w: &mut Area, p: usize, count: usize, left: u32, i: u32, new: bool, at: usize) -> usize
    requires { Picking w.old p count left at }
    ensures { Picks w.old p count left i new at result w.new }
{
    let mut g = p;
    let mut index = i;
    for _ in 0..count {
        if kept(w, mark_at(w, g)) {
            let total = count_choices(w, g, left);
            if index < total {
                w[RESULT + at] = word_of(g, new);
                return choose(w, g, left, index, total, new, at + 1);
            }
            index -= total;
        }
        g = after_at(w, g);
    }
    at
}

// The way with the number c through both inputs. How many words it has.
pub fn choose_both(w: &mut Area, c: u32) -> usize
    requires { ChoosingBoth w.old c }
    ensures { ChoosesBoth w.old c result w.new }
{
    let first = count_choices(w, 0, DEPTH_LIMIT);
    let second = count_choices(w, SECOND, DEPTH_LIMIT);
    let at = choose(w, 0, DEPTH_LIMIT, c / second, first, false, 0);
    choose(w, SECOND, DEPTH_LIMIT, c % second, second, false, at)
}
