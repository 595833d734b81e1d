// Disjunctions are narrowed: alternatives that fail are dropped, and what becomes certain is pushed.
ghost use Rattle.std.specs.Prelude.{ℕ};
ghost use Rattle.marks.specs.Readable.{Alternatives};
ghost use Rattle.marks.specs.Tallied.{Tallied};
ghost use Rattle.sieving.specs.Sieved.{Sieved};
ghost use Rattle.entering.specs.Entered.{Entering};
ghost use Rattle.entering.specs.Settled.{Alternating};
ghost use Rattle.quick.specs.Stepped.{Narrowing, Narrows, Choosing, Chooses, Tries, Sifts};

use crate::bare::try_bare;
use crate::step::Step;
use area::map::{Area, Nodes};
use classes::push::back;
use entering::enter::enter;
use entering::settle::settle;
use marks::marking::{drop, kept};
use marks::positions::{after_at, alternatives_at, disjunctions_at, mark_at, tail_at};
use marks::tally::{Remnant, count_kept};
use sieving::gather::{SIEVE_SIZE, gather, renew};

// Tries the alternative at g: it is entered and narrowed, and all that was pushed for it taken back. Mostly it has no disjunctions,
// and there is nothing to narrow.
#[cycle(narrow_narrow_one_sift_try_one)]
fn try_one(w: &mut Area, k: usize, n: Nodes, g: usize, left: u32, t: &[u32]) -> Option<Step>
    requires entering { Entering n.count k w.old g left }
    requires sieved { Sieved n.count w.old t.now }
    ensures { Tries n.count k w.old g left result w.new }
{
    let e = tail_at(w, g);
    let more = disjunctions_at(w, e);
    if more == 0 {
        return try_bare(w, k, n, g, t);
    }
    let log = enter(w, k, n, g, left)?;
    let Some(step) = narrow(w, log, n, g, left) else {
        back(w, log, k);
        return None;
    };
    back(w, step.log, k);
    Some(Step {
        log: k,
        drops: step.drops,
    })
}

// Narrows the disjunctions of the description at g, in order.
#[cycle(narrow_narrow_one_sift_try_one)]
pub fn narrow(w: &mut Area, k: usize, n: Nodes, g: usize, left: u32) -> Option<Step>
    requires { Narrowing n.count k w.old g left }
    ensures { Narrows n.count k w.old g left result w.new }
{
    let e = tail_at(w, g);
    let more = disjunctions_at(w, e);
    if more == 0 {
        return Some(Step { log: k, drops: 0 });
    }
    let mut t: [u32; SIEVE_SIZE] = [0; SIEVE_SIZE];
    gather(w, n, &mut t);
    let mut at = e + 1;
    let mut log = k;
    let mut drops: usize = 0;
    for _ in 0..more {
        let count = alternatives_at(w, at);
        let tally = count_kept(w, at + 1, count);
        let Some(one) = narrow_one(w, log, n, at + 1, count, tally.remnant, left - 1, &t) else {
            back(w, log, k);
            return None;
        };
        renew(w, n, &mut t, log, one.log);
        log = one.log;
        drops += one.drops;
        at = tally.after;
    }
    Some(Step { log, drops })
}

// Narrows one disjunction, whose `count` alternatives stand from p on; `which` says what is left of them.
#[cycle(narrow_narrow_one_sift_try_one)]
fn narrow_one(
    w: &mut Area,
    k: usize,
    n: Nodes,
    p: usize,
    count: usize,
    which: Remnant,
    left: u32,
    t: &[u32],
) -> Option<Step>
    requires choosing { Choosing n.count k w.old p count left }
    requires by_index { (after : ℕ) × ((s : Alternatives w.old p count) → Tallied w.old s which after) }
    requires sieved { Sieved n.count w.old t.now }
    ensures { Chooses n.count k w.old p count left result w.new }
{
    match which {
        Remnant::Nothing => {
            return None;
        }
        Remnant::One(first) => {
            return narrow(w, k, n, first, left);
        }
        Remnant::Several(_) => {}
    }
    let drops = sift(w, k, n, p, count, left, t);
    if drops == 0 {
        return Some(Step { log: k, drops: 0 });
    }
    let log = settle(w, k, n, p, count, left)?;
    Some(Step { log, drops })
}

// Tries each kept one of the `count` alternatives from p on, and drops those that fail. How many alternatives were dropped, at every depth.
#[cycle(narrow_narrow_one_sift_try_one)]
fn sift(w: &mut Area, k: usize, n: Nodes, p: usize, count: usize, left: u32, t: &[u32]) -> usize
    requires alternating { Alternating n.count k w.old p count left }
    requires sieved { Sieved n.count w.old t.now }
    ensures { Sifts n.count k w.old p count left result w.new }
{
    let mut at = p;
    let mut drops: usize = 0;
    for _ in 0..count {
        let x = mark_at(w, at);
        if kept(w, x) {
            if let Some(step) = try_one(w, k, n, at, left, t) {
                drops += step.drops;
            } else {
                drop(w, x);
                drops += 1;
            }
        }
        at = after_at(w, at);
    }
    drops
}
