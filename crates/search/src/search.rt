// The choices are searched depth first. Each alternative that stands in a consistent choice is found on the way back.
ghost use Rattle.leaving.specs.Found.{Searching, Searches};
ghost use Rattle.search.specs.Searched.{Noting, Notes, Resuming, Resumes, Taking, Takes, Branching, Branches};

use crate::agenda::{Agenda, after, before, descend, nothing};
use crate::foresee::foresee;
use area::map::{Area, Nodes, SECOND};
use classes::push::back;
use counting::choices::capped;
use entering::enter::enter;
use limits::DEPTH_LIMIT;
use marks::marking::{kept, light};
use marks::positions::{after_at, alternatives_at, mark_at};
use marks::tally::{Remnant, count_kept};
use trying::told::Guess;

// The consistent choices with an alternative that clashes.
const NONE: u32 = 0;

// Where anything was found with it, the alternative at g is found.
fn note(w: &mut Area, g: usize, found: u32)
    requires { Noting w.old g }
    ensures { Notes w.old g found w.new }
{
    let x = mark_at(w, g);
    if 0 < found {
        light(w, x);
    }
}

// How many consistent choices there are of what is left, stopping at 4,097.
#[cycle(choose_resume_take)]
fn resume(w: &mut Area, k: usize, n: Nodes, a: Agenda) -> u32
    requires { Resuming n.count k w.old a }
    ensures { Resumes n.count k w.old a result w.new }
{
    if a.frames == 0 {
        return 1;
    }
    let nearest = a.stack[a.frames - 1];
    let at = nearest.at;
    let more = nearest.more;
    let count = alternatives_at(w, at);
    let tally = count_kept(w, at + 1, count);
    let end = tally.after;
    match tally.remnant {
        Remnant::Nothing => 0,
        Remnant::One(first) => {
            let later = after(a);
            let rest = before(end, more - 1, later);
            let inner = descend(w, first, rest);
            let found = resume(w, k, n, inner);
            note(w, first, found);
            found
        }
        Remnant::Several(_) => {
            let later = after(a);
            let rest = before(end, more - 1, later);
            choose(w, k, n, at + 1, count, rest)
        }
    }
}

// The same with one of the `count` alternatives from p on, which are several.
#[cycle(choose_resume_take)]
fn choose(w: &mut Area, k: usize, n: Nodes, p: usize, count: usize, a: Agenda) -> u32
    requires { Branching n.count k w.old p count a }
    ensures { Branches n.count k w.old p count a result w.new }
{
    let mut at = p;
    let mut sum: u32 = 0;
    for _ in 0..count {
        let x = mark_at(w, at);
        let next = after_at(w, at);
        if kept(w, x) {
            let found = take(w, k, n, at, a);
            sum = capped(sum + found);
        }
        at = next;
    }
    sum
}

// The same with the alternative at g, which is entered and taken back. Where it clashes, or nothing is left with it or after it, that
// is mostly told without.
#[cycle(choose_resume_take)]
fn take(w: &mut Area, k: usize, n: Nodes, g: usize, a: Agenda) -> u32
    requires { Taking n.count k w.old g a }
    ensures { Takes n.count k w.old g a result w.new }
{
    let told = foresee(w, k, n, g, a.frames);
    match told {
        Guess::Agrees => {
            note(w, g, 1);
            return 1;
        }
        Guess::Clashes => {
            return NONE;
        }
        Guess::Unsure => {}
    }
    let Some(e) = enter(w, k, n, g, DEPTH_LIMIT) else {
        return NONE;
    };
    let inner = descend(w, g, a);
    let found = resume(w, e, n, inner);
    back(w, e, k);
    note(w, g, found);
    found
}

// How many consistent choices there are of both inputs over the kept alternatives, stopping at 4,097; every alternative in one of them
// is found.
pub fn search(w: &mut Area, k: usize, n: Nodes) -> u32
    requires { Searching n.count k w.old }
    ensures { Searches n.count k w.old result w.new }
{
    let none = nothing();
    let second = descend(w, SECOND, none);
    let both = descend(w, 0, second);
    resume(w, k, n, both)
}
