// A description is put out: its graph, then its disjunctions, of each the kept alternatives.
ghost use Rattle.showing.specs.Putting.{Describing, Describes, Disjoining, Disjoins, Varying, Varies, Offering, Offers};

use crate::graph::put_graph;
use area::map::{Area, Nodes, RESULT};
use marks::marking::kept;
use marks::positions::{after_at, alternatives_at, disjunctions_at, mark_at, tail_at};
use marks::tally::{Remnant, count_kept};

// Where some disjunctions end in the result, and how many they are.
#[derive(Clone, Copy)]
pub struct Put {
    pub at: usize,
    pub count: usize,
}

// The same for one disjunction, and where it ends among the loaded words.
#[derive(Clone, Copy)]
struct One {
    at: usize,
    count: usize,
    after: usize,
}

// Writes the description at g at o of the result. Where it ends.
#[cycle(put_alternatives_put_description_put_disjunctions_put_one)]
fn put_description(w: &mut Area, n: Nodes, g: usize, left: u32, o: usize) -> usize
    requires { Describing n.count w.old g left o }
    ensures { Describes n.count w.old g left o result w.new }
{
    let e = put_graph(w, n, g, left, o);
    let rest = put_disjunctions(w, n, g, left, e + 1);
    let count = rest.count;
    w[RESULT + e] = count as u32;
    rest.at
}

// Writes the disjunctions of the description at g, in order.
#[cycle(put_alternatives_put_description_put_disjunctions_put_one)]
pub fn put_disjunctions(w: &mut Area, n: Nodes, g: usize, left: u32, o: usize) -> Put
    requires { Disjoining n.count w.old g left o }
    ensures { Disjoins n.count w.old g left o result.at result.count w.new }
{
    let e = tail_at(w, g);
    let more = disjunctions_at(w, e);
    let mut at = e + 1;
    let mut out = o;
    let mut count: usize = 0;
    for _ in 0..more {
        let of = alternatives_at(w, at);
        let one = put_one(w, n, at + 1, of, left - 1, out);
        out = one.at;
        count += one.count;
        at = one.after;
    }
    Put { at: out, count }
}

// Writes one disjunction, whose `of` alternatives stand from p on. If one stands alone, its disjunctions come in its place.
#[cycle(put_alternatives_put_description_put_disjunctions_put_one)]
fn put_one(w: &mut Area, n: Nodes, p: usize, of: usize, left: u32, o: usize) -> One
    requires { Varying n.count w.old p of left o }
    ensures { Varies n.count w.old p of left o result.at result.count result.after w.new }
{
    let tally = count_kept(w, p, of);
    let after = tally.after;
    let which = tally.remnant;
    let many: usize = match which {
        Remnant::Nothing => 0,
        Remnant::One(first) => {
            let inner = put_disjunctions(w, n, first, left, o);
            return One {
                at: inner.at,
                count: inner.count,
                after,
            };
        }
        Remnant::Several(several) => several,
    };
    w[RESULT + o] = many as u32;
    let at = put_alternatives(w, n, p, of, left, o + 1);
    One {
        at,
        count: 1,
        after,
    }
}

// Writes each kept one of the `of` alternatives from p on.
#[cycle(put_alternatives_put_description_put_disjunctions_put_one)]
fn put_alternatives(w: &mut Area, n: Nodes, p: usize, of: usize, left: u32, o: usize) -> usize
    requires { Offering n.count w.old p of left o }
    ensures { Offers n.count w.old p of left o result w.new }
{
    let mut at = p;
    let mut out = o;
    for _ in 0..of {
        let x = mark_at(w, at);
        if kept(w, x) {
            out = put_description(w, n, at, left, out);
        }
        at = after_at(w, at);
    }
    out
}
