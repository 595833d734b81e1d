// Joins the definite graphs of two inputs by the layers below the modes: opened, and written.
ghost use Rattle.opening.specs.Opening.{Opening};

use area::map::{Area, RESULT};
use layout::reading::judge;
use opening::open;
use vectors::lent::zeros;
use writing::graph::write_graph;

// An input has at most so many words here.
const LONGEST: usize = 1024;

// Whether the r words that are written and a 0 are the stored ones.
fn written(w: &Area, r: usize, words: &[u32]) -> bool {
    let Some((last, front)) = words.split_last() else {
        return false;
    };
    front.len() == r && *last == 0 && w[RESULT..].starts_with(front)
}

// Whether the joined graph, or the clash, is the stored one.
fn opened(w: &mut Area, a: &[u32], b: &[u32], number: u32, words: &[u32]) -> bool
    requires { Opening w.old a.now b.now }
{
    let Some(came) = open(w, a, b) else {
        return number == 6;
    };
    let r = write_graph(w, came.log, came.nodes, 0);
    number == 0 && written(w, r, words)
}

// Whether two inputs are well formed and what comes of joining their definite graphs is what is stored.
pub fn joined(a: &[u32], b: &[u32], number: u32, words: &[u32]) -> bool {
    if LONGEST < a.len() || LONGEST < b.len() {
        return false;
    }
    if !judge(a) || !judge(b) {
        return false;
    }
    let mut w: Area = zeros();
    opened(&mut w, a, b, number, words)
}
