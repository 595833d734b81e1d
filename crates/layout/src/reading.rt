// Reading the words of a description, from the first to the last, once.
ghost use Rattle.std.specs.Prelude.{◌≡◌};
ghost use Rattle.layout.specs.Reading.{readDisjunction, readDescription};
ghost use Rattle.layout.specs.Judged.{Judged};

use graphs::graph::read_graph;
use limits::DEPTH_LIMIT;

// A disjunction has at least so many alternatives.
const FEWEST_ALTERNATIVES: u32 = 2;

// Reads a description whose alternatives may nest `left` deep, a graph and its disjunctions: the position after it.
#[cycle(read_description_read_disjunction)]
fn read_description(ws: &[u32], p: usize, left: u32) -> Option<usize>
    ensures { result ≡ readDescription left ws.now p }
{
    let q = read_graph(ws, p)?;
    if ws.len() <= q {
        return None;
    }
    let mut at = q + 1;
    for _ in 0..ws[q] {
        at = read_disjunction(ws, at, left)?;
    }
    Some(at)
}

// Reads a disjunction whose own alternatives are one of the `left` levels, their number and each as a description: the position
// after it.
#[cycle(read_description_read_disjunction)]
fn read_disjunction(ws: &[u32], p: usize, left: u32) -> Option<usize>
    ensures { result ≡ readDisjunction left ws.now p }
{
    if left == 0 {
        return None;
    }
    if ws.len() <= p {
        return None;
    }
    let count = ws[p];
    if count < FEWEST_ALTERNATIVES {
        return None;
    }
    let mut at = p + 1;
    for _ in 0..count {
        at = read_description(ws, at, left - 1)?;
    }
    Some(at)
}

// Tells whether the words are the image of a description.
pub fn judge(ws: &[u32]) -> bool
    ensures { Judged ws.now result }
{
    let Some(end) = read_description(ws, 0, DEPTH_LIMIT) else {
        return false;
    };
    end == ws.len()
}
