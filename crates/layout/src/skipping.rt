// Finding where a graph or a description ends, without judging it.
ghost use Rattle.std.specs.Prelude.{◌≡◌};
ghost use Rattle.layout.specs.Skipping.{nodeEnd, graphEnd, disjunctionEnd, nestedEnd, descriptionEnd};

use limits::{CODE_LIMIT, DEPTH_LIMIT, wide};

fn skip_node(ws: &[u32], p: usize) -> usize
    ensures { result ≡ nodeEnd ws.now p }
{
    if ws.len() <= p {
        return ws.len();
    }
    let head = ws[p];
    let q = p + 1;
    if CODE_LIMIT <= head {
        return q;
    }
    let arcs = 2 * wide(head);
    if ws.len() - q < arcs {
        return ws.len();
    }
    q + arcs
}

// Where the graph that begins at p ends; the words' length where they run out.
pub fn skip_graph(ws: &[u32], p: usize) -> usize
    ensures { result ≡ graphEnd ws.now p }
{
    if ws.len() <= p {
        return ws.len();
    }
    let mut at = p + 1;
    for _ in 0..ws[p] {
        if ws.len() <= at {
            return ws.len();
        }
        at = skip_node(ws, at);
    }
    at
}

// Skips a description whose alternatives nest `left` deep: a graph, and its disjunctions.
#[cycle(skip_disjunction_skip_nested)]
fn skip_nested(ws: &[u32], p: usize, left: u32) -> usize
    ensures { result ≡ nestedEnd left ws.now p }
{
    let q = skip_graph(ws, p);
    if ws.len() <= q {
        return ws.len();
    }
    let mut at = q + 1;
    for _ in 0..ws[q] {
        if ws.len() <= at {
            return ws.len();
        }
        at = skip_disjunction(ws, at, left);
    }
    at
}

// Skips a disjunction whose own alternatives are one of the `left` levels: their number, and each as a description.
#[cycle(skip_disjunction_skip_nested)]
fn skip_disjunction(ws: &[u32], p: usize, left: u32) -> usize
    ensures { result ≡ disjunctionEnd left ws.now p }
{
    if left == 0 {
        return ws.len();
    }
    if ws.len() <= p {
        return ws.len();
    }
    let mut at = p + 1;
    for _ in 0..ws[p] {
        if ws.len() <= at {
            return ws.len();
        }
        at = skip_nested(ws, at, left - 1);
    }
    at
}

// Where the description that begins at p ends; the words' length where they run out, or where alternatives nest too deep.
pub fn skip_description(ws: &[u32], p: usize) -> usize
    ensures { result ≡ descriptionEnd ws.now p }
{
    skip_nested(ws, p, DEPTH_LIMIT)
}
