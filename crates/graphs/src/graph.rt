// Reading the words of a graph, from the first to the last, once.
ghost use Rattle.std.specs.Prelude.{◌≡◌};
ghost use Rattle.graphs.specs.Graph.{readArc, readArcs, read_node, readNodes, readGraph};

use limits::{CODE_LIMIT, wide};

// What reading a node finds: the position after it and how many nodes are met.
#[derive(Clone, Copy)]
pub struct Walk {
    pub next: usize,
    pub met: u32,
}

// How many nodes are met after an arc, or none where it may not stand: features from `low` on may stand, and the nodes below `met`,
// of `nodes`, are met before it.
fn read_arc(feature: u32, target: u32, low: u32, nodes: u32, met: u32) -> Option<u32>
    ensures { result ≡ readArc nodes low met feature target }
{
    if feature < low {
        return None;
    }
    if CODE_LIMIT <= feature {
        return None;
    }
    if target < met {
        return Some(met);
    }
    if met < target {
        return None;
    }
    if nodes <= target {
        return None;
    }
    Some(target + 1)
}

// Reads the `count` arcs of a node; that their words are there is tested once, for all.
fn read_arcs(ws: &[u32], p: usize, count: u32, nodes: u32, first: u32) -> Option<Walk>
    ensures { result ≡ readArcs ws.now nodes count first p }
{
    if ws.len() < p {
        return None;
    }
    if ws.len() - p < 2 * wide(count) {
        return None;
    }
    let mut at = p;
    let mut low: u32 = 0;
    let mut met = first;
    for _ in 0..count {
        let feature = ws[at];
        met = read_arc(feature, ws[at + 1], low, nodes, met)?;
        low = feature + 1;
        at += 2;
    }
    Some(Walk { next: at, met })
}

// Reads node i: its head, and its arcs.
fn read_node(ws: &[u32], p: usize, i: u32, nodes: u32, met: u32) -> Option<Walk>
    ensures { result ≡ read_node ws.now nodes i met p }
{
    if met <= i {
        return None;
    }
    if ws.len() <= p {
        return None;
    }
    let head = ws[p];
    if head < CODE_LIMIT {
        return read_arcs(ws, p + 1, head, nodes, met);
    }
    if CODE_LIMIT <= head - CODE_LIMIT {
        return None;
    }
    Some(Walk { next: p + 1, met })
}

// Reads all nodes of a graph of so many nodes: the position after them.
fn read_nodes(ws: &[u32], p: usize, nodes: u32) -> Option<usize>
    ensures { result ≡ readNodes ws.now nodes nodes 0 1 p }
{
    let mut walk = Walk { next: p, met: 1 };
    for i in 0..nodes {
        walk = read_node(ws, walk.next, i, nodes, walk.met)?;
    }
    Some(walk.next)
}

// Reads a graph, its node count and each node in order: the position after it.
pub fn read_graph(ws: &[u32], p: usize) -> Option<usize>
    ensures { result ≡ readGraph ws.now p }
{
    if ws.len() <= p {
        return None;
    }
    let nodes = ws[p];
    if nodes == 0 {
        return None;
    }
    read_nodes(ws, p + 1, nodes)
}
