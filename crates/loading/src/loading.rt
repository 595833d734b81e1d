// Loading the words of a description, from the first to the last, once.
ghost use Rattle.std.specs.Prelude.{◌+◌};
ghost use Rattle.loading.specs.Loading.{its_arcs, a_node, its_nodes, a_graph, a_disjunction, a_description, Room, Asked, Loads};
ghost use Rattle.loading.specs.Loading.{stock, node_stock, Loadable, LoadedAt};

use limits::{CODE_LIMIT, DEPTH_LIMIT, wide};
use packing::{graph_word, tail_word};

// Where a graph ends, and the number of the next node.
#[derive(Clone, Copy)]
struct GraphReach {
    pub at: usize,
    pub number: u32,
}

// Where a thing ends, the number of the next node, and the first mark that is free.
#[derive(Clone, Copy)]
struct Reach {
    pub at: usize,
    pub number: u32,
    pub mark: u32,
}

// Loads the `count` arcs of a node.
fn load_arcs(t: &mut [u32], ws: &[u32], p: usize, shift: usize, count: u32, number: u32) -> usize
    requires room { Room t.old ws.now shift }
    requires asked { Asked (its_arcs count) ws.now p (node_stock number) }
    ensures { Loads (its_arcs count) ws.now p shift (node_stock number) t.old t.new result
        (node_stock number) }
{
    let mut at = p;
    // Counted down by hand: over a range loading takes 29 percent more instructions, and W1 2 percent.
    let mut left = count;
    while 0 < left {
        t[shift + at] = ws[at];
        t[shift + at + 1] = ws[at + 1] + number;
        at += 2;
        left -= 1;
    }
    at
}

// Loads a node: its head as it is, and its arcs.
fn load_node(t: &mut [u32], ws: &[u32], p: usize, shift: usize, number: u32) -> usize
    requires room { Room t.old ws.now shift }
    requires asked { Asked a_node ws.now p (node_stock number) }
    ensures { Loads a_node ws.now p shift (node_stock number) t.old t.new result
        (node_stock number) }
{
    let head = ws[p];
    t[shift + p] = head;
    if CODE_LIMIT <= head {
        return p + 1;
    }
    load_arcs(t, ws, p + 1, shift, head, number)
}

// Loads the `count` nodes of a graph.
fn load_nodes(t: &mut [u32], ws: &[u32], p: usize, shift: usize, count: u32, number: u32) -> usize
    requires room { Room t.old ws.now shift }
    requires asked { Asked (its_nodes count) ws.now p (node_stock number) }
    ensures { Loads (its_nodes count) ws.now p shift (node_stock number) t.old t.new result
        (node_stock number) }
{
    let mut at = p;
    for _ in 0..count {
        at = load_node(t, ws, at, shift, number);
    }
    at
}

// Loads a graph; its header is written once its end is known.
fn load_graph(t: &mut [u32], ws: &[u32], p: usize, shift: usize, number: u32) -> GraphReach
    requires room { Room t.old ws.now shift }
    requires asked { Asked a_graph ws.now p (node_stock number) }
    ensures { Loads a_graph ws.now p shift (node_stock number) t.old t.new result.at
        (node_stock result.number) }
{
    let count = ws[p];
    let at = load_nodes(t, ws, p + 1, shift, count, number);
    let extent = (at - p) as u32;
    t[shift + p] = graph_word(count, number, extent);
    GraphReach {
        at,
        number: number + count,
    }
}

// Loads a description whose alternatives nest at most `left` deep; it has the mark `own`, and marks are free from `mark` on. The word
// after its graph is written once its end is known.
#[cycle(load_description_load_disjunction)]
fn load_description(
    t: &mut [u32],
    ws: &[u32],
    p: usize,
    shift: usize,
    number: u32,
    own: u32,
    mark: u32,
    left: u32,
) -> Reach
    requires room { Room t.old ws.now shift }
    requires asked { Asked (a_description left) ws.now p (stock number own mark) }
    ensures { Loads (a_description left) ws.now p shift (stock number own mark) t.old t.new
        result.at (stock result.number (own + 1) result.mark) }
{
    let graph = load_graph(t, ws, p, shift, number);
    let q = graph.at;
    let count = ws[q];
    let mut reach = Reach {
        at: q + 1,
        number: graph.number,
        mark,
    };
    for _ in 0..count {
        reach = load_disjunction(t, ws, reach.at, shift, reach.number, reach.mark, left);
    }
    let end = (shift + reach.at) as u32;
    t[shift + q] = tail_word(count, own, end);
    reach
}

// Loads a disjunction whose own alternatives are one of the `left` levels: their number, and each as a description. Their marks stand
// together from `mark` on, and then come those inside of them.
#[cycle(load_description_load_disjunction)]
fn load_disjunction(
    t: &mut [u32],
    ws: &[u32],
    p: usize,
    shift: usize,
    number: u32,
    mark: u32,
    left: u32,
) -> Reach
    requires room { Room t.old ws.now shift }
    requires asked { Asked (a_disjunction left) ws.now p (stock number 0 mark) }
    ensures { Loads (a_disjunction left) ws.now p shift (stock number 0 mark) t.old t.new result.at
        (stock result.number 0 result.mark) }
{
    let count = ws[p];
    t[shift + p] = count;
    let mut reach = Reach {
        at: p + 1,
        number,
        mark: mark + count,
    };
    for own in mark..mark + count {
        reach = load_description(
            t,
            ws,
            reach.at,
            shift,
            reach.number,
            own,
            reach.mark,
            left - 1,
        );
    }
    reach
}

// Loads the words of an input at the shift, its nodes numbered from `number` on, and its marks after that number. The number of the next
// node.
pub fn load(t: &mut [u32], ws: &[u32], shift: usize, number: usize) -> usize
    requires { Loadable t.old ws.now shift number }
    ensures { LoadedAt ws.now shift number t.old t.new result }
{
    let first = number as u32;
    let reach = load_description(t, ws, 0, shift, first, first, first + 1, DEPTH_LIMIT);
    wide(reach.number)
}
