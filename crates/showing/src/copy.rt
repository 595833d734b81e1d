// A graph as it was loaded is put out as it came in: each target by its number within the graph.
ghost use Rattle.showing.specs.Copying.{arcs_piece, node_piece, nodes_piece, Copying, Copies, Graphing, Graphs};

use area::map::{Area, RESULT};
use limits::CODE_LIMIT;
use marks::positions::{number_at, word_at};
use packing::nodes_of;

// Copies the `count` arcs at p of the loaded words to o of the result. Where they end.
fn copy_arcs(w: &mut Area, number: u32, p: usize, count: u32, o: usize) -> usize
    requires { Copying (arcs_piece count) w.old number p o }
    ensures { Copies (arcs_piece count) w.old number p o result w.new }
{
    let mut at = p;
    let mut out = o;
    for _ in 0..count {
        let feature = word_at(w, at);
        let target = word_at(w, at + 1);
        w[RESULT + out] = feature;
        w[RESULT + out + 1] = target - number;
        at += 2;
        out += 2;
    }
    out
}

// Copies a node: its head as it is, and its arcs.
fn copy_node(w: &mut Area, number: u32, p: usize, o: usize) -> usize
    requires { Copying node_piece w.old number p o }
    ensures { Copies node_piece w.old number p o result w.new }
{
    let head = word_at(w, p);
    w[RESULT + o] = head;
    if CODE_LIMIT <= head {
        return o + 1;
    }
    copy_arcs(w, number, p + 1, head, o + 1)
}

// Copies the `count` nodes of a graph.
fn copy_nodes(w: &mut Area, number: u32, p: usize, count: usize, o: usize) -> usize
    requires { Copying (nodes_piece count) w.old number p o }
    ensures { Copies (nodes_piece count) w.old number p o result w.new }
{
    let mut at = p;
    let mut out = o;
    for _ in 0..count {
        let end = copy_node(w, number, at, out);
        at += end - out;
        out = end;
    }
    out
}

// Copies the graph at g of the loaded words to o of the result. Where it ends.
pub fn copy_graph(w: &mut Area, g: usize, o: usize) -> usize
    requires { Graphing w.old g o }
    ensures { Graphs w.old g o result w.new }
{
    let number = number_at(w, g) as u32;
    let count = nodes_of(word_at(w, g));
    w[RESULT + o] = count as u32;
    copy_nodes(w, number, g + 1, count, o + 1)
}
