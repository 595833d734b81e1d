// The packed words of a loaded description: made here, and taken apart here.
#![tactic(auto)]

ghost use Rattle.std.specs.Prelude.{◌≡◌, ◌≤◌, ◌<◌};
ghost use Rattle.packing.specs.Packed.{number_step, mark_step, end_limit, graph_word, word_nodes, word_number, word_extent};
ghost use Rattle.packing.specs.Packed.{tail_word, word_disjunctions, word_mark, word_end};

use limits::wide;

// A graph's first word: its node count, the number of its node 0 times this,
const NUMBER_STEP: u32 = 1024;

// and its extent times this.
const EXTENT_STEP: u32 = 1048576;

// The word after a graph: the number of disjunctions, the number of the description's mark times this,
const MARK_STEP: u32 = 1024;

// and the position where the description ends times this.
const END_STEP: u32 = 1048576;

// The first word of a graph.
pub fn graph_word(nodes: u32, number: u32, extent: u32) -> u32
    requires { (nodes ≤ number_step) × ((number ≤ number_step) × (extent ≤ number_step)) }
    ensures { result ≡ graph_word nodes number extent }
{
    nodes + NUMBER_STEP * number + EXTENT_STEP * extent
}

// The node count of a graph, of its first word.
pub fn nodes_of(x: u32) -> usize
    ensures { result ≡ word_nodes x }
{
    wide(x % NUMBER_STEP)
}

// The number of a graph's node 0, of its first word.
pub fn number_of(x: u32) -> usize
    ensures { result ≡ word_number x }
{
    wide(x / NUMBER_STEP % NUMBER_STEP)
}

// How many words a graph has, of its first word.
pub fn extent_of(x: u32) -> usize
    ensures { result ≡ word_extent x }
{
    wide(x / EXTENT_STEP)
}

// The word after a graph.
pub fn tail_word(count: u32, mark: u32, end: u32) -> u32
    requires { (count < mark_step) × ((mark < mark_step) × (end < end_limit)) }
    ensures { result ≡ tail_word count mark end }
{
    count + MARK_STEP * mark + END_STEP * end
}

// The number of disjunctions, of the word after a graph.
pub fn disjunctions_of(x: u32) -> usize
    ensures { result ≡ word_disjunctions x }
{
    wide(x % MARK_STEP)
}

// The number of the description's mark, of the word after its graph.
pub fn mark_of(x: u32) -> usize
    ensures { result ≡ word_mark x }
{
    wide(x / MARK_STEP % MARK_STEP)
}

// Where the description ends, of the word after its graph.
pub fn end_of(x: u32) -> usize
    ensures { result ≡ word_end x }
{
    wide(x / END_STEP)
}
