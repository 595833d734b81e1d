// Giving each node of a graph its structure node: the one possible map, from the root on.
ghost use Rattle.std.specs.Prelude.{◌≡◌, suc, max};
ghost use Rattle.fit.specs.Parts.{arcs_in, arcsOfWords, lastArcs, graphIn};
ghost use Rattle.fit.specs.Sending.{FindsTarget, Steps, Sends, Walks, SentNodes, Findable, Sendable, ArcsAsked, NodeAsked};
ghost use Rattle.fit.specs.Sending.{NodesAsked};
ghost use Rattle.fit.specs.Sending.{Noted, Notable};

use graphs::graph::Walk;
use limits::{CODE_LIMIT, wide};

// A graph in an input has at most so many nodes: each but the root has an arc to it, so it takes three words.
pub const NODE_LIMIT: usize = 342;

// A structure's words, and where each of its nodes stands. That they do is `Noted` in the contracts: no ghost field stands beside a
// reference.
#[derive(Clone, Copy)]
pub struct Structure<'a> {
    pub words: &'a [u32],
    pub places: &'a [u32; NODE_LIMIT],
}

// The target of the arc of a feature, and how many arcs come after that one.
#[derive(Clone, Copy)]
pub struct Found {
    pub target: u32,
    pub left: u32,
}

// How many arcs a head tells.
#[tactic(auto, unfolding(crate::specs::Parts::arcs_in))]
fn arcs_in(head: u32) -> u32
    ensures { result ≡ arcs_in head }
{
    if head < CODE_LIMIT {
        return head;
    }
    0
}

// Looks for a feature among the last `count` of a node's arcs, which end at `end` and rise.
fn find(structure: &[u32], end: usize, count: u32, feature: u32) -> Option<Found>
    requires { Findable structure.now end count }
    ensures { FindsTarget structure.now end count feature result }
{
    for left in (0..count).rev() {
        let at = end - 2 * wide(left + 1);
        let here = structure[at];
        if feature < here {
            return None;
        }
        if feature == here {
            return Some(Found {
                target: structure[at + 1],
                left,
            });
        }
    }
    None
}

// Gives a node its structure node, where the nodes below `met` have one: how many have one then, or none where it has another.
fn send(map: &mut [u32; NODE_LIMIT], node: u32, given: u32, met: u32) -> Option<u32>
    requires { Sendable node met }
    ensures { Steps map.old met (λ m. m node ≡ given) (max met (suc node)) map.new result }
{
    if node < met {
        if map[wide(node)] == given {
            return Some(met);
        }
        return None;
    }
    map[wide(node)] = given;
    Some(node + 1)
}

// Sends the `count` arcs of a node along the `ahead` arcs of its structure node, which end at `end`: both rise.
fn send_arcs(
    map: &mut [u32; NODE_LIMIT],
    structure: &[u32],
    end: usize,
    ahead: u32,
    ws: &[u32],
    p: usize,
    count: u32,
    first: u32,
) -> Option<u32>
    requires { ArcsAsked structure.now end ahead ws.now p count first }
    ensures { Sends (lastArcs structure.now end ahead) (arcsOfWords ws.now p count) map.old first
        map.new result }
{
    let mut at = p;
    let mut more = ahead;
    let mut met = first;
    for _ in 0..count {
        let found = find(structure, end, more, ws[at])?;
        met = send(map, ws[at + 1], found.target, met)?;
        more = found.left;
        at += 2;
    }
    Some(met)
}

// Sends node i to the structure node that it is given: its atom, or its arcs.
fn send_node(
    map: &mut [u32; NODE_LIMIT],
    structure: Structure,
    ws: &[u32],
    p: usize,
    i: u32,
    met: u32,
) -> Option<Walk>
    requires noted { Noted structure.words.now structure.places.now }
    requires node_asked { NodeAsked structure.words.now ws.now p i map.old met }
    ensures { Walks (graphIn structure.entry.words.now 0) ws.now p i map.old met map.new result }
{
    let head = ws[p];
    let given = map[wide(i)];
    let there = wide(structure.places[wide(given)]);
    let other = structure.words[there];
    if CODE_LIMIT <= head {
        if head == other {
            return Some(Walk { next: p + 1, met });
        }
        return None;
    }
    let ahead = arcs_in(other);
    let end = there + 1 + 2 * wide(ahead);
    let reached = send_arcs(map, structure.words, end, ahead, ws, p + 1, head, met)?;
    Some(Walk {
        next: p + 1 + 2 * wide(head),
        met: reached,
    })
}

// Sends all nodes of a graph of so many nodes, where the root has its structure node: the position after them.
pub fn send_nodes(
    map: &mut [u32; NODE_LIMIT],
    structure: Structure,
    ws: &[u32],
    p: usize,
    nodes: u32,
) -> Option<usize>
    requires noted { Noted structure.words.now structure.places.now }
    requires nodes_asked { NodesAsked structure.words.now ws.now p nodes map.old }
    ensures { SentNodes (graphIn structure.entry.words.now 0) ws.now p nodes map.old result }
{
    let mut walk = Walk { next: p, met: 1 };
    for i in 0..nodes {
        walk = send_node(map, structure, ws, walk.next, i, walk.met)?;
    }
    Some(walk.next)
}

// Notes where each node of the structure stands.
pub fn note(place: &mut [u32; NODE_LIMIT], structure: &[u32])
    requires { Notable structure.now }
    ensures { Noted structure.now place.new }
{
    let mut at: u32 = 1;
    for i in 0..wide(structure[0]) {
        let head = structure[wide(at)];
        place[i] = at;
        at = at + 1 + 2 * arcs_in(head);
    }
}
