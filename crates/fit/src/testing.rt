// Testing a description against a structure: its graph, and of each disjunction an alternative.
ghost use Rattle.fit.specs.Parts.{graphIn};
ghost use Rattle.fit.specs.Sending.{Noted};
ghost use Rattle.fit.specs.Testing.{graph_subject, disjunction_subject, description_subject, Testable, Answers, Skips, Tested};
ghost use Rattle.fit.specs.Testing.{TestAsked};

use crate::sending::{NODE_LIMIT, Structure, note, send_nodes};
use layout::skipping::skip_description;
use limits::DEPTH_LIMIT;

// Tests a graph, whose root goes to the structure's: the position after it, or none where it does not fit.
fn test_graph(
    map: &mut [u32; NODE_LIMIT],
    structure: Structure,
    ws: &[u32],
    p: usize,
) -> Option<usize>
    requires noted { Noted structure.words.now structure.places.now }
    requires testable { Testable (graph_subject (graphIn structure.words.now 0)) ws.now p }
    ensures { Answers (graph_subject (graphIn structure.entry.words.now 0)) ws.now p result }
{
    let nodes = ws[p];
    map[0] = 0;
    send_nodes(map, structure, ws, p + 1, nodes)
}

// Tests a description whose alternatives nest at most `left` deep, its graph and each disjunction: the position after it, or none.
#[cycle(test_description_test_disjunction)]
fn test_description(
    map: &mut [u32; NODE_LIMIT],
    structure: Structure,
    ws: &[u32],
    p: usize,
    left: u32,
) -> Option<usize>
    requires noted { Noted structure.words.now structure.places.now }
    requires testable { Testable (description_subject (graphIn structure.words.now 0) left) ws.now p }
    ensures { Answers (description_subject (graphIn structure.entry.words.now 0) left) ws.now p result }
{
    let q = test_graph(map, structure, ws, p)?;
    let mut at = q + 1;
    for _ in 0..ws[q] {
        at = test_disjunction(map, structure, ws, at, left)?;
    }
    Some(at)
}

// Tests a disjunction whose own alternatives are one of the `left` levels: those after the first that fits are skipped.
#[cycle(test_description_test_disjunction)]
fn test_disjunction(
    map: &mut [u32; NODE_LIMIT],
    structure: Structure,
    ws: &[u32],
    p: usize,
    left: u32,
) -> Option<usize>
    requires noted { Noted structure.words.now structure.places.now }
    requires testable { Testable (disjunction_subject (graphIn structure.words.now 0) left) ws.now p }
    ensures { Answers (disjunction_subject (graphIn structure.entry.words.now 0) left) ws.now p result }
{
    let mut at = p + 1;
    for others in (0..ws[p]).rev() {
        if let Some(next) = test_description(map, structure, ws, at, left - 1) {
            return Some(skip_alternatives(ws, next, others));
        }
        at = skip_description(ws, at);
    }
    None
}

// Where `count` alternatives end.
fn skip_alternatives(ws: &[u32], p: usize, count: u32) -> usize
    ensures { Skips ws.now p count result }
{
    let mut at = p;
    for _ in 0..count {
        at = skip_description(ws, at);
    }
    at
}

// Tests all of a description.
pub fn satisfied(structure: &[u32], description: &[u32]) -> bool
    requires { TestAsked structure.now description.now }
    ensures { Tested structure.now description.now result }
{
    let mut places = [0; NODE_LIMIT];
    note(&mut places, structure);
    let noted = Structure {
        words: structure,
        places: &places,
    };
    let mut map = [0; NODE_LIMIT];
    test_description(&mut map, noted, description, 0, DEPTH_LIMIT).is_some()
}
