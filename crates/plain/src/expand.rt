// The choices one by one: each is joined node by node, and the first clash leaves it.
ghost use Rattle.leaving.specs.Found.{Searches};
ghost use Rattle.plain.specs.Expanded.{Expanding};

use crate::light::{light_taken, listed};
use area::log::undo;
use area::map::{Area, Nodes};
use choosing::choose::choose_both;
use choosing::word::{is_new, place_of};
use classes::visit::{one_node, span};
use forest::chain::loaded;
use forest::settle::unite;
use packing::{nodes_of, number_of};

// How many of the `total` choices of both inputs over the kept alternatives are consistent; every alternative in one of them is found.
pub fn expand(w: &mut Area, k: usize, n: Nodes, total: u32) -> u32
    requires { Expanding n.count k w.old total }
    ensures { Searches n.count k w.old result w.new }
{
    let mut found: u32 = 0;
    // The first clash leaves a choice at once: the loops over its graphs and their nodes are left by the label.
    'choices: for next in 0..total {
        let many = choose_both(w, next);
        let mut log = k;
        for i in 0..many {
            let word = listed(w, i);
            if !is_new(word) {
                continue;
            }
            let g = place_of(word);
            let head = loaded(w, g);
            let first = number_of(head);
            let count = nodes_of(head);
            log = match unite(w, log, n, 0, first) {
                Ok(root) => root,
                Err(clash) => {
                    undo(w, clash.k, k);
                    continue 'choices;
                }
            };
            let mut at = g + 1;
            for node in first..first + count {
                log = match one_node(w, log, n, node, at) {
                    Ok(one) => one,
                    Err(clash) => {
                        undo(w, clash.k, k);
                        continue 'choices;
                    }
                };
                at += span(loaded(w, at));
            }
        }
        undo(w, log, k);
        light_taken(w, many);
        found += 1;
    }
    found
}
