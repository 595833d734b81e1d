// The atoms' heads of a loaded graph are taken out, and the heads of its nodes kept from MARKS on, which nothing needs after a clash.
ghost use Rattle.finding_clash.specs.Heads.{NodeBaring, NodeBares, Baring, Bares};

use area::map::{Area, MARKS};
use limits::{CODE_LIMIT, wide};

// The head of the node at p is kept as that of node i, and is 0 if it is an atom's. Where the node ends.
fn bare_node(w: &mut Area, p: usize, i: usize) -> usize
    requires { NodeBaring w.old p i }
    ensures { NodeBares w.old p i result w.new }
{
    let head = w[p];
    w[MARKS + i] = head;
    if CODE_LIMIT <= head {
        w[p] = 0;
        return p + 1;
    }
    p + 1 + 2 * wide(head)
}

// The same for the `count` nodes from p on, the first of which is node i.
pub(crate) fn bare(w: &mut Area, p: usize, count: usize, i: usize)
    requires { Baring w.old p count i }
    ensures { Bares w.old p count i w.new }
{
    let mut at = p;
    for node in i..i + count {
        at = bare_node(w, at, node);
    }
}
