// What the words before determine: the role of the next one, and the open alternatives.
ghost use Rattle.std.specs.Prelude.{◌≡◌, [], ◌∷◌, ◌<◌, ◌≤◌};
ghost use Rattle.std.proofs.Math.Option.{none};
ghost use Rattle.theory.specs.Limits.{depth_limit};
ghost use Rattle.roles.specs.Faults.{breaks, completed, disjunctions_from, expected_after};
ghost use Rattle.faults.specs.Coded.{nesting_of, expected_of, Bounded};

use crate::next::{after_head, after_target};
use limits::wide;
use roles::role::{Nodes, Role};

// An open alternative: how many alternatives follow it, and how many disjunctions follow its disjunction.
#[derive(Clone, Copy)]
pub struct Open {
    pub alternatives: u32,
    pub disjunctions: u32,
}

// How many alternatives are open, one in the other, and these from the outermost on.
#[derive(Clone, Copy)]
pub struct Nesting {
    pub depth: u32,
    pub open: [Open; 4],
}

// The role of the next word, and the open alternatives.
#[derive(Clone, Copy)]
pub struct Expected {
    pub role: Role,
    pub nesting: Nesting,
}

// Nothing is open before the first word.
pub(crate) fn nothing_open() -> Nesting
    ensures { nesting_of result ≡ [] }
{
    Nesting {
        depth: 0,
        open: [Open {
            alternatives: 0,
            disjunctions: 0,
        }; 4],
    }
}

// An alternative is open besides.
fn opened(nesting: Nesting, open: Open) -> Nesting
    requires { nesting.depth < depth_limit }
    ensures { nesting_of result ≡ (open.alternatives, open.disjunctions) ∷ nesting_of nesting }
{
    let mut next = nesting;
    next.open[wide(nesting.depth)] = open;
    next.depth = nesting.depth + 1;
    next
}

// A description is complete: the next alternative, or the next disjunction; else what follows the description around it.
fn completed(nesting: Nesting) -> Expected
    requires { nesting.depth ≤ depth_limit }
    ensures { expected_of result ≡ completed (nesting_of nesting) }
{
    let mut left = nesting;
    for last in (0..nesting.depth).rev() {
        left.depth = last;
        let open = left.open[wide(last)];
        if 0 < open.alternatives {
            let next = Open {
                alternatives: open.alternatives - 1,
                ..open
            };
            return Expected {
                role: Role::NodeCount,
                nesting: opened(left, next),
            };
        }
        if 0 < open.disjunctions {
            return Expected {
                role: Role::AlternativeCount(open.disjunctions - 1),
                nesting: left,
            };
        }
    }
    Expected {
        role: Role::End,
        nesting: left,
    }
}

// So many disjunctions more.
fn disjunctions_from(nesting: Nesting, count: u32) -> Expected
    requires { nesting.depth ≤ depth_limit }
    ensures { expected_of result ≡ disjunctions_from count (nesting_of nesting) }
{
    if count == 0 {
        return completed(nesting);
    }
    Expected {
        role: Role::AlternativeCount(count - 1),
        nesting,
    }
}

// What is expected after a word that breaks no rule.
pub(crate) fn expected_after(expected: Expected, word: u32) -> Expected
    requires { Bounded (expected_of expected) × (breaks (expected_of expected) word ≡ none) }
    ensures { expected_of result ≡ expected_after (expected_of expected) word }
{
    let role = expected.role;
    let nesting = expected.nesting;
    match role {
        Role::NodeCount => {
            let nodes = Nodes {
                count: word,
                node: 0,
                met: 1,
            };
            Expected {
                role: Role::Head(nodes),
                nesting,
            }
        }
        Role::Head(nodes) => Expected {
            role: after_head(nodes, word),
            nesting,
        },
        Role::Feature(nodes, left, _) => Expected {
            role: Role::Target(nodes, left, word + 1),
            nesting,
        },
        Role::Target(nodes, left, low) => Expected {
            role: after_target(nodes, left, low, word),
            nesting,
        },
        Role::DisjunctionCount => disjunctions_from(nesting, word),
        Role::AlternativeCount(more) => {
            let first = Open {
                alternatives: word - 1,
                disjunctions: more,
            };
            Expected {
                role: Role::NodeCount,
                nesting: opened(nesting, first),
            }
        }
        Role::End => expected,
    }
}
