// What a word has to be, and the rule that it breaks.
ghost use Rattle.std.specs.Prelude.{◌≡◌, length};
ghost use Rattle.roles.specs.Faults.{Nesting, expect, breaks};
ghost use Rattle.roles.specs.Coded.{role_of, broken_of};

use crate::cause::Cause;
use limits::{CODE_LIMIT, DEPTH_LIMIT};

// Heads are below it: the number of arcs, or an atom above `CODE_LIMIT`.
const HEAD_LIMIT: u32 = 2 * CODE_LIMIT;

// Of so many nodes one is read, and the nodes below `met` are met.
#[derive(Clone, Copy)]
pub struct Nodes {
    pub count: u32,
    pub node: u32,
    pub met: u32,
}

// What a word has to be: of an arc, how many follow it, and the least feature that may come next; of a disjunction, how many follow it.
#[derive(Clone, Copy)]
pub enum Role {
    NodeCount,
    Head(Nodes),
    Feature(Nodes, u32, u32),
    Target(Nodes, u32, u32),
    DisjunctionCount,
    AlternativeCount(u32),
    End,
}

// "a node not yet met shows at its own head, before a bad head"
fn head_breaks(nodes: Nodes, head: u32) -> Option<Cause>
    ensures { (s : Nesting) → broken_of result ≡ breaks (expect (role_of (Role.Head nodes)) s) head }
{
    if nodes.met <= nodes.node {
        return Some(Cause::NotMet);
    }
    if HEAD_LIMIT <= head {
        return Some(Cause::BadHead(head));
    }
    None
}

fn feature_breaks(nodes: Nodes, left: u32, low: u32, feature: u32) -> Option<Cause>
    ensures { (s : Nesting) → broken_of result ≡ breaks (expect (role_of (Role.Feature nodes left low)) s) feature }
{
    if feature < low {
        return Some(Cause::BadFeature);
    }
    if CODE_LIMIT <= feature {
        return Some(Cause::BadFeature);
    }
    None
}

fn target_breaks(nodes: Nodes, left: u32, low: u32, target: u32) -> Option<Cause>
    ensures { (s : Nesting) → broken_of result ≡ breaks (expect (role_of (Role.Target nodes left low)) s) target }
{
    if nodes.met < target {
        return Some(Cause::BadTarget(target));
    }
    if nodes.count <= target {
        return Some(Cause::BadTarget(target));
    }
    None
}

// "too deep a nesting at the number of disjunctions"
fn disjunctions_break(depth: u32, count: u32) -> Option<Cause>
    ensures { (s : Nesting) → length s ≡ depth →
        broken_of result ≡ breaks (expect (role_of Role.DisjunctionCount) s) count }
{
    if count == 0 {
        return None;
    }
    if DEPTH_LIMIT <= depth {
        return Some(Cause::TooDeep);
    }
    None
}

// Why a word breaks the rule of its role, if it does, where alternatives are open so deep.
pub fn breaks(role: Role, depth: u32, word: u32) -> Option<Cause>
    ensures { (s : Nesting) → length s ≡ depth → broken_of result ≡ breaks (expect (role_of role) s) word }
{
    match role {
        Role::NodeCount => {
            if word == 0 {
                return Some(Cause::NoNodes);
            }
            None
        }
        Role::Head(nodes) => head_breaks(nodes, word),
        Role::Feature(nodes, left, low) => feature_breaks(nodes, left, low, word),
        Role::Target(nodes, left, low) => target_breaks(nodes, left, low, word),
        Role::DisjunctionCount => disjunctions_break(depth, word),
        Role::AlternativeCount(_) => {
            if word < 2 {
                return Some(Cause::FewAlternatives);
            }
            None
        }
        Role::End => Some(Cause::WordsLeftOver),
    }
}
