// What a word leads to within its graph.
ghost use Rattle.std.specs.Prelude.{◌≡◌, ◌<◌, max, suc};
ghost use Rattle.roles.specs.Faults.{next_node, next_arc, after_head};
ghost use Rattle.roles.specs.Coded.{role_of};

use limits::CODE_LIMIT;
use roles::role::{Nodes, Role};

// After a node: the next one, or what follows the graph.
fn next_node(nodes: Nodes) -> Role
    requires { nodes.node < nodes.count }
    ensures { role_of result ≡ next_node nodes.count nodes.node nodes.met }
{
    let node = nodes.node + 1;
    if node < nodes.count {
        return Role::Head(Nodes {
            count: nodes.count,
            node,
            met: nodes.met,
        });
    }
    Role::DisjunctionCount
}

// So many arcs more, their features from `low` on.
fn next_arc(nodes: Nodes, left: u32, low: u32) -> Role
    requires { nodes.node < nodes.count }
    ensures { role_of result ≡ next_arc nodes.count nodes.node nodes.met left low }
{
    if left == 0 {
        return next_node(nodes);
    }
    Role::Feature(nodes, left - 1, low)
}

// After a head: the arcs, or an atom's next node.
pub(crate) fn after_head(nodes: Nodes, head: u32) -> Role
    requires { nodes.node < nodes.count }
    ensures { role_of result ≡ after_head nodes.count nodes.node nodes.met head }
{
    if head < CODE_LIMIT {
        return next_arc(nodes, head, 0);
    }
    next_node(nodes)
}

// After a target, which may be met here for the first time.
pub(crate) fn after_target(nodes: Nodes, left: u32, low: u32, target: u32) -> Role
    requires { (nodes.node < nodes.count) × (target < nodes.count) }
    ensures { role_of result ≡ next_arc nodes.count nodes.node (max nodes.met (suc target)) left low }
{
    if target < nodes.met {
        return next_arc(nodes, left, low);
    }
    let reached = Nodes {
        count: nodes.count,
        node: nodes.node,
        met: target + 1,
    };
    next_arc(reached, left, low)
}
