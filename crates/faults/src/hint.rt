// What could stand where a word breaks a rule, or was to come where words end: one number, as `explain` prints it (`Hinted`).
ghost use Rattle.std.specs.Prelude.{◌≡◌};
ghost use Rattle.roles.specs.Coded.{cause_of, role_of};
ghost use Rattle.faults.specs.Hints.{kind, greatest_target, bound, hint, Hinted};

use crate::stop::first_stop;
use roles::cause::Cause;
use roles::role::{Nodes, Role};

// The number of a role, 1 to 6; 0 at the end.
fn kind(role: Role) -> u32
    ensures { result ≡ kind (role_of role) }
{
    match role {
        Role::NodeCount => 1,
        Role::Head(_) => 2,
        Role::Feature(_, _, _) => 3,
        Role::Target(_, _, _) => 4,
        Role::DisjunctionCount => 5,
        Role::AlternativeCount(_) => 6,
        Role::End => 0,
    }
}

// The next node that is not yet met; where all are met, the last.
fn greatest_target(nodes: Nodes) -> u32
    ensures { result ≡ greatest_target nodes.count nodes.met }
{
    if nodes.met < nodes.count {
        return nodes.met;
    }
    if nodes.count == 0 {
        return 0;
    }
    nodes.count - 1
}

// Of a head its node, of a feature the least, of a target the greatest.
fn bound(role: Role) -> u32
    ensures { result ≡ bound (role_of role) }
{
    match role {
        Role::Head(nodes) => nodes.node,
        Role::Feature(_, _, low) => low,
        Role::Target(nodes, _, _) => greatest_target(nodes),
        _ => 0,
    }
}

// The hint that goes with a cause.
fn hint_for(cause: Cause, role: Role) -> u32
    ensures { result ≡ hint (cause_of cause) (role_of role) }
{
    match cause {
        Cause::WordsEnd => kind(role),
        Cause::BadFeature | Cause::BadTarget(_) | Cause::NotMet => bound(role),
        _ => 0,
    }
}

// What could stand at the word that decides.
pub fn hint(ws: &[u32]) -> u32
    ensures { Hinted ws.now result }
{
    let stop = first_stop(ws);
    match stop.broken {
        Some(cause) => hint_for(cause, stop.role),
        None => kind(stop.role),
    }
}
