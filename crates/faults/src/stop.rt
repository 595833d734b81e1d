// Going over the words to the first that breaks a rule.
ghost use Rattle.roles.specs.Coded.{role_of, broken_of};
ghost use Rattle.faults.specs.Stops.{Stopped};

use crate::nesting::{Expected, expected_after, nothing_open};
use roles::cause::Cause;
use roles::role::{Role, breaks};

// The role of a word and its place, and why it breaks a rule; none at the end.
#[derive(Clone, Copy)]
pub struct Stop {
    pub role: Role,
    pub broken: Option<Cause>,
    pub at: usize,
}

// The first word that breaks a rule, or the end.
pub(crate) fn first_stop(ws: &[u32]) -> Stop
    ensures { Stopped ws.now (role_of result.role) (broken_of result.broken) result.at }
{
    let mut expected = Expected {
        role: Role::NodeCount,
        nesting: nothing_open(),
    };
    for (at, word) in ws.iter().enumerate() {
        if let Some(cause) = breaks(expected.role, expected.nesting.depth, *word) {
            return Stop {
                role: expected.role,
                broken: Some(cause),
                at,
            };
        }
        expected = expected_after(expected, *word);
    }
    Stop {
        role: expected.role,
        broken: None,
        at: ws.len(),
    }
}
