// The first word that breaks a rule.
ghost use Rattle.std.specs.Prelude.{◌≡◌};
ghost use Rattle.faults.specs.Coded.{ended_of};
ghost use Rattle.faults.specs.Told.{Told};

use crate::stop::first_stop;
use crate::verdict::Fault;
use roles::cause::Cause;
use roles::role::Role;

// The words end.
fn ended(role: Role, at: usize) -> Option<Fault>
    ensures { result ≡ ended_of role at }
{
    match role {
        Role::End => None,
        _ => Some(Fault {
            cause: Cause::WordsEnd,
            at,
        }),
    }
}

// "The first word, in reading order, that breaks a rule by itself or with the words before it decides"; a description has no fault.
pub fn fault(ws: &[u32]) -> Option<Fault>
    ensures { Told ws.now result }
{
    let stop = first_stop(ws);
    match stop.broken {
        Some(cause) => Some(Fault { cause, at: stop.at }),
        None => ended(stop.role, stop.at),
    }
}
