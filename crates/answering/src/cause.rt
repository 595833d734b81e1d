// Why an input is malformed.
ghost use Rattle.theory.specs.LayoutOne.{Image};
ghost use Rattle.answering.specs.Caused.{CauseIn};

use faults::fault::fault;
use roles::cause::Cause;

// Why these words are malformed: looked for only where they are, so that what is accepted costs nothing more.
pub fn cause_in(ws: &[u32]) -> Cause
    requires { Image ws.now → ⊥ }
    ensures { CauseIn ws.now result }
{
    match fault(ws) {
        Some(found) => found.cause,
        None => Cause::WordsEnd,
    }
}
