// What a mode made is handed over.
ghost use Rattle.std.specs.Prelude.{◌≡◌};
ghost use Rattle.answering.specs.Handing.{ResultInside, Handed, refusal_of};

use crate::answer::{Answer, Refusal, Unified};
use crate::areas::copy_out;
use area::map::RESULT;

// Why a mode makes no result: the definite graphs clash at a node, the quick step fails, there are too many choices, or no choice is
// consistent.
#[derive(Clone, Copy)]
pub enum Failure {
    Clash { node: usize },
    QuickFails,
    TooMany,
    NoChoice,
}

// What a mode made: a result, whose words stand in the working area.
pub type Made = Result<Unified, Failure>;

impl From<Failure> for Refusal {
    ghost from_gives = { λ failure refusal. refusal ≡ refusal_of failure };

    fn from(failure: Failure) -> Refusal {
        match failure {
            Failure::Clash { node } => Refusal::Clash { node },
            Failure::QuickFails => Refusal::QuickFails,
            Failure::TooMany => Refusal::TooMany,
            Failure::NoChoice => Refusal::NoChoice,
        }
    }
}

// Hands over what was made: its words go to the result area if they have room there.
pub fn hand_over(made: Made, working: &[u32], res: &mut [u32]) -> Answer
    requires { ResultInside working.now made }
    ensures { Handed working.now res.old made result res.new }
{
    let unified = made?;
    let length = unified.length;
    if res.len() < length {
        return Err(Refusal::NoRoom { length });
    }
    copy_out(&working[RESULT..RESULT + length], res);
    Ok(unified)
}
