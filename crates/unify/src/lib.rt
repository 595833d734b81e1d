// Unification of two descriptions: document 01's table of numbers, for every mode, every input and every room.
#![tactic(auto)]

pub mod making;

ghost use Rattle.std.specs.Prelude.{◌≤◌, ◌++◌, List, ℕ};
ghost use Rattle.theory.specs.Outcome.{Outcome};
ghost use Rattle.opening.specs.Opening.{Opening};
ghost use Rattle.answering.specs.Number.{row_of};
ghost use Rattle.answering.specs.Caused.{Caused};

use crate::making::make;
use answering::answer::{Answer, Refusal};
use answering::areas::wipe;
use answering::cause::cause_in;
use answering::hand::hand_over;
use area::map::{Area, SIZE};
use full::full::Engine;
use layout::reading::judge;
use limits::INPUT_LIMIT;

// "mode above 2"
const LAST_MODE: u32 = 2;

// The answer to two inputs that are well formed and not too long, whatever stands behind the working area.
fn conclude(
    mode: u32,
    engine: Engine,
    first: &[u32],
    second: &[u32],
    res: &mut [u32],
    working: &mut Area,
) -> Answer
    requires { (mode ≤ 2) × Opening working.old first.now second.now }
    ensures outcome { (rest : List ℕ) →
        Outcome (record { mode = mode; first = first.now; second = second.now })
        (record { result = res.old; working = working.old ++ rest }) (row_of result)
        (record { result = res.new; working = working.new ++ rest }) }
    ensures caused { Caused first.now second.now result }
{
    let made = make(mode, engine, working, first, second);
    let answer = hand_over(made, working, res);
    wipe(working);
    answer
}

// Document 01's table, whichever engine completes mode 2. Only a result writes to the result area.
fn run(
    mode: u32,
    engine: Engine,
    first: &[u32],
    second: &[u32],
    res: &mut [u32],
    working: &mut [u32],
) -> Answer
    ensures outcome { Outcome (record { mode = mode; first = first.now; second = second.now })
        (record { result = res.old; working = working.old }) (row_of result)
        (record { result = res.new; working = working.new }) }
    ensures caused { Caused first.now second.now result }
{
    if LAST_MODE < mode {
        return Err(Refusal::BadMode);
    }
    let Some(area) = working.first_chunk_mut::<SIZE>() else {
        return Err(Refusal::SmallArea);
    };
    if INPUT_LIMIT < first.len() {
        return Err(Refusal::TooLong);
    }
    if INPUT_LIMIT < second.len() {
        return Err(Refusal::TooLong);
    }
    if !judge(first) {
        return Err(Refusal::BadFirst(cause_in(first)));
    }
    if !judge(second) {
        return Err(Refusal::BadSecond(cause_in(second)));
    }
    conclude(mode, engine, first, second, res, area)
}

// Unifies two descriptions.
pub fn unify(
    mode: u32,
    first: &[u32],
    second: &[u32],
    res: &mut [u32],
    working: &mut [u32],
) -> Answer
    ensures outcome { Outcome (record { mode = mode; first = first.now; second = second.now })
        (record { result = res.old; working = working.old }) (row_of result)
        (record { result = res.new; working = working.new }) }
    ensures caused { Caused first.now second.now result }
{
    run(mode, Engine::Fast, first, second, res, working)
}

// "It takes no mode and does mode 2's work": unifies two descriptions by expanding what the quick step leaves to every choice.
pub fn plain(first: &[u32], second: &[u32], res: &mut [u32], working: &mut [u32]) -> Answer
    ensures outcome { Outcome (record { mode = 2; first = first.now; second = second.now })
        (record { result = res.old; working = working.old }) (row_of result)
        (record { result = res.new; working = working.new }) }
    ensures caused { Caused first.now second.now result }
{
    run(LAST_MODE, Engine::Plain, first, second, res, working)
}
