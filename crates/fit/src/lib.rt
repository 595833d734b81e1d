// The fit test of document 01: whether a structure, a description with no disjunctions, satisfies a description.
#![tactic(auto)]

mod sending;
mod testing;

ghost use Rattle.std.specs.Prelude.{◌≡◌};
ghost use Rattle.theory.specs.FitTest.{FitGiven};
ghost use Rattle.fit.specs.Number.{number_of};

use crate::testing::satisfied;
use layout::reading::judge;
use layout::skipping::skip_graph;
use limits::INPUT_LIMIT;

// Why no fit is tested.
#[derive(Clone, Copy, Debug, PartialEq, Eq)]
pub enum Refusal {
    TooLong,
    BadStructure,
    BadDescription,
    HasDisjunctions,
}

// Whether a structure satisfies a description; `number_of` gives document 01's number of each verdict.
pub type Verdict = Result<bool, Refusal>;

// Document 01's number, as the C interface has it (`bublastyr_fit`).
pub fn number(verdict: Verdict) -> u32
    ensures { result ≡ number_of verdict }
{
    match verdict {
        Ok(true) => 0,
        Ok(false) => 6,
        Err(Refusal::TooLong) => 3,
        Err(Refusal::BadStructure) => 4,
        Err(Refusal::BadDescription) => 5,
        Err(Refusal::HasDisjunctions) => 9,
    }
}

// Tells whether the structure satisfies the description.
pub fn fit(structure: &[u32], description: &[u32]) -> Verdict
    ensures { FitGiven structure.now description.now (number_of result) }
{
    if INPUT_LIMIT < structure.len() {
        return Err(Refusal::TooLong);
    }
    if INPUT_LIMIT < description.len() {
        return Err(Refusal::TooLong);
    }
    if !judge(structure) {
        return Err(Refusal::BadStructure);
    }
    if !judge(description) {
        return Err(Refusal::BadDescription);
    }
    let end = skip_graph(structure, 0);
    if 0 < structure[end] {
        return Err(Refusal::HasDisjunctions);
    }
    Ok(satisfied(structure, description))
}
