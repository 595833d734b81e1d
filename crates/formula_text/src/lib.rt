// From the text of a formula to what is printed for it.
#![tactic(auto)]

pub mod text;

ghost use Rattle.formula_text.specs.Printed.{Replied};

use crate::text::write_formula;
use translate::answer::told;
use translate::formula::formula;

// No description that is answered has more words.
const RESULT_SIZE: usize = 1024;

// Writes what is printed for the text to the start of out: how many bytes; or nothing, where it is longer than out.
pub fn reply(text: &[u8], out: &mut [u8]) -> Option<usize>
    ensures { Replied text.now out.old out.new result }
{
    let mut res = [0; RESULT_SIZE];
    let answer = formula(text, &mut res);
    let length = told(answer).length;
    write_formula(out, answer, &res[..length])
}
