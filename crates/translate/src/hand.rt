// The words of a description are handed over.
ghost use Rattle.std.specs.Prelude.{suc, ◌≤◌, ◌≡◌, length};
ghost use Rattle.theory.specs.Limits.{input_limit};
ghost use Rattle.translate.specs.Stages.{HandsOver};

use crate::answer::Refusal;
use limits::INPUT_LIMIT;

// The last `len` of these words go to the result area: "23 over 1,024 words, 24 result longer than the result area".
pub(crate) fn hand_over(words: &[u32], len: usize, res: &mut [u32]) -> Result<usize, Refusal>
    requires { (length words.now ≡ input_limit) × (len ≤ suc input_limit) }
    ensures { HandsOver words.now len res.old result res.new }
{
    if INPUT_LIMIT < len {
        return Err(Refusal::TooLong);
    }
    if res.len() < len {
        return Err(Refusal::NoRoom(len));
    }
    res[..len].copy_from_slice(&words[INPUT_LIMIT - len..]);
    Ok(len)
}
