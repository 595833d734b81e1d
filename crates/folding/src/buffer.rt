// The words of the result, written from its end towards its beginning: what stands before a thing is written after it, and what is
// taken back is only counted off.
ghost use Rattle.std.specs.Prelude.{suc, ◌≤◌, ◌≡◌, [], ◌∷◌, length};
ghost use Rattle.theory.specs.Limits.{input_limit};
ghost use Rattle.folding.specs.Buffer.{PutsBefore};

use limits::INPUT_LIMIT;

// Writes x before the last `len` words. Where it does not fit, only that is told.
// One above the limit tells that words do not fit, and is counted off again where an alternative clashes.
pub fn put(b: &mut [u32], len: usize, x: u32) -> usize
    requires { (length b.old ≡ input_limit) × (len ≤ suc input_limit) }
    ensures { PutsBefore b.old len (x ∷ []) b.new result }
{
    if len < INPUT_LIMIT {
        b[INPUT_LIMIT - 1 - len] = x;
        return len + 1;
    }
    INPUT_LIMIT + 1
}

// Writes the words xs before the last `len` words.
pub fn put_all(b: &mut [u32], len: usize, xs: &[u32]) -> usize
    requires { (length b.old ≡ input_limit) × (len ≤ suc input_limit) }
    ensures { PutsBefore b.old len xs.now b.new result }
{
    let mut at = len;
    for &x in xs.iter().rev() {
        at = put(b, at, x);
    }
    at
}
