// What becomes of both areas when a call ends.
ghost use Rattle.std.specs.Prelude.{◌≡◌, ◌++◌, ◌≤◌, length, drop};
ghost use Rattle.theory.specs.Limits.{working_size};
ghost use Rattle.theory.specs.Outcome.{wiped};

use area::map::Area;

// Zeroes the working area.
pub fn wipe(w: &mut Area)
    ensures { w.new ≡ wiped working_size w.old }
{
    w.fill(0);
}

// Copies words to the start of the result area. They go one by one, so that the archive for C needs no memmove.
pub fn copy_out(words: &[u32], res: &mut [u32])
    requires { length words.now ≤ length res.old }
    ensures { res.new ≡ words.now ++ drop (length words.now) res.old }
{
    for (i, word) in words.iter().enumerate() {
        res[i] = *word;
    }
}
