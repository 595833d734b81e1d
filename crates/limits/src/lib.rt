// The limits of document 01 for the code, by the names that the definitions give them, and a word as a position or a length.
#![tactic(auto)]

ghost use Rattle.std.specs.Prelude.{◌≡◌};

// Features, atoms and numbers of arcs are below it, and an atom's head is its number above it.
pub const CODE_LIMIT: u32 = 65536;

// Alternatives are nested at most so deep.
pub const DEPTH_LIMIT: u32 = 4;

// "either input over 1,024 words"
pub const INPUT_LIMIT: usize = 1024;

// "its result has over 4,096 choices"
pub const CHOICE_LIMIT: u32 = 4096;

// "stopping at 4,097"
pub const CHOICE_STOP: u32 = 4097;

// A word as a position or a length.
// A function: std has no From<u32> for usize, and `as` would owe at each place that no bit is lost.
pub fn wide(x: u32) -> usize
    ensures { result ≡ x }
{
    x as usize
}
