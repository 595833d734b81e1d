// An alternative that is taken, as a word: its position among the loaded words, and NEW more where its graph is still to be pushed.
ghost use Rattle.std.specs.Prelude.{◌≡◌, ◌+◌, ◌<◌};
ghost use Rattle.area.specs.Map.{LOADED};
ghost use Rattle.choosing.specs.Ways.{Take, take_word, new_part};

use limits::wide;

// Positions are below it.
pub const NEW: u32 = 2048;

// The word of the alternative at p.
pub fn word_of(p: usize, new: bool) -> u32
    requires { p < LOADED }
    ensures { result ≡ p + new_part new }
{
    if new { p as u32 + NEW } else { p as u32 }
}

// The position of the alternative that a word stands for.
pub fn place_of(word: u32) -> usize
    ensures { (k : Take) → k.entry.at < LOADED → word ≡ take_word k → result ≡ k.entry.at }
{
    if word < NEW {
        wide(word)
    } else {
        wide(word - NEW)
    }
}

// Is its graph still to be pushed?
pub fn is_new(word: u32) -> bool
    ensures { (k : Take) → k.entry.at < LOADED → word ≡ take_word k → result ≡ k.new }
{
    NEW <= word
}
