// What stands at a position of the loaded words.
ghost use Rattle.std.specs.Prelude.{◌≡◌, ◌<◌, get_or};
ghost use Rattle.area.specs.Map.{LOADED, NODES};
ghost use Rattle.area.specs.Region.{loaded_words};
ghost use Rattle.marks.specs.Positions.{number_at, tail_at, mark_at, disjunctions_at, end_at, alternatives_at, after_at};

use area::map::{Area, WORDS};
use limits::wide;
use packing::{disjunctions_of, end_of, extent_of, mark_of, number_of};

// The loaded word at p.
pub fn word_at(w: &Area, p: usize) -> u32
    requires { p < LOADED }
    ensures { result ≡ get_or (loaded_words w.now) p 0 }
{
    w[WORDS + p]
}

// The number of node 0 of the graph at p.
pub fn number_at(w: &Area, p: usize) -> usize
    requires { p < LOADED }
    ensures { result ≡ number_at w.now p }
{
    number_of(word_at(w, p))
}

// Where the graph at p ends: the position of its closing word.
pub fn tail_at(w: &Area, p: usize) -> usize
    requires { p < LOADED }
    ensures { result ≡ tail_at w.now p }
{
    p + extent_of(word_at(w, p))
}

// The mark of the description at p.
pub fn mark_at(w: &Area, p: usize) -> usize
    requires p_bound { p < LOADED }
    requires p_bound_2 { tail_at w.now p < LOADED }
    ensures { (result ≡ mark_at w.now p) × (result < NODES) }
{
    mark_of(word_at(w, tail_at(w, p)))
}

// The number of disjunctions after the graph that ends at e.
pub fn disjunctions_at(w: &Area, e: usize) -> usize
    requires { e < LOADED }
    ensures { result ≡ disjunctions_at w.now e }
{
    disjunctions_of(word_at(w, e))
}

// Where the description ends whose graph ends at e.
pub fn end_at(w: &Area, e: usize) -> usize
    requires { e < LOADED }
    ensures { result ≡ end_at w.now e }
{
    end_of(word_at(w, e))
}

// The number of alternatives of the disjunction at p.
pub fn alternatives_at(w: &Area, p: usize) -> usize
    requires { p < LOADED }
    ensures { result ≡ alternatives_at w.now p }
{
    wide(word_at(w, p))
}

// Where the description at p ends.
pub fn after_at(w: &Area, p: usize) -> usize
    requires p_bound { p < LOADED }
    requires p_bound_2 { tail_at w.now p < LOADED }
    ensures { result ≡ after_at w.now p }
{
    end_at(w, tail_at(w, p))
}
