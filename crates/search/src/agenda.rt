// What is still to be gone through, frame by frame: the position of a frame's next disjunction, and how many are left in it.
ghost use Rattle.std.specs.Prelude.{◌≡◌, ◌⊎◌, List, [], ◌∷◌, ◌+◌, ◌<◌};
ghost use Rattle.area.specs.Map.{LOADED};
ghost use Rattle.marks.specs.Positions.{tail_at, disjunctions_at};
ghost use Rattle.search.specs.Frames.{Slot, Lists, onto};

use area::map::Area;
use marks::positions::{disjunctions_at, tail_at};

// Of a frame: where its next disjunction stands, and how many are left.
#[derive(Clone, Copy)]
pub struct Pending {
    pub at: usize,
    pub more: usize,
}

// The first `frames` of five frames, the nearest last. Disjunctions stand at four depths, and those of the second input are behind
// all of the first.
#[derive(Clone, Copy)]
pub struct Agenda {
    pub frames: usize,
    pub stack: [Pending; 5],
}

// Nothing is left.
pub fn nothing() -> Agenda
    ensures { Lists result [] }
{
    Agenda {
        frames: 0,
        stack: [Pending { at: 0, more: 0 }; 5],
    }
}

// What is left without the nearest frame.
pub fn after(a: Agenda) -> Agenda
    requires { 0 < a.frames }
    ensures { (s : Slot) (l : List Slot) → Lists a (s ∷ l) → Lists result l }
{
    Agenda {
        frames: a.frames - 1,
        ..a
    }
}

// The `more` disjunctions from `at` on, and then what is left.
pub fn before(at: usize, more: usize, a: Agenda) -> Agenda
    requires { (more ≡ 0) ⊎ (a.frames < 5) }
    ensures { (l : List Slot) → Lists a l → Lists result (onto at more l) }
{
    if more == 0 {
        return a;
    }
    let mut longer = a;
    longer.stack[a.frames] = Pending { at, more };
    longer.frames += 1;
    longer
}

// The disjunctions of the description at g, and then what is left.
pub fn descend(w: &Area, g: usize, a: Agenda) -> Agenda
    requires g_bound { g < LOADED }
    requires g_bound_2 { tail_at w.now g < LOADED }
    requires fact { (disjunctions_at w.now (tail_at w.now g) ≡ 0) ⊎ (a.frames < 5) }
    ensures { (l : List Slot) → Lists a l →
        Lists result (onto (tail_at w.now g + 1) (disjunctions_at w.now (tail_at w.now g)) l) }
{
    let e = tail_at(w, g);
    let more = disjunctions_at(w, e);
    before(e + 1, more, a)
}
