// Which groups have alternatives: one pass over the signs from the last to the first.
ghost use Rattle.std.specs.Prelude.{◌≡◌, ◌<◌, ◌≤◌, length};
ghost use Rattle.rows.specs.Flagged.{Flagging, Flags, SignTurning, SignTurned, last_of};

use signs::word::{KIND, LEFT, OR, RIGHT};

// The last of the first flags, if there is one.
fn last(flags: &[bool], top: usize) -> bool
    requires { top ≤ length flags.now }
    ensures { result ≡ last_of flags.now top }
{
    0 < top && flags[top - 1]
}

// One sign: `)` begins a group, `|` marks it, `(` takes its mark for its number. How many groups have a flag then.
// `top` stands beside the flags: they are a stack in an array.
fn turn(signs: &mut [u32], i: usize, flags: &mut [bool], top: usize) -> usize
    requires i_in_bounds { (i < length signs.old) × (top < length flags.old) }
    requires sign_turning { SignTurning signs.old i flags.old top }
    ensures { SignTurned signs.old i flags.old top result signs.new flags.new }
{
    match signs[i] / KIND {
        RIGHT => {
            flags[top] = false;
            top + 1
        }
        OR => {
            let at = top.saturating_sub(1);
            flags[at] = true;
            at + 1
        }
        LEFT => {
            signs[i] = LEFT * KIND + u32::from(last(flags, top));
            top.saturating_sub(1)
        }
        _ => top,
    }
}

// Marks each `(` of a group with alternatives: whether the whole has them.
pub fn mark_groups(signs: &mut [u32], flags: &mut [bool]) -> bool
    requires { Flagging signs.old (length signs.old) flags.old }
    ensures { Flags signs.old (length signs.old) flags.old result signs.new }
{
    flags[0] = false;
    let mut top = 1;
    for i in (0..signs.len()).rev() {
        top = turn(signs, i, flags, top);
    }
    last(flags, top)
}
