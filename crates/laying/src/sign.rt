// What each sign of a formula does: the row that it gives, and the state after it.
ghost use Rattle.std.specs.Prelude.{◌+◌, ◌*◌, ◌-◌, ◌<◌, ◌≤◌, ◌≡◌, ℕ, Some, length};
ghost use Rattle.theory.specs.Limits.{depth_limit};
ghost use Rattle.signs.specs.Limits.{kind_unit};
ghost use Rattle.rows.specs.Laid.{spot_unit};
ghost use Rattle.rows.specs.Memory.{row_limit};
ghost use Rattle.laying.specs.Table.{RowPut, FourPut, AlternativePut};
ghost use Rattle.laying.specs.Step.{after_arc, after_atom, Shares, after_opening, after_deeper, owner_of, after_close};
ghost use Rattle.laying.specs.Step.{after_beside, GroupOpening, GroupOpens, after_moving};

use crate::table::{put_alternative, put_four, put_row};
use limits::{DEPTH_LIMIT, wide};
use signs::word::{AND, BRACKET};

// Spots and alternatives are below it; a row's word is a spot, and this times a feature, an atom or a spot.
const SPOT_UNIT: u32 = 2048;

// The next spot and alternative; the conjunction's spot, its alternative, the first one beside that and how deep it is nested; the
// present spot; where shared paths begin, and where they end, if the first has ended; the rows of atoms and ties; what stands open.
#[derive(Clone, Copy)]
pub struct At {
    pub spots: u32,
    pub alts: u32,
    pub base: u32,
    pub home: u32,
    pub group: u32,
    pub depth: u32,
    pub cur: u32,
    pub start: u32,
    pub end: Option<u32>,
    pub bears: u32,
    pub ties: u32,
    pub height: u32,
}

// `fN`
pub(crate) fn arc(arcs: &mut [u32], at: At, feature: u32) -> At
    requires { (0 < at.spots) × (at.spots < spot_unit) × (2 * at.spots ≤ length arcs.old) × (at.cur < spot_unit)
        × (feature < kind_unit) }
    ensures { (result ≡ after_arc at)
        × RowPut arcs.old (at.spots - 1) (at.cur + spot_unit * feature) at.home arcs.new }
{
    put_row(arcs, at.spots - 1, at.cur + SPOT_UNIT * feature, at.home);
    At {
        spots: at.spots + 1,
        cur: at.spots,
        ..at
    }
}

// `aN`
pub(crate) fn bear(atoms: &mut [u32], at: At, atom: u32) -> At
    requires { (at.bears < row_limit) × (2 * at.bears + 1 < length atoms.old) × (at.cur < spot_unit) × (atom < kind_unit) }
    ensures { (result ≡ after_atom at)
        × RowPut atoms.old at.bears (at.cur + spot_unit * atom) at.home atoms.new }
{
    put_row(atoms, at.bears, at.cur + SPOT_UNIT * atom, at.home);
    At {
        bears: at.bears + 1,
        ..at
    }
}

// `>`: the first path's end is kept, each other is tied to it.
pub(crate) fn share(ties: &mut [u32], at: At) -> At
    requires { (e : ℕ) → at.end ≡ Some e →
        (at.ties < row_limit) × (2 * at.ties + 1 < length ties.old) × (at.cur < spot_unit) × (e < spot_unit) }
    ensures { Shares ties.old at result ties.new }
{
    let back = At {
        cur: at.start,
        ..at
    };
    match at.end {
        None => At {
            end: Some(at.cur),
            ..back
        },
        Some(end) => {
            put_row(ties, at.ties, end + SPOT_UNIT * at.cur, at.home);
            At {
                ties: at.ties + 1,
                ..back
            }
        }
    }
}

// `(`
pub(crate) fn open(frames: &mut [u32], at: At) -> At
    requires { (at.height < row_limit) × (4 * at.height + 3 < length frames.old) }
    ensures { (result ≡ after_opening at)
        × FourPut frames.old at.height at.base at.home at.group at.depth frames.new }
{
    put_four(frames, at.height, at.base, at.home, at.group, at.depth);
    At {
        height: at.height + 1,
        base: at.cur,
        ..at
    }
}

// `(` of a group with alternatives, after `open`: the first begins.
pub(crate) fn deepen(alts: &mut [u32], at: At) -> At
    requires { (at.alts < spot_unit) × (4 * at.alts + 3 < length alts.old) × (4 * at.home + 3 < length alts.old)
        × (at.depth < depth_limit) }
    ensures { (result ≡ after_deeper at)
        × AlternativePut alts.old at.alts at.home at.alts at.cur alts.new }
{
    let k = at.alts;
    put_alternative(alts, k, at.home, k, at.cur);
    At {
        alts: k + 1,
        home: k,
        group: k,
        depth: at.depth + 1,
        ..at
    }
}

// `)`
pub(crate) fn close(frames: &[u32], at: At) -> At
    requires { 4 * at.height ≤ length frames.now }
    ensures { result ≡ after_close frames.now at }
{
    if at.height == 0 {
        return At {
            base: 0,
            home: 0,
            group: 0,
            depth: 0,
            cur: 0,
            ..at
        };
    }
    let top = at.height - 1;
    let i = 4 * wide(top);
    At {
        height: top,
        base: frames[i],
        home: frames[i + 1],
        group: frames[i + 2],
        depth: frames[i + 3],
        cur: frames[i],
        ..at
    }
}

// The alternative that all this stands in.
pub(crate) fn owner(frames: &[u32], height: u32) -> u32
    requires { 4 * height ≤ length frames.now }
    ensures { result ≡ owner_of frames.now height }
{
    if height == 0 {
        0
    } else {
        frames[4 * wide(height - 1) + 1]
    }
}

// `|`, where all this stands in the alternative `of`.
pub(crate) fn beside(alts: &mut [u32], at: At, of: u32) -> At
    requires { (at.alts < spot_unit) × (4 * at.alts + 3 < length alts.old) × (4 * of + 3 < length alts.old) }
    ensures { (result ≡ after_beside at)
        × AlternativePut alts.old at.alts of at.group at.base alts.new }
{
    let k = at.alts;
    put_alternative(alts, k, of, at.group, at.base);
    At {
        alts: k + 1,
        home: k,
        cur: at.base,
        ..at
    }
}

// `(`, by whether its group has alternatives: none where "over 4 disjunctions nested in the text" would stand open.
pub(crate) fn open_group(alts: &mut [u32], frames: &mut [u32], at: At, flag: u32) -> Option<At>
    requires height_lt_row_limit { (at.height < row_limit) × (4 * at.height + 3 < length frames.old) }
    requires group_opening { GroupOpening alts.old at flag }
    ensures { GroupOpens alts.old frames.old at flag result alts.new frames.new }
{
    let next = open(frames, at);
    if flag != 1 {
        Some(next)
    } else if DEPTH_LIMIT <= at.depth {
        None
    } else {
        Some(deepen(alts, next))
    }
}

// `[`, `&`, and the signs that do nothing.
pub(crate) fn move_on(at: At, kind: u32) -> At
    ensures { result ≡ after_moving kind at }
{
    match kind {
        BRACKET => At {
            start: at.cur,
            end: None,
            ..at
        },
        AND => At { cur: at.base, ..at },
        _ => at,
    }
}
