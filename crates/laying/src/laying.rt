// One pass over the marked signs of a formula, from the first to the last.
ghost use Rattle.std.specs.Prelude.{◌≤◌, ◌≡◌, length};
ghost use Rattle.laying.specs.Laying.{SignComing, SignPassed, WholeBegins, begun_at, Roomy, LaysOut, LaidOut};

use crate::sign::{At, arc, bear, beside, close, move_on, open_group, owner, share};
use crate::table::{put_alternative, put_four};
use signs::word::{ATOM, FEATURE, GREATER, KIND, LEFT, OR, RIGHT, TOP};

// How many arcs, atoms and ties there are, and how many alternatives with the whole.
#[derive(Clone, Copy)]
pub struct Rows {
    pub arcs: u32,
    pub atoms: u32,
    pub ties: u32,
    pub alts: u32,
}

// A sign: none where it begins an alternative that is nested too deep.
fn sign(
    arcs: &mut [u32],
    atoms: &mut [u32],
    ties: &mut [u32],
    alts: &mut [u32],
    frames: &mut [u32],
    at: At,
    kind: u32,
    number: u32,
) -> Option<At>
    requires { SignComing (record { arcs = arcs.now; atoms = atoms.old; ties = ties.old; alts = alts.old; frames = frames.old })
        at (kind, number) }
    ensures { SignPassed (record {
      arcs = arcs.entry.now;
      atoms = atoms.old;
      ties = ties.old;
      alts = alts.old;
      frames = frames.old;
    }) at (kind, number) result
        (record {
          arcs = arcs.exit.now;
          atoms = atoms.new;
          ties = ties.new;
          alts = alts.new;
          frames = frames.new;
        }) }
{
    match kind {
        FEATURE => Some(arc(arcs, at, number)),
        ATOM => Some(bear(atoms, at, number)),
        TOP => {
            let one = bear(atoms, at, 0);
            Some(bear(atoms, one, 1))
        }
        GREATER => Some(share(ties, at)),
        LEFT => open_group(alts, frames, at, number),
        RIGHT => Some(close(frames, at)),
        OR => {
            let of = owner(frames, at.height);
            Some(beside(alts, at, of))
        }
        _ => Some(move_on(at, kind)),
    }
}

// The whole, 0, stands at the root and has no alternatives yet; one that has them begins the first.
fn begin(alts: &mut [u32], flagged: bool) -> At
    requires { 8 ≤ length alts.old }
    ensures { (result ≡ begun_at flagged) × WholeBegins alts.old flagged alts.new }
{
    let at = At {
        spots: 1,
        alts: 1,
        base: 0,
        home: 0,
        group: 0,
        depth: 0,
        cur: 0,
        start: 0,
        end: Some(0),
        bears: 0,
        ties: 0,
        height: 0,
    };
    put_four(alts, 0, 0, 0, 0, 0);
    if !flagged {
        return at;
    }
    put_alternative(alts, 1, 0, 1, 0);
    At {
        alts: 2,
        home: 1,
        group: 1,
        depth: 1,
        ..at
    }
}

// All signs; `flagged` tells whether the whole has alternatives: none for "21 over 4 disjunctions nested in the text".
pub fn lay(
    signs: &[u32],
    flagged: bool,
    arcs: &mut [u32],
    atoms: &mut [u32],
    ties: &mut [u32],
    alts: &mut [u32],
    frames: &mut [u32],
) -> Option<Rows>
    requires lays_out { LaysOut signs.now (length signs.now) flagged }
    requires roomy { Roomy (record { arcs = arcs.now; atoms = atoms.old; ties = ties.old; alts = alts.old; frames = frames.old }) }
    ensures { LaidOut signs.now (length signs.now) flagged result (record {
      arcs = arcs.exit.now;
      atoms = atoms.new;
      ties = ties.new;
      alts = alts.new;
      frames = frames.new;
    }) }
{
    let mut at = begin(alts, flagged);
    for word in signs {
        at = sign(
            arcs,
            atoms,
            ties,
            alts,
            frames,
            at,
            *word / KIND,
            *word % KIND,
        )?;
    }
    Some(Rows {
        arcs: at.spots - 1,
        atoms: at.bears,
        ties: at.ties,
        alts: at.alts,
    })
}
