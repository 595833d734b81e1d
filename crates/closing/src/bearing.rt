// Atoms by label, and clashes.
ghost use Rattle.closing.specs.Bearing.{AtomsBearing, AtomsBorne, clashed, Against};

use crate::rows::{SPOT_LIMIT, mark, spot};
use limits::wide;

// A label that has two atoms, or an atom and arcs.
#[derive(Clone, Copy, Debug, PartialEq, Eq)]
pub struct Clash;

// Whether a label that holds an atom, if any, holds another one.
fn against(held: Option<u32>, given: u32) -> bool
    ensures { Against held given result }
{
    held.is_some_and(|atom| atom != given)
}

// Gives each label its atom, unless there is a clash.
pub fn bear(
    labels: &[u32; SPOT_LIMIT],
    heads: &[u32; SPOT_LIMIT],
    holds: &mut [Option<u32>; SPOT_LIMIT],
    atoms: &[u32],
) -> Result<(), Clash>
    requires { AtomsBearing labels.now holds.old }
    ensures { AtomsBorne labels.now heads.now atoms.now (clashed result) holds.new }
{
    for &row in atoms {
        let label = wide(labels[spot(row)]);
        let given = mark(row);
        if heads[label] != 0 || against(holds[label], given) {
            return Err(Clash);
        }
        holds[label] = Some(given);
    }
    Ok(())
}
