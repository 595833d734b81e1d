// The graph of one definite part: its rows are gathered from the tables, and drawn.
ghost use Rattle.std.specs.Prelude.{◌*◌, ◌≤◌, ◌<◌, length};
ghost use Rattle.parting.specs.Parted.{tables_of, Parting, PartDrawn, HalfParting, HalfParts};

use crate::gather::{gather_arcs, gather_rows, mark_trail};
use crate::tables::Tables;
use closing::rows::SPOT_LIMIT;
use limits::wide;
use sheets::drawing::{Undrawn, draw};

// There are at most so many atoms, and so many ties.
const ROW_LIMIT: usize = 4096;

// Draws the part of the alternative k whose arcs these are: the atoms and ties that have come to it are gathered.
fn draw_part(
    arcs: &[u32],
    ends: &[u32],
    tables: &Tables,
    homes: &[u32],
    k: usize,
    out: &mut [u32],
) -> Result<usize, Undrawn>
    requires { HalfParting arcs.now ends.now tables.now.atoms.now tables.now.ties.now homes.now k }
    ensures { HalfParts arcs.now ends.now tables.now.atoms.now tables.now.ties.now homes.now k
        out.old result out.new }
{
    let mut bears = [0; ROW_LIMIT];
    let mut shares = [0; ROW_LIMIT];
    let n = gather_rows(tables.atoms, homes, k, &mut bears);
    let m = gather_rows(tables.ties, homes, k, &mut shares);
    draw(arcs, ends, &bears[..n], &shares[..m], out)
}

// Draws the part of the alternative k: the arcs from the root to its spot, and the rows that have come to it.
pub fn part(tables: &Tables, homes: &[u32], k: usize, out: &mut [u32]) -> Result<usize, Undrawn>
    requires parting { Parting (tables_of tables.now) homes.now k }
    requires k_in_bounds { (k < length homes.now) × (4 * length homes.now ≤ length tables.now.alts.now) }
    ensures { PartDrawn (tables_of tables.now)
        homes.now k
        out.old result out.new }
{
    let mut on = [false; SPOT_LIMIT];
    mark_trail(tables.arcs, wide(tables.alts[4 * k + 3]), &mut on);
    let mut rows = [0; SPOT_LIMIT];
    let mut ends = [0; SPOT_LIMIT];
    let n = gather_arcs(tables.arcs, homes, &on, k, &mut rows, &mut ends);
    draw_part(&rows[..n], &ends[..n], tables, homes, k, out)
}
