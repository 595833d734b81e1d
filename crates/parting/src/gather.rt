// The rows of one part, gathered from the tables.
ghost use Rattle.std.specs.Prelude.{◌/◌, length};
ghost use Rattle.parting.specs.Gathered.{RowComing, RowComes, Gathering, Gathers, arc_table, TrailMarking, TrailMarks};
ghost use Rattle.parting.specs.Gathered.{Belonging, Belongs, GatheringArcs, GathersArcs};

use closing::rows::spot;
use limits::wide;

// Has row i come to k?
fn comes(rows: &[u32], homes: &[u32], k: usize, i: usize) -> bool
    requires { RowComing rows.now homes.now i }
    ensures { RowComes rows.now homes.now k i result }
{
    let home = wide(rows[2 * i + 1]);
    wide(homes[home]) == k
}

// Gathers the rows that have come to k. Their number.
pub fn gather_rows(rows: &[u32], homes: &[u32], k: usize, out: &mut [u32]) -> usize
    requires { Gathering rows.now homes.now out.old }
    ensures { Gathers rows.now homes.now k (length rows.now / 2)
        out.old result out.new }
{
    let mut n = 0;
    for i in 0..rows.len() / 2 {
        if comes(rows, homes, k, i) {
            out[n] = rows[2 * i];
            n += 1;
        }
    }
    n
}

// Marks the arcs from the root to the spot; the root is spot 0.
pub fn mark_trail(arcs: &[u32], from: usize, on: &mut [bool])
    requires { TrailMarking (arc_table arcs.now) from on.old }
    ensures { TrailMarks (arc_table arcs.now) from on.old on.new }
{
    let mut s = from;
    while s != 0 {
        on[s - 1] = true;
        s = spot(arcs[2 * (s - 1)]);
    }
}

// Is arc i marked, or has it come to k?
fn belongs(arcs: &[u32], homes: &[u32], on: &[bool], k: usize, i: usize) -> bool
    requires { Belonging arcs.now homes.now on.now i }
    ensures { Belongs arcs.now homes.now on.now k i result }
{
    on[i] || comes(arcs, homes, k, i)
}

// Gathers the arcs that are marked and those that have come to k, with their ends. Their number.
pub fn gather_arcs(
    arcs: &[u32],
    homes: &[u32],
    on: &[bool],
    k: usize,
    out: &mut [u32],
    ends: &mut [u32],
) -> usize
    requires { GatheringArcs arcs.now homes.now on.now out.old ends.old }
    ensures { GathersArcs arcs.now homes.now on.now k (length arcs.now / 2)
        out.old ends.old result out.new ends.new }
{
    let mut n = 0;
    for i in 0..arcs.len() / 2 {
        if belongs(arcs, homes, on, k, i) {
            out[n] = arcs[2 * i];
            ends[n] = (i + 1) as u32;
            n += 1;
        }
    }
    n
}
