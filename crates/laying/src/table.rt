// Rows of the tables, as they are stored: two words for an arc, an atom or a tie, four for an alternative and what stands open.
ghost use Rattle.std.specs.Prelude.{◌+◌, ◌*◌, ◌<◌, length};
ghost use Rattle.laying.specs.Table.{RowPut, FourPut, AlternativePut};

use limits::wide;

// A row and its alternative.
pub(crate) fn put_row(rows: &mut [u32], row: u32, x: u32, home: u32)
    requires { 2 * row + 1 < length rows.old }
    ensures { RowPut rows.old row x home rows.new }
{
    let i = wide(row);
    rows[2 * i] = x;
    rows[2 * i + 1] = home;
}

// Four words.
pub(crate) fn put_four(rows: &mut [u32], row: u32, a: u32, b: u32, c: u32, d: u32)
    requires { 4 * row + 3 < length rows.old }
    ensures { FourPut rows.old row a b c d rows.new }
{
    let i = wide(row);
    rows[4 * i] = a;
    rows[4 * i + 1] = b;
    rows[4 * i + 2] = c;
    rows[4 * i + 3] = d;
}

// A new alternative k of the owner: the first one beside it, the one of the same owner before it, none in it yet, and its spot.
pub(crate) fn put_alternative(alts: &mut [u32], k: u32, owner: u32, group: u32, spot: u32)
    requires { (4 * k + 3 < length alts.old) × (4 * owner + 3 < length alts.old) }
    ensures { AlternativePut alts.old k owner group spot alts.new }
{
    let of = wide(owner);
    let last = alts[4 * of + 2];
    alts[4 * of + 2] = k;
    put_four(alts, k, group, last, 0, spot);
}
