// The rows of a sheet, a word each.
ghost use Rattle.std.specs.Prelude.{◌≡◌};
ghost use Rattle.closing.specs.Rows.{spot_of, spot_mark};

use limits::wide;

// Spots are below it; a row is a spot, and a feature, an atom or another spot times this.
pub const SPOT_LIMIT: usize = 2048;

// The spot of a row.
pub fn spot(row: u32) -> usize
    ensures { result ≡ spot_of row }
{
    wide(row) % SPOT_LIMIT
}

// The feature, atom or other spot of a row.
pub fn mark(row: u32) -> u32
    ensures { result ≡ spot_mark row }
{
    (wide(row) / SPOT_LIMIT) as u32
}
