// Counts by mode and number, one mode after the other.
ghost use Rattle.std.specs.Prelude.{◌≡◌, ◌<◌, length, get_or};
ghost use Rattle.verdicts.specs.Verdicts.{cells, numbers, cell_of, no_table, raised_cell};

use limits::wide;

// A call is answered with a number below twelve.
pub const NUMBERS: usize = 12;

pub const CELLS: usize = 36;

// No test is counted.
pub fn no_table() -> [u32; CELLS]
    ensures { result ≡ no_table }
{
    [0; CELLS]
}

// One test more of this mode was answered so.
pub fn raise(table: &mut [u32], mode: u32, number: u32)
    requires table_len { length table.old ≡ cells }
    requires mode_bound { (mode < 3) × ((number < numbers) × (get_or table.old (cell_of mode number) 0 < 64)) }
    ensures { table.new ≡ raised_cell table.old (cell_of mode number) }
{
    let cell = NUMBERS * wide(mode) + wide(number);
    table[cell] += 1;
}
