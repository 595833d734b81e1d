// One call by both engines, in areas of its own for each: whether all that they answer and leave is the same.
use answering::answer::{Row, told};
use unify::{plain, unify};
use vectors::lent::{prepare, zeros};

// The words of a result area, as `meet` has them, and of a working area.
pub const AREA: usize = 2048;

pub const WORK: usize = 16384;

// Whether two rows are the same.
fn same_row(a: Row, b: Row) -> bool {
    a.number == b.number && a.length == b.length && a.readings == b.readings && a.node == b.node
}

// Runs the fast engine in mode 2 in these areas, which hold something else before.
fn by_search(first: &[u32], second: &[u32], res: &mut [u32], working: &mut [u32]) -> Row {
    prepare(res);
    prepare(working);
    told(unify(2, first, second, res, working))
}

// And so the plain one.
fn by_expansion(first: &[u32], second: &[u32], res: &mut [u32], working: &mut [u32]) -> Row {
    prepare(res);
    prepare(working);
    told(plain(first, second, res, working))
}

// Whether both engines answer these inputs alike: number, length, readings, node, and every word of both areas, which are as long.
pub fn alike(first: &[u32], second: &[u32]) -> bool {
    let mut result: [u32; AREA] = zeros();
    let mut working: [u32; WORK] = zeros();
    let fast = by_search(first, second, &mut result, &mut working);
    let mut other_result: [u32; AREA] = zeros();
    let mut other_working: [u32; WORK] = zeros();
    let slow = by_expansion(first, second, &mut other_result, &mut other_working);
    same_row(fast, slow) && result.starts_with(&other_result) && working.starts_with(&other_working)
}
