// The working area of a call: whether it is right after it.
use area::map::SIZE;
use vectors::lent::untouched;

// A working area has at most so many words here.
pub const MOST_WORK: usize = 20000;

// Whether the first `to` words are there and zero.
fn zeroed(w: &[u32], to: usize) -> bool {
    to <= w.len() && w[..to].iter().all(|word| *word == 0)
}

// Whether the working area is as document 01 fixes it after this number.
pub fn working_right(number: u32, w: &[u32]) -> bool {
    if 0 < number && number < 6 {
        return untouched(w, 0);
    }
    zeroed(w, SIZE) && untouched(w, SIZE)
}
