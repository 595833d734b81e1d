// Areas lent to what is replayed: what stands in them before, and whether they are right afterwards.

// An input or a result area has at most so many words here.
pub const MOST_ROOM: usize = 4096;

// An area of zeros.
pub fn zeros<const N: usize>() -> [u32; N] {
    [0; N]
}

// What stands at i before: never 0.
fn before(i: usize) -> u32 {
    (i % 4093) as u32 * 1048573 + 1
}

// Fills an area with what stands there before.
pub fn prepare(w: &mut [u32]) {
    for (i, word) in w.iter_mut().enumerate() {
        *word = before(i);
    }
}

// Whether the words from `from` on are as they were before.
pub fn untouched(w: &[u32], from: usize) -> bool {
    w.iter()
        .enumerate()
        .skip(from)
        .all(|(i, word)| *word == before(i))
}

// Whether the result area has the words of a result and is else as it was.
pub fn result_right(area: &[u32], words: &[u32]) -> bool {
    area.starts_with(words) && untouched(area, words.len())
}
