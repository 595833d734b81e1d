// Alternatives are settled from the last to the first, and their words written before those of what follows.
ghost use Rattle.std.specs.Prelude.{suc, ◌*◌, ◌≤◌, ◌<◌, ◌≡◌, length};
ghost use Rattle.theory.specs.Limits.{code_limit, input_limit};
ghost use Rattle.parting.specs.Parted.{tables_of, Parting};
ghost use Rattle.folding.specs.Homing.{Rehomes};
ghost use Rattle.folding.specs.Settled.{SettlingRoom, Beside, Settling, AlternativeCloses, AlternativeSettles, BranchSettling};
ghost use Rattle.folding.specs.Settled.{KeptFirst, alternative_of, count_of, inner_of, Concludes, BranchSettles};

use crate::buffer::{put, put_all};
use limits::{INPUT_LIMIT, wide};
use parting::part::part;
use parting::tables::Tables;
use sheets::drawing::Undrawn;

// `homes`, `words`, `len` and `k` stand beside the tables: they are written, or are others at each call; a struct is no plainer.

// What is left of an alternative: the number of its disjunctions, and how many words there are from them on and from it on.
#[derive(Clone, Copy)]
pub struct Settled {
    pub count: u32,
    pub inner: usize,
    pub whole: usize,
}

// An alternative that is left, and what is left of it.
#[derive(Clone, Copy)]
struct Kept {
    alternative: usize,
    settled: Settled,
}

// What is left of a disjunction: how many disjunctions come of it, how many words there are from them on, and the last alternative
// before it.
#[derive(Clone, Copy)]
pub struct Branch {
    pub count: u32,
    pub inner: usize,
    pub before: usize,
}

// What was given to, or had come to, the alternative x comes to k.
fn move_home(homes: &mut [u32], x: u32, k: u32)
    ensures { Rehomes homes.old x k homes.new }
{
    for home in homes.iter_mut() {
        if *home == x {
            *home = k;
        }
    }
}

// Is c an alternative, and of the disjunction that begins with g?
// Where there is no further alternative the tables have 0: their rows are words still.
fn beside(alts: &[u32], c: usize, g: u32) -> bool
    requires { 4 * c < length alts.now }
    ensures { Beside alts.now c g result }
{
    c != 0 && alts[4 * c] == g
}

// Draws the graph of the alternative k, before the words of its disjunctions and their number.
fn close(
    tables: &Tables,
    homes: &[u32],
    words: &mut [u32],
    len: usize,
    count: u32,
    k: usize,
) -> Option<Settled>
    requires parting { Parting (tables_of tables.now) homes.now k }
    requires settling_room { SettlingRoom homes.now tables.now.alts.now words.old len × (k < length homes.now) }
    ensures { AlternativeCloses (tables_of tables.now)
        homes.now
        words.old len count k result words.new }
{
    let mut out = [0; INPUT_LIMIT];
    match part(tables, homes, k, &mut out) {
        Ok(n) => {
            let tail = put(words, len, count);
            let whole = put_all(words, tail, &out[..n]);
            Some(Settled {
                count,
                inner: len,
                whole,
            })
        }
        // that words do not fit is told by one above the limit
        Err(Undrawn::Long) => Some(Settled {
            count,
            inner: len,
            whole: INPUT_LIMIT + 1,
        }),
        Err(Undrawn::Clash) => None,
    }
}

// What becomes of a disjunction of which `kept` alternatives are left, `first` the first of them: nothing, where it is none; one is
// folded; several stay.
fn conclude(
    homes: &mut [u32],
    words: &mut [u32],
    k: usize,
    kept: u32,
    first: Option<Kept>,
    at: usize,
    before: usize,
) -> Option<Branch>
    requires room { (k < code_limit) × (length words.old ≡ input_limit) × (at ≤ suc input_limit) }
    requires kept_first { KeptFirst kept first }
    ensures { Concludes homes.old words.old at k kept (alternative_of first) (count_of first) (inner_of first) before result
        homes.new words.new }
{
    let one = first?;
    if kept == 1 {
        move_home(homes, one.alternative as u32, k as u32);
        return Some(Branch {
            count: one.settled.count,
            inner: one.settled.inner,
            before,
        });
    }
    let from = put(words, at, kept);
    Some(Branch {
        count: 1,
        inner: from,
        before,
    })
}

// Settles the disjunction of the alternative k whose last alternative is `last`.
#[cycle(settle_settle_disjunction)]
fn settle_disjunction(
    tables: &Tables,
    homes: &mut [u32],
    words: &mut [u32],
    len: usize,
    k: usize,
    last: usize,
    left: u32,
) -> Option<Branch>
    requires branch_settling { BranchSettling (tables_of tables.now) homes.old k last left }
    requires settling_room { SettlingRoom homes.old tables.now.alts.now words.old len }
    ensures { BranchSettles (tables_of tables.now)
        homes.old
        words.old len k last left result homes.new words.new }
{
    let g = tables.alts[4 * last];
    let mut c = last;
    let mut kept: u32 = 0;
    let mut first = None;
    let mut at = len;
    while beside(tables.alts, c, g) {
        if let Some(settled) = settle(tables, homes, words, at, c, left) {
            kept += 1;
            first = Some(Kept {
                alternative: c,
                settled,
            });
            at = settled.whole;
        }
        c = wide(tables.alts[4 * c + 1]);
    }
    conclude(homes, words, k, kept, first, at, c)
}

// Settles the alternative k, under which disjunctions nest at most `left` deep.
#[cycle(settle_settle_disjunction)]
pub fn settle(
    tables: &Tables,
    homes: &mut [u32],
    words: &mut [u32],
    len: usize,
    k: usize,
    left: u32,
) -> Option<Settled>
    requires settling { Settling (tables_of tables.now) homes.old k left }
    requires settling_room { SettlingRoom homes.old tables.now.alts.now words.old len }
    ensures { AlternativeSettles (tables_of tables.now)
        homes.old
        words.old len k left result homes.new words.new }
{
    let mut last = wide(tables.alts[4 * k + 2]);
    let mut count: u32 = 0;
    let mut at = len;
    while last != 0 {
        let branch = settle_disjunction(tables, homes, words, at, k, last, left - 1)?;
        count += branch.count;
        at = branch.inner;
        last = branch.before;
    }
    close(tables, homes, words, at, count, k)
}
