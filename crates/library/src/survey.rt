// Checking a library block by block: whether a block is damaged, and which description that costs.
ghost use Rattle.std.specs.Prelude.{◌≡◌, ◌<◌, ◌≤◌, Ok};
ghost use Rattle.library.specs.declared.survey.CheckError.TheVariants.{Index};
ghost use Rattle.library.specs.Index.{index_of};
ghost use Rattle.library.specs.Check.{block_among, holder_of, block_checked};

use crate::index::{ENTRIES, IndexError, WORDS, blocks_for, entry_at, first_part, judge_index};
use blocks::{BLOCK, is_damaged, read_pair};

// The description that a block belongs to, and how many bytes of the block's content it uses.
#[derive(Clone, Copy)]
pub struct Holder {
    pub identifier: usize,
    pub used: usize,
}

// Why no block can be judged: the library has no index, or no such block.
#[derive(Clone, Copy, Debug, PartialEq, Eq)]
pub enum CheckError {
    Index(IndexError),
    NoBlock,
}

impl From<IndexError> for CheckError {
    ghost from_gives = { λ error result. result ≡ Index error };

    fn from(error: IndexError) -> CheckError {
        CheckError::Index(error)
    }
}

// Whether block k is one of the blocks of so many words from block `first` on.
#[tactic(auto, unfolding(crate::specs::Check::block_among))]
fn has_block(first: usize, words: usize, k: usize) -> bool
    requires { words < 65536 }
    ensures { result ≡ block_among first words k }
{
    first <= k && k - first < blocks_for(words)
}

// Looks up among the entries to which description block k belongs.
fn find_holder(start: &[u8; BLOCK], count: usize, k: usize) -> Option<Holder>
    requires { count ≤ 60 }
    ensures { result ≡ holder_of k count 2 start.now }
{
    for i in 0..count {
        let at = entry_at(i);
        let first = read_pair(start, at + 2);
        let words = read_pair(start, at + 4);
        if has_block(first, words, k) {
            let identifier = read_pair(start, at);
            let used = 4 * first_part(words - WORDS * (k - first));
            return Some(Holder { identifier, used });
        }
    }
    None
}

// Checks block k of a library whose index counts so many entries; the index is not judged again.
pub fn check_held(file: &[u8], count: usize, k: usize) -> Result<Option<usize>, CheckError>
    ensures { Ok count ≡ index_of file.now → result ≡ block_checked k file.now }
{
    if ENTRIES < count {
        return Err(CheckError::Index(IndexError::BadIndex));
    }
    if k == 0 {
        return Ok(None);
    }
    let Some(start) = file.first_chunk::<BLOCK>() else {
        return Err(CheckError::Index(IndexError::BadLength));
    };
    let Some(holder) = find_holder(start, count, k) else {
        return Err(CheckError::NoBlock);
    };
    if is_damaged(file, k, holder.used) {
        Ok(Some(holder.identifier))
    } else {
        Ok(None)
    }
}

// Checks block k of a library: the identifier of the description that its damage costs, or none where it is whole.
#[tactic(auto, unfolding(crate::specs::Check::block_checked, crate::specs::Check::checked_by))]
pub fn check_block(file: &[u8], k: usize) -> Result<Option<usize>, CheckError>
    ensures { result ≡ block_checked k file.now }
{
    let count = judge_index(file)?;
    check_held(file, count, k)
}
