// Listing a library: each entry's identifier and number of words.
ghost use Rattle.std.specs.Prelude.{◌≡◌, ◌/◌, ◌%◌, ◌≤◌, length, Ok, Err};
ghost use Rattle.library.specs.declared.list.ListError.TheVariants.{Index};
ghost use Rattle.library.specs.Index.{index_of};
ghost use Rattle.library.specs.Contents.{listing};
ghost use Rattle.library.specs.List.{ListsLibrary, ListsEntries};
ghost use Rattle.library.specs.Told.{list_number, list_extent};

use crate::index::{IndexError, entry_at, judge_index};
use crate::row::{Row, done, no_room};
use blocks::{BLOCK, read_pair};

// Why a library is not listed: it has no index, or the area is too short for the words that are needed.
#[derive(Clone, Copy, Debug, PartialEq, Eq)]
pub enum ListError {
    Index(IndexError),
    NoRoom { need: usize },
}

impl From<IndexError> for ListError {
    ghost from_gives = { λ error result. result ≡ Index error };

    fn from(error: IndexError) -> ListError {
        ListError::Index(error)
    }
}

// Copies entries to dst, two words an entry.
fn fill_list(dst: &mut [u32], start: &[u8; BLOCK])
    requires { (length dst.old ≤ 120) × (length dst.old % 2 ≡ 0) }
    ensures { dst.new ≡ listing (length dst.old / 2) 2 start.now }
{
    for i in 0..dst.len() / 2 {
        let at = entry_at(i);
        dst[2 * i] = read_pair(start, at) as u32;
        dst[2 * i + 1] = read_pair(start, at + 4) as u32;
    }
}

// Lists the entries of a library whose index is good.
fn list_entries(file: &[u8], count: usize, area: &mut [u32]) -> Result<usize, ListError>
    requires { Ok count ≡ index_of file.now }
    ensures { ListsEntries count file.now area.old area.new result }
{
    let Some(start) = file.first_chunk::<BLOCK>() else {
        return Err(ListError::Index(IndexError::BadLength));
    };
    let need = 2 * count;
    if area.len() < need {
        return Err(ListError::NoRoom { need });
    }
    fill_list(&mut area[..need], start);
    Ok(need)
}

// Lists the entries of a library to the start of the area. So many words are listed, two an entry.
#[tactic(auto, unfolding(crate::specs::List::list_answer, crate::specs::List::list_answer_by, crate::specs::List::list_by))]
pub fn list(file: &[u8], area: &mut [u32]) -> Result<usize, ListError>
    ensures { ListsLibrary file.now area.old area.new result }
{
    let count = judge_index(file)?;
    list_entries(file, count, area)
}

impl From<ListError> for Row {
    ghost from_gives = { λ error row. (row.number ≡ list_number (Err error)) × (row.extent ≡ list_extent (Err error)) };

    fn from(error: ListError) -> Row {
        match error {
            ListError::Index(error) => Row::from(error),
            ListError::NoRoom { need } => no_room(need),
        }
    }
}

// The row of an answer.
pub fn list_told(answer: Result<usize, ListError>) -> Row
    ensures { (result.number ≡ list_number answer) × (result.extent ≡ list_extent answer) }
{
    answer.map_or_else(Row::from, done)
}
