// Listing a library, and reading a description of it: what is printed.
ghost use Rattle.answer_text.specs.Answer.{Wrote};
ghost use Rattle.library_text.specs.Serves.{list_text, description_text};

use crate::lines::write_words;
use library::list::{list, list_told};
use library::read::{fetch, fetch_told};

// Words of the longest list, and of the longest description.
const LIST_ROOM: usize = 120;

const DESCRIPTION_ROOM: usize = 1024;

// Writes the list of the file to the start of out.
pub(crate) fn write_listed(file: &[u8], out: &mut [u8]) -> Option<usize>
    ensures { Wrote (list_text file.now) out.old out.new result }
{
    let mut area = [0; LIST_ROOM];
    let row = list_told(list(file, &mut area));
    write_words(out, row.number, row.extent, &area)
}

// Writes the description of an identifier of the file to the start of out.
pub(crate) fn write_fetched(file: &[u8], identifier: u32, out: &mut [u8]) -> Option<usize>
    ensures { Wrote (description_text identifier file.now) out.old out.new result }
{
    let mut area = [0; DESCRIPTION_ROOM];
    let row = fetch_told(fetch(file, identifier, &mut area));
    write_words(out, row.number, row.extent, &area)
}
