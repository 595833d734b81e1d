// The entry points for C, which include/bublastyr.h declares.
#![tactic(auto)]

ghost use Rattle.std.specs.Prelude.{get_or};
ghost use Rattle.theory.specs.FitTest.{FitGiven};
ghost use Rattle.theory.specs.Outcome.{Outcome};
ghost use Rattle.malformed.specs.Malformed.{Reported};
ghost use Rattle.translate.specs.Answered.{Answered};
ghost use Rattle.suite.specs.Suite.{Suited};
ghost use Rattle.library.specs.Told.{FetchTold, ListTold};
ghost use Rattle.library_writing.specs.Told.{WriteTold};

// Unifies two descriptions. Answers document 01's number; length, readings and node go to `told`.
#[unsafe(no_mangle)]
pub extern "C" fn bublastyr_unify(
    mode: u32,
    first: &[u32],
    second: &[u32],
    res: &mut [u32],
    working: &mut [u32],
    told: &mut [u32; 3],
) -> u32
    ensures { Outcome (record { mode = mode; first = first.now; second = second.now })
        (record { result = res.old; working = working.old })
        (record {
          number = result;
          extent = get_or told.new 0 0;
          readings = get_or told.new 1 0;
          node = get_or told.new 2 0;
        })
        (record { result = res.new; working = working.new }) }
{
    let answer = unify::unify(mode, first, second, res, working);
    let row = answering::answer::told(answer);
    *told = [row.length as u32, row.readings, row.node as u32];
    row.number
}

// Unifies two descriptions in mode 2 by the plain engine. Answers document 01's number; length, readings and node go to `told`.
#[unsafe(no_mangle)]
pub extern "C" fn bublastyr_plain(
    first: &[u32],
    second: &[u32],
    res: &mut [u32],
    working: &mut [u32],
    told: &mut [u32; 3],
) -> u32
    ensures { Outcome (record { mode = 2; first = first.now; second = second.now })
        (record { result = res.old; working = working.old })
        (record {
          number = result;
          extent = get_or told.new 0 0;
          readings = get_or told.new 1 0;
          node = get_or told.new 2 0;
        })
        (record { result = res.new; working = working.new }) }
{
    let answer = unify::plain(first, second, res, working);
    let plain = answering::answer::told(answer);
    *told = [plain.length as u32, plain.readings, plain.node as u32];
    plain.number
}

// Tells whether the structure satisfies the description: document 01's number.
#[unsafe(no_mangle)]
pub extern "C" fn bublastyr_fit(structure: &[u32], description: &[u32]) -> u32
    ensures { FitGiven structure.now description.now result }
{
    let verdict = fit::fit(structure, description);
    fit::number(verdict)
}

// Tells what is malformed of two inputs. Answers document 01's number; cause, its own data and the place of the word go to `told`.
#[unsafe(no_mangle)]
pub extern "C" fn bublastyr_malformed(first: &[u32], second: &[u32], told: &mut [u32; 3]) -> u32
    ensures { Reported first.now second.now result (get_or told.new 0 0) (get_or told.new 1 0)
        (get_or told.new 2 0) }
{
    let what = malformed::judging::find_malformed(first, second);
    let report = malformed::judging::told(what, first.len());
    *told = [report.cause, report.value, report.place];
    report.number
}

// Writes the description that a formula stands for. Answers the number; length and byte go to `told`.
#[unsafe(no_mangle)]
pub extern "C" fn bublastyr_formula(text: &[u8], res: &mut [u32], told: &mut [u32; 2]) -> u32
    ensures { Answered text.now res.old result (get_or told.new 0 0) (get_or told.new 1 0)
        res.new }
{
    let answer = translate::formula::formula(text, res);
    let row = translate::answer::told(answer);
    *told = [row.length as u32, row.byte as u32];
    row.number
}

// Runs a suite: a table of tests over one area of words. Answers 0, 30, 31 or 32; counts, record and areas tell how the night went.
#[unsafe(no_mangle)]
pub extern "C" fn bublastyr_suite(
    tests: &[suite::test::Test],
    words: &[u32],
    res: &mut [u32],
    working: &mut [u32],
    running: &mut suite::running::Running,
    counts: &mut [[u32; 12]; 3],
) -> u32
    ensures { Suited words.now tests.now
        (record {
          counts = counts.old;
          running = running.old;
          result = res.old;
          working = working.old;
        }) result
        (record {
          counts = counts.new;
          running = running.new;
          result = res.new;
          working = working.new;
        }) }
{
    let refused = suite::suite(tests, words, res, working, running, counts);
    suite::checks::number(refused)
}

// Writes a library: entries of two words, identifier and number of words, whose descriptions follow each other in `words`. Answers the
// number; the bytes that were written or are needed go to `told`.
#[unsafe(no_mangle)]
pub extern "C" fn bublastyr_library_write(
    entries: &[u32],
    words: &[u32],
    file: &mut [u8],
    told: &mut [u32; 1],
) -> u32
    ensures { WriteTold entries.now words.now file.old result (get_or told.new 0 0)
        file.new }
{
    let answer = library_writing::write::write(entries, words, file);
    let row = library_writing::write::write_told(answer);
    *told = [row.extent as u32];
    row.number
}

// Reads a description of a library. Answers the number; the words that were read or are needed go to `told`.
#[unsafe(no_mangle)]
pub extern "C" fn bublastyr_library_read(
    file: &[u8],
    identifier: u32,
    res: &mut [u32],
    told: &mut [u32; 1],
) -> u32
    ensures { FetchTold file.now identifier res.old result (get_or told.new 0 0)
        res.new }
{
    let answer = library::read::fetch(file, identifier, res);
    let row = library::read::fetch_told(answer);
    *told = [row.extent as u32];
    row.number
}

// Lists a library: identifier and number of words of each description. Answers the number; the words of the list or those that are
// needed go to `told`.
#[unsafe(no_mangle)]
pub extern "C" fn bublastyr_library_list(
    file: &[u8],
    entries: &mut [u32],
    told: &mut [u32; 1],
) -> u32
    ensures { ListTold file.now entries.old result (get_or told.new 0 0) entries.new }
{
    let answer = library::list::list(file, entries);
    let row = library::list::list_told(answer);
    *told = [row.extent as u32];
    row.number
}
