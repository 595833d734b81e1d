// The second line: what is told of a malformed input, or where definite graphs clash.
ghost use Rattle.std.specs.Prelude.{◌≡◌, ◌≤◌, length, get_or};
ghost use Rattle.theory.specs.Limits.{input_limit};
ghost use Rattle.roles.specs.Faults.{Faulty};
ghost use Rattle.roles.specs.Coded.{cause_of};
ghost use Rattle.answer_text.specs.Going.{Appends};
ghost use Rattle.explaining.specs.Explained.{Tells, number_for, node_for, Lined, line_text, fault_text};

use answer_text::line::{put_labelled, put_last};
use faults::hint::hint;
use faults::verdict::Fault;
use malformed::judging::{Malformed, find_malformed};
use roles::cause::cause_number;

// What is told of a malformed input: the number of the cause, the place of the word that decides, that word and the hint.
#[derive(Clone, Copy)]
pub struct FaultLine {
    pub cause: u32,
    pub place: usize,
    pub word: u32,
    pub hint: u32,
}

// A second line tells of a malformed input, or the node of a clash.
#[derive(Clone, Copy)]
pub enum SecondLine {
    Fault(FaultLine),
    Node(usize),
}

// The word at a place; 0 where the words end.
fn word_at(ws: &[u32], place: usize) -> u32
    ensures { result ≡ get_or ws.now place 0 }
{
    ws.get(place).copied().unwrap_or(0)
}

// What is told of words that have a fault.
fn fault_line(ws: &[u32], fault: Fault) -> FaultLine
    requires { (fault.at ≤ input_limit) × Faulty ws.now (cause_of fault.cause) fault.at }
    ensures { Tells ws.now result × (length (fault_text result.cause result.place result.word result.hint) ≤ 100) }
{
    FaultLine {
        cause: cause_number(fault.cause),
        place: fault.at,
        word: word_at(ws, fault.at),
        hint: hint(ws),
    }
}

// What is told of a call, which is answered this number with this node, beside its answer.
pub fn second_line(
    mode: u32,
    first: &[u32],
    second: &[u32],
    number: u32,
    node: usize,
) -> Option<SecondLine>
    requires { (number ≡ number_for (record { mode = mode; first = first.now; second = second.now }))
        × (node ≡ node_for (record { mode = mode; first = first.now; second = second.now })) }
    ensures { Lined (record { mode = mode; first = first.now; second = second.now }) result
        × (length (line_text result) ≤ 100) }
{
    if number == 6 {
        return Some(SecondLine::Node(node));
    }
    if 2 < mode {
        return None;
    }
    match find_malformed(first, second) {
        Some(Malformed::First(fault)) => Some(SecondLine::Fault(fault_line(first, fault))),
        Some(Malformed::Second(fault)) => Some(SecondLine::Fault(fault_line(second, fault))),
        Some(Malformed::TooLong) => None,
        None => None,
    }
}

// Writes what is told of a fault, and ends the line.
fn put_fault(out: &mut [u8], at: usize, line: FaultLine) -> Option<usize>
    ensures { Appends (fault_text line.cause line.place line.word line.hint) out.old at out.new result }
{
    let caused = put_labelled(out, at, b"cause ", u64::from(line.cause))?;
    let placed = put_labelled(out, caused, b" word ", line.place as u64)?;
    let stood = put_labelled(out, placed, b" stands ", u64::from(line.word))?;
    put_last(out, stood, b" hint ", u64::from(line.hint))
}

// Writes the second line, where there is one.
pub fn put_second_line(out: &mut [u8], at: usize, line: Option<SecondLine>) -> Option<usize>
    ensures { Appends (line_text line) out.old at out.new result }
{
    match line {
        Some(SecondLine::Fault(line)) => put_fault(out, at, line),
        Some(SecondLine::Node(node)) => put_last(out, at, b"node ", node as u64),
        None => Some(at),
    }
}
