// The map of the working area, 16,384 words:
//   from    words  holds
//        0  1,024  HELD: what each class holds, as `forest::held` reads it
//    1,024  1,024  PARENT: the parents of the union forest, and how many nodes each class has, as `forest::forest` reads it
//    2,048  2,048  NEXT: what follows an arc on its chain
//    4,096  4,096  LOG: the undo log, a word an entry: address + 4,096 * old value
//    8,192  1,024  STACK: pending comparisons, a word each: from + 4,096 * to
//    9,216  2,048  WORDS: both inputs as loaded
//   11,264  1,024  MARKS: a word for each alternative, those of a disjunction together
//   12,288  2,048  RESULT
//   14,336  2,048  unused
//
// The tables go by the numbers of nodes, and MARKS by those of marks, which are below NODES.
ghost use Rattle.std.specs.Prelude.{◌≤◌};
ghost use Rattle.area.specs.Map.{NODES};

pub const NODES: usize = 1024;

// An entry of the log is address + ENTRY_STEP * old value, a pending comparison from + FRAME_STEP * to.
pub const ENTRY_STEP: u32 = 4096;

pub const FRAME_STEP: u32 = 4096;

pub const HELD: usize = 0;

pub const PARENT: usize = 1024;

pub const NEXT: usize = 2048;

pub const LOG: usize = 4096;

pub const STACK: usize = 8192;

pub const WORDS: usize = 9216;

// Among the loaded words the first input is from 0 on, and the second from here.
pub const SECOND: usize = 1024;

pub const MARKS: usize = 11264;

pub const RESULT: usize = 12288;

// The words of the area that are used.
pub const SIZE: usize = 16384;

// The working area.
pub type Area = [u32; SIZE];

// How many nodes are loaded: each has a number below that.
#[derive(Clone, Copy, Debug, PartialEq, Eq)]
pub struct Nodes {
    pub count: usize,
    ghost in_area: { count ≤ NODES },
}
