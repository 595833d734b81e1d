// A test of the table.

// A test: mode, expected number and readings, and where in the word area the two descriptions stand: start and number of words.
#[repr(C)]
#[derive(Clone, Copy)]
pub struct Test {
    pub mode: u32,
    pub number: u32,
    pub readings: u32,
    pub first: u32,
    pub firsts: u32,
    pub second: u32,
    pub seconds: u32,
}
