// What a step comes to where it stands; one that fails is `None`, and all that it pushed is taken back.

// So many entries are in the log, and so many alternatives were dropped.
#[derive(Clone, Copy)]
pub struct Step {
    pub log: usize,
    pub drops: usize,
}
