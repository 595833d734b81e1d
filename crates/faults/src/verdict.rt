// Why words are no description, and which word decides.
use roles::cause::Cause;

// The cause, and the place of the word that decides.
#[derive(Clone, Copy, Debug, PartialEq, Eq)]
pub struct Fault {
    pub cause: Cause,
    pub at: usize,
}
