// What is told of a graph that is not pushed.

// It agrees with the graphs that are pushed, or it clashes with them; or nothing is said.
#[derive(Clone, Copy)]
pub enum Guess {
    Agrees,
    Clashes,
    Unsure,
}
