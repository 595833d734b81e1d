// The tables of a formula, as they go together from function to function.

// The rows of its arcs, its atoms and its ties, two words each, and its alternatives, four words each.
#[derive(Clone, Copy)]
pub struct Tables<'a> {
    pub arcs: &'a [u32],
    pub atoms: &'a [u32],
    pub ties: &'a [u32],
    pub alts: &'a [u32],
}
