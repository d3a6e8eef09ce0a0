//! Steps of the way through a tree.

/// A node of the tree of a page, as the way through it comes to it.
#[derive(Clone, Copy)]
pub struct Step {
    /// Its number: the place of a thing, or a number after all things.
    pub node: usize,
    /// How many nodes are above it.
    pub depth: usize,
    /// How many are directly below it.
    pub inside: usize,
}
