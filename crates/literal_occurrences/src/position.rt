//! The position of a search for every occurrence.

/// The position of a search in its haystack.
#[derive(Clone, Copy)]
pub struct Position {
    /// The offset up to which it has read.
    pub at: usize,
    /// The index of its state's row.
    pub row: usize,
    /// The least number of the patterns ending at `at` that are still to come.
    pub pattern: usize,
    /// The part of the lists that names these patterns.
    pub next: usize,
    pub end: usize,
}
