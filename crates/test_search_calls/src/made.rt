//! Searches for tests. Their contracts promise little about them: more would make the proofs of tests long.
ghost use Rattle.std.specs.Prelude.{◌≡◌, IfOk};
ghost use Rattle.literal_base.specs.declared.packed.MatchKind.TheVariants.{LeftmostLongest};

use literal_search::{BuildError, MatchKind, Search};
use std::alloc::Global;

/// A search for some words, the first of them, with case ignored.
pub fn first_of(alloc: Global, words: &[&[u8]]) -> Result<Search, BuildError> {
    Search::new(alloc, MatchKind::LeftmostFirst, true, words.iter().copied())
}

/// A search for some words, the longest of them, with case kept.
pub fn longest_of(alloc: Global, words: &[&[u8]]) -> Result<Search, BuildError>
    ensures { IfOk result (λ search. search.query.kind ≡ LeftmostLongest) }
{
    Search::new(
        alloc,
        MatchKind::LeftmostLongest,
        false,
        words.iter().copied(),
    )
}
