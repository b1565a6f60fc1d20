//! How often each pattern is a match.
ghost use Rattle.std.specs.Prelude.{◌≡◌, ◌==◌, ◌<◌, ℕ, List, IfOk, OnErr, count_by, length};
ghost use Rattle.std.specs.Prelude.{replicate, slice_index};
ghost use Rattle.literal_base.specs.Greedy.{IsGreedy};
ghost use Rattle.literal_base.specs.MatchValue.{MatchValue};

use literal_search::Search;
use std::alloc::{AllocError, Global};

/// How often each pattern is a match, of all matches from the left that do not overlap. Memory is requested only if
/// there is a pattern.
pub fn frequencies(
    alloc: Global,
    search: &Search,
    haystack: &[u8],
) -> Result<Vec<usize>, AllocError>
    ensures counted { IfOk result (λ counts. (all : List MatchValue)
        × IsGreedy search.now.query search.now.ignore_case haystack.now 0 all
        × (length counts.items ≡ length search.now.query.patterns)
        × ((i : ℕ) → i < length search.now.query.patterns
        → slice_index counts.items i ≡ count_by (λ m. m.pattern == i) all)) }
    ensures no_memory { OnErr result (0 < length search.now.query.patterns) }
{
    let mut counts = zeroes(alloc, search.patterns_len())?;
    for found in search.find_iter(haystack) {
        let _ = found.end(); // (a `usize`, which bounds each count)
        counts[found.pattern().as_usize()] += 1;
    }
    Ok(counts)
}

/// A list of zeroes.
fn zeroes(alloc: Global, count: usize) -> Result<Vec<usize>, AllocError>
    ensures zeroes { IfOk result (λ all. all.items ≡ replicate count 0) }
    ensures no_memory { OnErr result (0 < count) }
{
    if count == 0 {
        return Ok(Vec::new(alloc));
    }
    Vec::from_elem(alloc, 0, count)
}
