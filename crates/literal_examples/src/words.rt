//! Whether a word occurs in a text, by a `Search` for the words of an array, a slice, a vector, or a list of texts, and
//! every occurrence there.
ghost use Rattle.std.specs.Prelude.{◌≡◌, ◌-◌, IfOk, false, map, nat_le, string_bytes, true};
ghost use Rattle.literal_base.specs.Occurs.{one_occurs, whole_of};
ghost use Rattle.literal_search.specs.Overlapping.{AreAllThat, IsOverlapping};

use literal_search::laws::iterations_give_each_occurrence_once;
use literal_search::{BuildError, Match, MatchKind, Overlapping, Search};
use std::alloc::{AllocError, Global};

/// Whether one of the words of an array occurs in a text, with ASCII case ignored.
pub fn has_one_of_array(alloc: Global, words: [&[u8]; 3], text: &[u8]) -> Result<bool, BuildError>
    ensures { IfOk result (λ has. has ≡ one_occurs (map (λ word. word.now) words.entry) true text.now) }
{
    let search = Search::new(alloc, MatchKind::LeftmostFirst, true, words)?;
    Ok(search.is_match(text))
}

/// The same for a slice.
pub fn has_one_of_slice(alloc: Global, words: &[&[u8]], text: &[u8]) -> Result<bool, BuildError>
    ensures { IfOk result (λ has. has ≡ one_occurs (map (λ word. word.now) words.now) true text.now) }
{
    let patterns = words.iter().copied();
    let search = Search::new(alloc, MatchKind::LeftmostFirst, true, patterns)?;
    Ok(search.is_match(text))
}

/// The same for a vector.
pub fn has_one_of_vec(alloc: Global, words: Vec<&[u8]>, text: &[u8]) -> Result<bool, BuildError>
    ensures { IfOk result (λ has. has ≡ one_occurs (map (λ word. word.now) words.entry.items) true text.now) }
{
    let search = Search::new(alloc, MatchKind::LeftmostFirst, true, words)?;
    Ok(search.is_match(text))
}

/// The same for owned texts, as they come from a command line.
pub fn has_one_of_texts(alloc: Global, words: &[String], text: &[u8]) -> Result<bool, BuildError>
    ensures { IfOk result (λ has. has ≡ one_occurs (map string_bytes words.now) true text.now) }
{
    let patterns = words.iter().map(|word| word.as_bytes());
    let search = Search::new(alloc, MatchKind::LeftmostFirst, true, patterns)?;
    Ok(search.is_match(text))
}

/// Every occurrence of the words of a slice in a text, also those that overlap others, in the order of ends.
pub fn all_that_occurs(
    alloc: Global,
    words: &[&[u8]],
    text: &[u8],
) -> Result<Vec<Match>, BuildError>
    ensures { IfOk result (λ all. IsOverlapping (map (λ word. word.now) words.now) false text.now (whole_of text.now)
        all.items) }
{
    let search = Overlapping::new(alloc, false, words.iter().copied())?;
    Ok(collect_all(alloc, &search, text)?)
}

/// The list of all occurrences that a search gives.
pub fn collect_all(
    alloc: Global,
    search: &Overlapping,
    text: &[u8],
) -> Result<Vec<Match>, AllocError>
    ensures { IfOk result (λ all. IsOverlapping search.now.patterns search.now.ignore_case text.now
        (whole_of text.now) all.items) }
{
    iterations_give_each_occurrence_once();
    let mut all = Vec::new(alloc);
    for found in search.find_overlapping_iter(text) {
        all.push(found)?;
    }
    Ok(all)
}

/// Every occurrence with at least this many bytes in a text, in the order of ends.
pub fn occurrences_of_at_least(
    alloc: Global,
    search: &Overlapping,
    text: &[u8],
    least: usize,
) -> Result<Vec<Match>, AllocError>
    ensures { IfOk result (λ all. AreAllThat (λ found. nat_le least (found.end - found.start)) search.now.patterns
        search.now.ignore_case text.now (whole_of text.now) all.items) }
{
    iterations_give_each_occurrence_once();
    let mut all = Vec::new(alloc);
    for found in search.find_overlapping_iter(text) {
        if least <= found.len() {
            all.push(found)?;
        }
    }
    Ok(all)
}
