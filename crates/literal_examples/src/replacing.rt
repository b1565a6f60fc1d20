//! Replaces every match by one text, by calls that write it, and each of some words by a text.
ghost use Rattle.std.specs.Prelude.{◌≡◌, IfOk, List, false, map, string_bytes};
ghost use Rattle.literal_base.specs.Greedy.{IsGreedy};
ghost use Rattle.literal_base.specs.MatchValue.{MatchValue};
ghost use Rattle.literal_base.specs.declared.packed.MatchKind.TheVariants.{LeftmostFirst};
ghost use Rattle.literal_search.specs.SearchValue.{search_by};
ghost use Rattle.literal_search.specs.Replaced.{IsReplaced, replaced_by};

use literal_search::{BuildError, MatchKind, ReplaceError, Search};
use std::alloc::{AllocError, Global};

/// The text with each match replaced by the same replacement.
pub fn replace_each(
    alloc: Global,
    search: &Search,
    text: &[u8],
    replacement: &[u8],
) -> Result<Vec<u8>, AllocError>
    ensures replaced { IfOk result (λ answer. IsReplaced search.now text.now
        (map (λ _. replacement.now) search.now.query.patterns) answer.items) }
    ensures same { IfOk result (λ answer. (all : List MatchValue)
        × IsGreedy search.now.query search.now.ignore_case text.now 0 all
        × (answer.items ≡ replaced_by (λ _. replacement.now) text.now 0 all)) }
{
    let answer = search.replace_all_with(
        alloc,
        text,
        |_, _, into| into.extend_from_slice(replacement),
    )?;
    Ok(answer)
}

/// The text with each of some words replaced.
pub fn replace_words(
    alloc: Global,
    words: &[String],
    text: &str,
    replacements: &[&str],
) -> Result<Result<String, ReplaceError>, BuildError>
    ensures { IfOk result (λ done. IfOk done (λ answer.
        IsReplaced (search_by LeftmostFirst false (map string_bytes words.now)) text.now
        (map (λ r. r.now) replacements.now) (string_bytes answer))) }
{
    let patterns = words.iter().map(|word| word.as_bytes());
    let search = Search::new(alloc, MatchKind::LeftmostFirst, false, patterns)?;
    Ok(search.replace_all_str(alloc, text, replacements))
}
