//! Searches for the words that a caller has: as an array, a slice or a vector.
ghost use Rattle.std.specs.Prelude.{◌≡◌, ◌∷◌, [], IfOk, IfSome, OnOk, false, is_some, map};
ghost use Rattle.literal_base.specs.Leftmost.{IsLeftmost};
ghost use Rattle.literal_base.specs.Occurs.{IsValidSpan, whole_of};
ghost use Rattle.literal_base.specs.declared.packed.MatchKind.TheVariants.{LeftmostFirst};
ghost use Rattle.literal_packed.specs.BuilderValue.{builder_of, searcher_of, with_added};
ghost use Rattle.literal_packed.specs.ConfigValue.{default_config};
ghost use Rattle.literal_prefilters.specs.Choice.{pick};
ghost use Rattle.literal_prefilters.specs.ConfirmingValue.{prefilter_builder};

use literal_base::laws::greedy_is_unique;
use literal_prefilters::packed::{self, Builder, Searcher};
use literal_prefilters::prefilter::ConfirmingSearch;
use literal_prefilters::{Match, Span};
use literal_search::{BuildError, Search};
use std::alloc::{AllocError, Global};

/// The answer of a search.
#[derive(Drop)]
pub struct Found {
    /// The leftmost match.
    pub first: Option<Match>,
}

/// The leftmost match of the words of an array. `None` exactly if no searcher is built for them.
pub fn first_of_array(
    alloc: Global,
    words: [&[u8]; 3],
    haystack: &[u8],
) -> Result<Option<Found>, AllocError>
    ensures leftmost { IfOk result (λ answer. IfSome answer (λ found. IsLeftmost
        (record { kind = LeftmostFirst; patterns = map (λ word. word.now) words.entry })
        false haystack.now (whole_of haystack.now) found.first)) }
    ensures built { IfOk result (λ answer. is_some answer
        ≡ is_some (searcher_of (builder_of default_config (map (λ word. word.now) words.entry)))) }
{
    let Some(searcher) = Searcher::new(alloc, words)? else {
        return Ok(None);
    };
    let first = searcher.find(haystack);
    Ok(Some(Found { first }))
}

/// The leftmost match of the words of a slice. `None` exactly if no searcher is built for them.
pub fn first_of_slice(
    alloc: Global,
    words: &[&[u8]],
    haystack: &[u8],
) -> Result<Option<Found>, AllocError>
    ensures leftmost { IfOk result (λ answer. IfSome answer (λ found. IsLeftmost
        (record { kind = LeftmostFirst; patterns = map (λ word. word.now) words.now })
        false haystack.now (whole_of haystack.now) found.first)) }
    ensures built { IfOk result (λ answer. is_some answer
        ≡ is_some (searcher_of (builder_of default_config (map (λ word. word.now) words.now)))) }
{
    let Some(searcher) = Searcher::new(alloc, words.iter().copied())? else {
        return Ok(None);
    };
    let first = searcher.find(haystack);
    Ok(Some(Found { first }))
}

/// The leftmost match of the words of a vector. `None` exactly if no searcher is built for them.
pub fn first_of_vec(
    alloc: Global,
    words: Vec<&[u8]>,
    haystack: &[u8],
) -> Result<Option<Found>, AllocError>
    ensures leftmost { IfOk result (λ answer. IfSome answer (λ found. IsLeftmost
        (record { kind = LeftmostFirst; patterns = map (λ word. word.now) words.entry.items })
        false haystack.now (whole_of haystack.now) found.first)) }
    ensures built { IfOk result (λ answer. is_some answer
        ≡ is_some (searcher_of (builder_of default_config (map (λ word. word.now) words.entry.items)))) }
{
    let Some(searcher) = Searcher::new(alloc, words)? else {
        return Ok(None);
    };
    let first = searcher.find(haystack);
    Ok(Some(Found { first }))
}

/// The leftmost match in a span, by a confirming search for the words of a slice. `None` exactly if no prefilter suits
/// them.
pub fn first_confirmed(
    alloc: Global,
    kind: packed::MatchKind,
    ignore_case: bool,
    words: &[&[u8]],
    haystack: &[u8],
    span: Span,
) -> Result<Option<Found>, AllocError>
    requires { IsValidSpan haystack.now span }
    ensures leftmost { IfOk result (λ answer. IfSome answer (λ found. IsLeftmost
        (record { kind = kind; patterns = map (λ word. word.now) words.now })
        ignore_case haystack.now span found.first)) }
    ensures built { IfOk result (λ answer. is_some answer
        ≡ is_some (pick (prefilter_builder kind ignore_case (map (λ word. word.now) words.now)))) }
{
    let built = ConfirmingSearch::build(alloc, kind, ignore_case, words.iter().copied())?;
    let Some(search) = built else {
        return Ok(None);
    };
    let first = search.find_in(haystack, span);
    Ok(Some(Found { first }))
}

/// Adds the words of a slice to a builder.
pub fn add_all(builder: &mut Builder, words: &[&[u8]]) -> Result<(), AllocError>
    ensures { OnOk result (builder.new ≡ with_added builder.old (map (λ word. word.now) words.now)) }
{
    builder.extend(words.iter().copied())?;
    Ok(())
}

/// All matches of the example in README, in order.
pub fn found_in_readme(alloc: Global) -> Result<Vec<Match>, BuildError>
    ensures { IfOk result (λ all. all.items
        ≡ record { pattern = 1; start = 13; end = 18 }
        ∷ record { pattern = 0; start = 28; end = 33 }
        ∷ record { pattern = 2; start = 43; end = 50 } ∷ []) }
{
    greedy_is_unique();
    let words = [b"apple".as_slice(), b"maple", b"Snapple"];
    let search = Search::new(alloc, packed::MatchKind::LeftmostFirst, false, words)?;
    let text = b"Nobody likes maple in their apple flavored Snapple.";
    let all = search.find_all(text)?;
    Ok(all)
}
