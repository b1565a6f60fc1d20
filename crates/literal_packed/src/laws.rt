//! Laws of definitions and of searches. Each law is the contract of a function. If a law is about definitions, its
//! function does nothing; otherwise the function makes the calls that the law is about.
ghost use Rattle.std.specs.Prelude.{◌≡◌, ◌<◌, ◌≤◌, ◌+◌, ◌-◌, ◌*◌, ◌^◌, ◌/◌, ◌%◌, ◌↔◌, ℕ, List, [], ◌∷◌, ◌++◌};
ghost use Rattle.std.specs.Prelude.{length, map, replicate, sum};
ghost use Rattle.std.specs.Prelude.{slice_index, codes, true, false, IsTrue, IsNone, Option, Some, None, IfOk};
ghost use Rattle.std.specs.Iterator.{Yields};
ghost use Rattle.std.specs.List.{All, range_with_len};
ghost use Rattle.literal_ids.specs.Clones.{ClonesExactly};
ghost use Rattle.literal_ids.specs.Iteration.{GivesEachThenNone};
ghost use Rattle.literal_base.specs.declared.packed.MatchKind.{MatchKind};
ghost use Rattle.literal_base.specs.declared.packed.MatchKind.TheVariants.{LeftmostFirst, LeftmostLongest};
ghost use Rattle.literal_base.specs.Counts.{Counts, none_yet};
ghost use Rattle.literal_base.specs.MatchValue.{MatchValue};
ghost use Rattle.literal_base.specs.Occurs.{IsValidSpan, NoneIsEmpty, NothingOccurs, between, pattern_at, whole_of};
ghost use Rattle.literal_base.specs.Leftmost.{IsBetter, IsLeftmost, is_better};
ghost use Rattle.literal_base.specs.Greedy.{IsGreedy};
ghost use Rattle.literal_base.specs.Query.{Query};
ghost use Rattle.literal_packed.specs.BuilderValue.{AreBuildable, IsBuildable, builder_of, searcher_of};
ghost use Rattle.literal_packed.specs.ConfigValue.{ConfigValue};
ghost use Rattle.literal_packed.specs.PatternsValue.{minimum_len_of};
ghost use Rattle.literal_packed.specs.Sum.{sum_of};
ghost use Rattle.literal_packed.specs.Pairs.{counts_after};
ghost use Rattle.literal_base.specs.Apart.{LieApart};
ghost use Rattle.literal_packed.specs.FindIterValue.{FindIterValue, FindsNext, StandsAtEnd};
ghost use Rattle.literal_packed.specs.Spending.{SpendsAtMost, SpendsWithin, counts_after_all};

use crate::pattern::{Pattern, PatternIter};
use crate::{Builder, Config, FindIter, Searcher};
use literal_base::count::Tally;
use literal_base::laws::{greedy_is_unique, leftmost_is_unique};
use literal_base::{Match, Span};
use std::alloc::{AllocError, Global};

/// The sum of a window is the sum of its bytes, each times 2 to the power of the number of bytes after it, modulo 2^64.
pub fn sum_is_by_index()
    ensures { (w : List ℕ) → sum_of w ≡ sum (map (λ k. slice_index w k * 2 ^ (length w - 1 - k))
        (range_with_len 0 (length w))) % 2 ^ 64 }
{}

/// No pattern is shorter than the minimum length. If there is a pattern, and none is longer than `usize::MAX`, some
/// pattern has this length. Without patterns it is `usize::MAX`.
pub fn minimum_len_is_the_least_length()
    ensures bound { (patterns : List (List ℕ)) (i : ℕ) → i < length patterns
        → minimum_len_of patterns ≤ length (pattern_at patterns i) }
    ensures reached { (patterns : List (List ℕ)) → 0 < length patterns
        → All (λ bytes. length bytes < 2 ^ 64) patterns
        → (i : ℕ) × i < length patterns × (length (pattern_at patterns i) ≡ minimum_len_of patterns) }
    ensures none { minimum_len_of [] ≡ 2 ^ 64 - 1 }
{}

/// A configuration builds a searcher for exactly the lists of one pattern or more, up to its limit, that have no empty
/// pattern. The searcher is for these patterns and the configured match kind.
pub fn lists_up_to_the_limit_build()
    ensures searcher { (config : ConfigValue) (added : List (List ℕ)) → AreBuildable config.pattern_limit added
        → searcher_of (builder_of config added) ≡ Some (record { kind = config.kind; patterns = added }) }
    ensures no_others { (config : ConfigValue) (added : List (List ℕ)) → IsBuildable (builder_of config added)
        → AreBuildable config.pattern_limit added }
{}

/// A builder keeps the limit that its configuration had when the builder was made, whatever limit is set later.
pub fn builders_keep_their_limit(alloc: Global, config: &mut Config, later: usize) -> Builder
    requires some { 1 ≤ later }
    requires few { later ≤ Config.MAX_PATTERN_LIMIT }
    ensures builder { result ≡ builder_of config.old [] }
    ensures config { config.new ≡ record config.old { pattern_limit = later } }
{
    let builder = config.builder(alloc);
    config.pattern_limit(later);
    builder
}

/// The test `is_better` says which pattern is preferred.
pub fn better_is_tested()
    ensures { (kind : MatchKind) (patterns : List (List ℕ)) (i j : ℕ)
        → (is_better kind patterns i j ≡ true) ↔ IsBetter kind patterns i j }
{}

/// An iteration over patterns gives each element that is left in turn, and then always `None`.
pub fn iterations_over_patterns_end()
    ensures { GivesEachThenNone (λ pair. pair) ⟦<PatternIter<'static> as Iterator>⟧.next_gives }
{}

/// A clone of a pattern or of a configuration is the same value, and allocates nothing.
pub fn clones_are_equal()
    ensures pattern { ClonesExactly ⟦<Pattern<'static> as Clone>⟧.is_clone ⟦<Pattern<'static> as Clone>⟧.is_infallible }
    ensures config { ClonesExactly ⟦<Config as Clone>⟧.is_clone ⟦<Config as Clone>⟧.is_infallible }
{}

/// A search of the whole haystack answers like a search of the span of the whole haystack.
pub fn find_is_find_in(searcher: &Searcher, haystack: &[u8]) -> (Option<Match>, Option<Match>)
    ensures same { result.0 ≡ result.1 }
    ensures leftmost { IsLeftmost searcher.now false haystack.now (whole_of haystack.now) result.0 }
{
    leftmost_is_unique();
    let whole = Span {
        start: 0,
        end: haystack.len(),
    };
    (searcher.find(haystack), searcher.find_in(haystack, whole))
}

/// A search answers `None` exactly if no pattern occurs in the span.
pub fn none_if_nothing_occurs(searcher: &Searcher, haystack: &[u8], span: Span) -> Option<Match>
    requires { IsValidSpan haystack.now span }
    ensures { IsNone result ↔ NothingOccurs searcher.now.patterns false haystack.now span }
{
    searcher.find_in(haystack, span)
}

/// The matches that an iterator gives before its first `None` are the greedy list. They lie apart, and there are at
/// most as many as the haystack has bytes.
pub fn iteration_is_greedy(
    alloc: Global,
    searcher: &Searcher,
    haystack: &[u8],
) -> Result<Vec<Match>, AllocError>
    ensures greedy { IfOk result (λ all. IsGreedy searcher.now false haystack.now 0 all.items) }
    ensures apart { IfOk result (λ all. LieApart searcher.now.patterns false haystack.now 0 all.items) }
    ensures few { IfOk result (λ all. length all.items ≤ length haystack.now) }
{
    let mut all = Vec::new(alloc);
    let mut matches = searcher.find_iter(haystack);
    while let Some(found) = matches.next() {
        all.push(found)?;
    }
    Ok(all)
}

/// Before its first `None`, an iterator hashes each byte of the haystack at most once, and reads and compares at most
/// the pairs of the whole haystack.
pub fn iteration_is_bounded<'s, 'h>(searcher: &'s Searcher, haystack: &'h [u8]) -> FindIter<'s, 'h>
    ensures bounded { SpendsWithin searcher.now haystack.now none_yet result.counts }
    ensures query { result.query ≡ searcher.now }
    ensures haystack { result.haystack ≡ haystack.now }
    ensures ended { StandsAtEnd result }
{
    let mut matches = searcher.find_iter(haystack);
    while let Some(_) = matches.next() {}
    matches
}

/// The list of all matches has those that an iterator gives before its first `None`.
pub fn list_is_iteration(
    alloc: Global,
    searcher: &Searcher,
    haystack: &[u8],
    tally: &mut Tally,
) -> Result<(Vec<Match>, Vec<Match>), AllocError>
    ensures same { IfOk result (λ both. both.0.items ≡ both.1.items) }
    ensures greedy { IfOk result (λ both. IsGreedy searcher.now false haystack.now 0 both.0.items) }
{
    greedy_is_unique();
    let listed = searcher.find_all(haystack, tally)?;
    let iterated = iteration_is_greedy(alloc, searcher, haystack)?;
    Ok((listed, iterated))
}

/// A call of `next` counts at most what there is between the offset from which it searches and the one from which the
/// search continues.
pub fn next_is_bounded()
    ensures { (old new : FindIterValue) (answer : Option MatchValue) → old.at ≤ length old.haystack
        → FindsNext old answer new → SpendsAtMost old.query old.haystack old.at new.at old.counts new.counts }
{}

/// An iterator counts up to its first `None` as much as successive searches with its matches and this `None` as their
/// answers.
pub fn iterations_count_as_lists()
    ensures { (first last ended : FindIterValue) (all : List MatchValue) → Yields FindsNext first all last
        → FindsNext last None ended
        → ended.counts ≡ counts_after_all first.counts first.query first.haystack first.at all }
{}

/// After a `None` an iterator is at the end of the haystack.
pub fn none_ends_an_iteration()
    ensures { (old new : FindIterValue) → FindsNext old None new → StandsAtEnd new }
{}

/// An iterator at the end of the haystack answers `None`, and stays there.
pub fn none_at_the_end()
    ensures { (old new : FindIterValue) (answer : Option MatchValue) → StandsAtEnd old → FindsNext old answer new
        → IsNone answer × StandsAtEnd new }
{}

/// Whether a `None` of an iterator is followed only by `None`, in this many more calls. It is.
pub fn none_is_for_good(matches: &mut FindIter<'_, '_>, more: usize) -> bool
    ensures { IsTrue result }
{
    if matches.next().is_some() {
        return true;
    }
    for _ in 0..more {
        if matches.next().is_some() {
            return false;
        }
    }
    true
}

/// The counts of three searches, computed by hand. The pattern `ab`, and the bytes `b` and grave accent, have the sum
/// 292, so the pattern is compared there in vain. Of the 7 bytes of `abababa`, 6 are hashed, since the last byte is
/// shorter than the window. The bytes `!` and `a` share a bucket, but their sums differ.
pub fn worked_counts()
    ensures equal_sums { counts_after none_yet (record { kind = LeftmostFirst; patterns = codes "ab" ∷ [] })
        (0x62 ∷ 0x60 ∷ 0x61 ∷ 0x62 ∷ []) (whole_of (0x62 ∷ 0x60 ∷ 0x61 ∷ 0x62 ∷ []))
        (Some (record { pattern = 0; start = 2; end = 4 }))
        ≡ record { hashed = 4; entries = 2; compared = 2; scanned = 0; tried = 0 } }
    ensures iteration { counts_after_all none_yet
        (record { kind = LeftmostFirst; patterns = codes "ab" ∷ codes "ba" ∷ [] }) (codes "abababa") 0
        (record { pattern = 0; start = 0; end = 2 } ∷ record { pattern = 0; start = 2; end = 4 } ∷ record
        { pattern = 0; start = 4; end = 6 } ∷ [])
        ≡ record { hashed = 6; entries = 3; compared = 3; scanned = 0; tried = 0 } }
    ensures shared_bucket { counts_after none_yet (record { kind = LeftmostLongest; patterns = codes "a" ∷ [] })
        (codes "!!!!") (whole_of (codes "!!!!")) None
        ≡ record { hashed = 4; entries = 4; compared = 0; scanned = 0; tried = 0 } }
{}

/// The counts of a search for 65535 patterns, computed by hand. The patterns are the two bytes of each number from 0 to
/// 65534, and the haystack has those of the last number. No other two bytes have their sum, so one pattern is compared.
pub fn worked_counts_of_65535_patterns()
    ensures { (patterns : List (List ℕ)) → length patterns ≡ 65535
        → ((n : ℕ) → n < 65535 → pattern_at patterns n ≡ n / 256 ∷ n % 256 ∷ [])
        → let counts = counts_after none_yet (record { kind = LeftmostFirst; patterns = patterns })
        (0xFF ∷ 0xFE ∷ []) (whole_of (0xFF ∷ 0xFE ∷ []))
        (Some (record { pattern = 65534; start = 0; end = 2 })) in
        (counts.hashed ≡ 2) × (counts.compared ≡ 1) }
{}

/// If no pattern is empty, a search of an empty span counts nothing, for any patterns.
pub fn empty_spans_count_nothing()
    ensures { (old : Counts) (query : Query) (haystack : List ℕ) (at : ℕ) → NoneIsEmpty query.patterns
        → counts_after old query haystack (between at at) None ≡ old }
{}

/// The counts of searches for patterns that have the same sum as bytes that differ from them, computed by hand. The
/// bytes 19 + k and 254 - 2k have the sum 292 for each k, and so have 146 and 0. So 127 patterns are compared there in
/// vain, and of 128 the last is found. 69 `a` and a `b` have the sum of the same bytes with an `x` for the first `a`,
/// whose factor is a multiple of 2^64: there is one comparison.
pub fn counts_of_chosen_patterns()
    ensures equal_sums { let patterns : ℕ → List (List ℕ) =
        λ n. map (λ k. (19 + k) ∷ (254 - 2 * k) ∷ []) (range_with_len 0 n) in
        let haystack : List ℕ = 146 ∷ 0 ∷ [] in
        let last : Option MatchValue = Some (record { pattern = 127; start = 0; end = 2 }) in
        ((kind : MatchKind) → counts_after none_yet (record { kind = kind; patterns = patterns 127 }) haystack
        (whole_of haystack) None
        ≡ record { hashed = 2; entries = 127; compared = 127; scanned = 0; tried = 0 })
        × (counts_after none_yet (record { kind = LeftmostFirst; patterns = patterns 128 }) haystack
        (whole_of haystack) last
        ≡ record { hashed = 2; entries = 128; compared = 128; scanned = 0; tried = 0 })
        × (counts_after none_yet (record { kind = LeftmostLongest; patterns = patterns 128 }) haystack
        (whole_of haystack) last
        ≡ record { hashed = 2; entries = 128; compared = 128; scanned = 0; tried = 0 }) }
    ensures long { (kind : MatchKind) → let haystack : List ℕ = 0x78 ∷ (replicate 68 0x61 ++ 0x62 ∷ []) in
        counts_after none_yet (record { kind = kind; patterns = (replicate 69 0x61 ++ 0x62 ∷ []) ∷ [] })
        haystack (whole_of haystack) None
        ≡ record { hashed = 70; entries = 1; compared = 1; scanned = 0; tried = 0 } }
{}
