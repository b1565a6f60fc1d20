//! The guarantees of the layers of the port, together. Those of the searches for any list are in `search_promise`.
//!
//! Unless memory is refused, a `Searcher` is built for exactly the lists of non-empty patterns, from one to the
//! configured limit. Its answer in every valid span is the leftmost whole occurrence under the tie rule. `find_iter` is
//! the greedy list of these, and hashes each haystack byte at most once. No built `Prefilter` passes over an
//! occurrence; confirming by it finds the leftmost one, and scans at most 255 bytes per byte of the span.
//!
//! The contract of [`together`] says all of this, and is proved only from public contracts and laws.
//! `test_calls::callers::together` runs it, since tests here would double the time of the proof.
#![tactic(auto)]

ghost use Rattle.std.specs.Prelude.{◌≡◌, ◌<◌, ◌≤◌, ◌+◌, ◌-◌, ◌*◌, ◌↔◌, IfOk, IfSome, IsSome, IsSomeAnd, OnErr, false};
ghost use Rattle.std.specs.Prelude.{is_some, length};
ghost use Rattle.literal_base.specs.Greedy.{IsGreedy};
ghost use Rattle.literal_base.specs.Leftmost.{IsLeftmost};
ghost use Rattle.literal_base.specs.Occurs.{IsValidSpan, pattern_at};
ghost use Rattle.literal_packed.specs.BuilderValue.{AreBuildable};
ghost use Rattle.literal_packed.specs.ConfigValue.{IsPatternLimit};
ghost use Rattle.literal_prefilters.specs.Choice.{Serves, pick};
ghost use Rattle.literal_prefilters.specs.PrefilterValue.{IsAnswer};
ghost use Rattle.literal_prefilters.specs.Sound.{Sound};
ghost use Rattle.literal_promise.specs.Together.{IsIteration, asked_builder, asked_query};

pub mod covered;

use covered::{confirm_covered, covered_patterns};
use literal_prefilters::count::Tally;
use literal_prefilters::packed::laws::{lists_up_to_the_limit_build, next_is_bounded};
use literal_prefilters::packed::{self, Config, Searcher};
use literal_prefilters::prefilter::Candidate;
use literal_prefilters::{Match, MatchKind, Span};
use std::alloc::{AllocError, Global};

/// Patterns, and how to search for them.
#[derive(Drop)]
pub struct SearchRequest<'p> {
    /// Which occurrence is the match.
    pub kind: packed::MatchKind,
    /// The largest number of patterns for which a searcher is built.
    pub pattern_limit: usize,
    /// The match kind for which the prefilter is built: the same, or standard semantics.
    pub built_for: MatchKind,
    /// Whether the prefilter, and the search that confirms its candidates, ignore ASCII case.
    pub ignore_case: bool,
    /// The patterns.
    pub patterns: &'p [&'p [u8]],
}

/// The answers of a searcher.
#[derive(Drop)]
pub struct SearchOutcome {
    /// By [`Searcher::find_in`], in the span.
    pub found: Option<Match>,
    /// By [`Searcher::find_iter`], up to its first `None`.
    pub all: Vec<Match>,
    /// The steps of this iteration.
    pub counted: Tally,
}

/// The candidate of a prefilter, and the match that confirming by it finds.
#[derive(Drop)]
pub struct Confirmed {
    /// The answer of the prefilter for the span.
    pub candidate: Candidate,
    /// By [`confirm`](literal_prefilters::prefilter::confirm), in the span.
    pub found: Option<Match>,
}

/// Searches by a searcher, and proposes and confirms by a prefilter, if they are built: exactly if they suit the
/// patterns. Memory is requested only if the first pattern is not empty: otherwise none is kept.
pub fn together(
    alloc: Global,
    asked: &SearchRequest<'_>,
    haystack: &[u8],
    span: Span,
    tally: &mut Tally,
) -> Result<(Option<SearchOutcome>, Option<Confirmed>), AllocError>
    requires limit { IsPatternLimit asked.now.pattern_limit }
    requires serves { Serves asked.now.built_for asked.now.kind }
    requires valid { IsValidSpan haystack.now span }
    ensures built { IfOk result (λ both. IsSome both.0
        ↔ AreBuildable asked.now.pattern_limit (asked_query asked.now).patterns) }
    ensures leftmost { IfOk result (λ both. IfSome both.0 (λ searched.
        IsLeftmost (asked_query asked.now) false haystack.now span searched.found)) }
    ensures greedy { IfOk result (λ both. IfSome both.0 (λ searched.
        IsGreedy (asked_query asked.now) false haystack.now 0 searched.all.items)) }
    ensures iteration { IfOk result (λ both. IfSome both.0 (λ searched.
        IsIteration (asked_query asked.now) haystack.now searched.all.items searched.counted)) }
    ensures hashed { IfOk result (λ both. IfSome both.0 (λ searched. searched.counted.hashed ≤ length haystack.now)) }
    ensures picked { IfOk result (λ both. is_some both.1 ≡ is_some (pick (asked_builder asked.now))) }
    ensures sound { IfOk result (λ both. IfSome both.1 (λ confirmed.
        Sound (asked_query asked.now) asked.now.ignore_case haystack.now span confirmed.candidate)) }
    ensures answered { IfOk result (λ both. IfSome both.1 (λ confirmed.
        IsSomeAnd (pick (asked_builder asked.now)) (λ built. IsAnswer built haystack.now span confirmed.candidate))) }
    ensures confirmed { IfOk result (λ both. IfSome both.1 (λ confirmed.
        IsLeftmost (asked_query asked.now) asked.now.ignore_case haystack.now span confirmed.found)) }
    ensures scanned { tally.new.scanned ≤ tally.old.scanned + 255 * (span.end - span.start) }
    ensures no_memory { OnErr result (0 < length (pattern_at (asked_query asked.now).patterns 0)) }
{
    let searched = search(alloc, asked, haystack, span)?;
    let confirmed = propose_and_confirm(alloc, asked, haystack, span, tally)?;
    Ok((searched, confirmed))
}

fn search(
    alloc: Global,
    asked: &SearchRequest<'_>,
    haystack: &[u8],
    span: Span,
) -> Result<Option<SearchOutcome>, AllocError>
    requires limit { IsPatternLimit asked.now.pattern_limit }
    requires valid { IsValidSpan haystack.now span }
    ensures built { IfOk result (λ searched. IsSome searched
        ↔ AreBuildable asked.now.pattern_limit (asked_query asked.now).patterns) }
    ensures leftmost { IfOk result (λ searched. IfSome searched (λ s.
        IsLeftmost (asked_query asked.now) false haystack.now span s.found)) }
    ensures greedy { IfOk result (λ searched. IfSome searched (λ s.
        IsGreedy (asked_query asked.now) false haystack.now 0 s.all.items)) }
    ensures iteration { IfOk result (λ searched. IfSome searched (λ s.
        IsIteration (asked_query asked.now) haystack.now s.all.items s.counted)) }
    ensures hashed { IfOk result (λ searched. IfSome searched (λ s. s.counted.hashed ≤ length haystack.now)) }
    ensures no_memory { OnErr result (0 < length (pattern_at (asked_query asked.now).patterns 0)) }
{
    let Some(searcher) = build(alloc, asked)? else {
        return Ok(None);
    };
    let found = searcher.find_in(haystack, span);
    let (all, counted) = taken_in_turn(alloc, &searcher, haystack)?;
    Ok(Some(SearchOutcome {
        found,
        all,
        counted,
    }))
}

fn build(alloc: Global, asked: &SearchRequest<'_>) -> Result<Option<Searcher>, AllocError>
    requires { IsPatternLimit asked.now.pattern_limit }
    ensures built { IfOk result (λ built. IsSome built
        ↔ AreBuildable asked.now.pattern_limit (asked_query asked.now).patterns) }
    ensures same { IfOk result (λ built. IfSome built (λ searcher. searcher ≡ asked_query asked.now)) }
    ensures no_memory { OnErr result (0 < length (pattern_at (asked_query asked.now).patterns 0)) }
{
    lists_up_to_the_limit_build();
    let mut builder = Config::new()
        .match_kind(asked.kind)
        .pattern_limit(asked.pattern_limit)
        .builder(alloc);
    for bytes in asked.patterns {
        builder.add(bytes)?;
    }
    builder.build()
}

/// The matches that an iteration gives, and its steps.
fn taken_in_turn(
    alloc: Global,
    searcher: &Searcher,
    haystack: &[u8],
) -> Result<(Vec<Match>, Tally), AllocError>
    ensures greedy { IfOk result (λ taken. IsGreedy searcher.now false haystack.now 0 taken.0.items) }
    ensures iteration { IfOk result (λ taken. IsIteration searcher.now haystack.now taken.0.items taken.1) }
    ensures hashed { IfOk result (λ taken. taken.1.hashed ≤ length haystack.now) }
{
    next_is_bounded();
    let mut all = Vec::new(alloc);
    let mut matches = searcher.find_iter(haystack);
    while let Some(found) = matches.next() {
        all.push(found)?;
    }
    Ok((all, matches.into_tally()))
}

fn propose_and_confirm(
    alloc: Global,
    asked: &SearchRequest<'_>,
    haystack: &[u8],
    span: Span,
    tally: &mut Tally,
) -> Result<Option<Confirmed>, AllocError>
    requires serves { Serves asked.now.built_for asked.now.kind }
    requires valid { IsValidSpan haystack.now span }
    ensures picked { IfOk result (λ confirmed. is_some confirmed ≡ is_some (pick (asked_builder asked.now))) }
    ensures sound { IfOk result (λ confirmed. IfSome confirmed (λ c.
        Sound (asked_query asked.now) asked.now.ignore_case haystack.now span c.candidate)) }
    ensures answered { IfOk result (λ confirmed. IfSome confirmed (λ c.
        IsSomeAnd (pick (asked_builder asked.now)) (λ built. IsAnswer built haystack.now span c.candidate))) }
    ensures confirmed { IfOk result (λ confirmed. IfSome confirmed (λ c.
        IsLeftmost (asked_query asked.now) asked.now.ignore_case haystack.now span c.found)) }
    ensures scanned { tally.new.scanned ≤ tally.old.scanned + 255 * (span.end - span.start) }
    ensures no_memory { OnErr result (0 < length (pattern_at (asked_query asked.now).patterns 0)) }
{
    let Some(covered) = covered_patterns(alloc, asked)? else {
        return Ok(None);
    };
    let candidate = covered.prefilter.find_in(haystack, span);
    let found = confirm_covered(&covered, asked.ignore_case, haystack, span, tally);
    Ok(Some(Confirmed { candidate, found }))
}
