//! Patterns with a prefilter that covers them, and confirming by it.
ghost use Rattle.std.specs.Prelude.{◌≡◌, ◌<◌, ◌≤◌, ◌+◌, ◌-◌, ◌*◌, IfOk, IfSome, OnErr, length, map, option_map};
ghost use Rattle.literal_base.specs.Leftmost.{IsLeftmost};
ghost use Rattle.literal_base.specs.Occurs.{IsValidSpan, NoneIsEmpty, pattern_at};
ghost use Rattle.literal_packed.specs.PatternsValue.{query_of};
ghost use Rattle.literal_prefilters.specs.Choice.{IsBuiltFor, Serves, pick};
ghost use Rattle.literal_promise.specs.Together.{IsCovered, asked_builder, asked_query};

use crate::SearchRequest;
use literal_prefilters::count::Tally;
use literal_prefilters::laws::prefilters_reach_254_bytes;
use literal_prefilters::packed::laws::lists_up_to_the_limit_build;
use literal_prefilters::packed::pattern::Patterns;
use literal_prefilters::prefilter::{Builder, Prefilter, confirm};
use literal_prefilters::{Match, PatternID, Span};
use std::alloc::{AllocError, Global};

/// Patterns, and a prefilter for them.
#[derive(Drop)]
pub struct Covered {
    pub patterns: Patterns,
    pub prefilter: Prefilter,
}

/// Patterns in match order, and a prefilter that covers them for their match kind. It is `None` exactly if no prefilter
/// suits them. Memory is requested only if the first pattern is not empty: otherwise none is kept.
pub fn covered_patterns(
    alloc: Global,
    asked: &SearchRequest<'_>,
) -> Result<Option<Covered>, AllocError>
    requires { Serves asked.now.built_for asked.now.kind }
    ensures covered { IfOk result (λ made. IfSome made (λ covered.
        (query_of covered.patterns ≡ asked_query asked.now)
        × IsCovered asked.now.ignore_case covered.patterns covered.prefilter)) }
    ensures picked { IfOk result (λ made.
        option_map (λ covered. covered.prefilter) made ≡ pick (asked_builder asked.now)) }
    ensures no_memory { OnErr result (0 < length (pattern_at (asked_query asked.now).patterns 0)) }
{
    lists_up_to_the_limit_build();
    let Some(prefilter) = prefilter_for(alloc, asked)? else {
        return Ok(None);
    };
    let mut patterns = patterns_of(alloc, asked.patterns)?;
    patterns.set_match_kind(asked.kind)?;
    Ok(Some(Covered {
        patterns,
        prefilter,
    }))
}

fn prefilter_for(alloc: Global, asked: &SearchRequest<'_>) -> Result<Option<Prefilter>, AllocError>
    ensures picked { IfOk result (λ built. built ≡ pick (asked_builder asked.now)) }
    ensures covers { IfOk result (λ built. IfSome built (IsBuiltFor (asked_builder asked.now))) }
    ensures no_memory { OnErr result (0 < length (pattern_at (asked_query asked.now).patterns 0)) }
{
    let mut builder = Builder::new(alloc, asked.built_for).ascii_case_insensitive(
        asked.ignore_case,
    );
    for bytes in asked.patterns {
        builder.add(bytes)?;
    }
    builder.build()
}

fn patterns_of(alloc: Global, list: &[&[u8]]) -> Result<Patterns, AllocError>
    requires few { length list.now ≤ PatternID.LIMIT }
    requires not_empty { NoneIsEmpty (map (λ p. p.now) list.now) }
    ensures { IfOk result (λ patterns. patterns.patterns ≡ map (λ p. p.now) list.now) }
{
    let mut patterns = Patterns::new(alloc);
    for bytes in list {
        patterns.add(bytes)?;
    }
    Ok(patterns)
}

/// The leftmost match in a span, confirmed by the prefilter of the patterns. It scans at most 255 bytes for each byte
/// of the span.
pub fn confirm_covered(
    covered: &Covered,
    ignore_case: bool,
    haystack: &[u8],
    span: Span,
    tally: &mut Tally,
) -> Option<Match>
    requires covered { IsCovered ignore_case covered.now.patterns covered.now.prefilter }
    requires valid { IsValidSpan haystack.now span }
    ensures leftmost { IsLeftmost (query_of covered.now.patterns) ignore_case haystack.now span result }
    ensures scanned { tally.new.scanned ≤ tally.old.scanned + 255 * (span.end - span.start) }
{
    prefilters_reach_254_bytes(&covered.prefilter);
    confirm(
        &covered.prefilter,
        &covered.patterns,
        ignore_case,
        haystack,
        span,
        tally,
    )
}
