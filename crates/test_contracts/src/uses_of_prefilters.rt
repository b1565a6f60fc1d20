//! Callers of prefilters that rely only on contracts.
ghost use Rattle.std.specs.Prelude.{◌≡◌, ◌≤◌, ℕ, Bool, MatchOption, IfOk, IfSome, is_some};
ghost use Rattle.literal_base.specs.declared.packed.MatchKind.{MatchKind};
ghost use Rattle.literal_base.specs.Occurs.{IsValidSpan, Occurs, NothingOccurs};
ghost use Rattle.literal_base.specs.Query.{Query};
ghost use Rattle.literal_packed.specs.State.{kept_of};
ghost use Rattle.literal_prefilters.specs.Choice.{Serves, pick};
ghost use Rattle.literal_prefilters.specs.Sound.{Sound};

use literal_prefilters::Span;
use literal_prefilters::count::Tally;
use literal_prefilters::prefilter::{Builder, Candidate, PrefilterI};
use std::alloc::AllocError;

/// The offset from which the span has to be searched, by a prefilter of any kind: no occurrence of a covered pattern
/// begins before it. If there is no such offset, none occurs.
pub fn search_from<P: PrefilterI>(
    pre: &P,
    haystack: &[u8],
    span: Span,
    tally: &mut Tally,
) -> Option<usize>
    requires { IsValidSpan haystack.now span }
    ensures { (query : Query) (ignore_case : Bool)
        → P.covers pre.now query ignore_case
        → MatchOption result
        (NothingOccurs query.patterns ignore_case haystack.now span)
        (λ start. (i at : ℕ) → Occurs query.patterns ignore_case haystack.now span i at → start ≤ at) }
{
    pre.find_in(haystack, span, tally).into_option()
}

/// The candidate of a builder's prefilter in a span. It passes over no occurrence of the builder's patterns, for each
/// match kind that it serves. `None` exactly if no prefilter suits them.
pub fn candidate_of(
    builder: &Builder,
    haystack: &[u8],
    span: Span,
) -> Result<Option<Candidate>, AllocError>
    requires { IsValidSpan haystack.now span }
    ensures sound { IfOk result (λ answer. IfSome answer (λ candidate. (kind : MatchKind)
        → Serves builder.now.kind kind
        → Sound (record { kind = kind; patterns = kept_of builder.now.state }) builder.now.ignore_case haystack.now span
        candidate)) }
    ensures picked { IfOk result (λ answer. is_some answer ≡ is_some (pick builder.now)) }
{
    match builder.build()? {
        Some(pre) => Ok(Some(pre.find_in(haystack, span))),
        None => Ok(None),
    }
}
