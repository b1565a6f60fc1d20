//! The plain search: it tries every pattern at every offset of the span, from its start. It shares only the definitions
//! with the searches that are compared with it.
ghost use Rattle.std.specs.Prelude.{◌≡◌, ◌+◌, ◌<◌, ◌≤◌, ◌⊎◌, ◌↔◌, length, map, Some, IsTrue};
ghost use Rattle.literal_base.specs.Occurs.{Occurs, AreEqualBytes, IsValidSpan, pattern_at};
ghost use Rattle.literal_base.specs.Leftmost.{IsBetter, IsLeftmost};
ghost use Rattle.test_compared.specs.Best.{IsBestIfAny};

use literal_prefilters::packed::MatchKind;
use literal_prefilters::{Match, PatternID, Span};

/// The bytes of a pattern.
fn pattern<'a>(patterns: &[&'a [u8]], i: usize) -> &'a [u8]
    requires { i < length patterns.now }
    ensures { result.now ≡ pattern_at (map (λ p. p.now) patterns.now) i }
{
    patterns[i]
}

/// Whether two texts are equal.
fn is_same(a: &[u8], b: &[u8], ignore_case: bool) -> bool
    ensures { IsTrue result ↔ AreEqualBytes ignore_case a.now b.now }
{
    if ignore_case {
        a.eq_ignore_ascii_case(b)
    } else {
        a == b
    }
}

/// Whether a pattern occurs at an offset of the span.
pub fn occurs(
    patterns: &[&[u8]],
    ignore_case: bool,
    haystack: &[u8],
    span: Span,
    i: usize,
    at: usize,
) -> bool
    requires is_pattern { i < length patterns.now }
    requires valid { IsValidSpan haystack.now span }
    requires after_start { span.start ≤ at }
    requires before_end { at ≤ span.end }
    ensures { IsTrue result ↔ Occurs (map (λ p. p.now) patterns.now) ignore_case haystack.now span i at }
{
    let bytes = pattern(patterns, i);
    if bytes.len() > span.end - at {
        return false;
    }
    is_same(&haystack[at..at + bytes.len()], bytes, ignore_case)
}

/// The preferred one of two patterns that occur at one offset.
fn better_of(patterns: &[&[u8]], kind: MatchKind, earlier: usize, later: usize) -> usize
    requires earlier { earlier < later }
    requires later { later < length patterns.now }
    ensures { ((result ≡ earlier) × IsBetter kind (map (λ p. p.now) patterns.now) earlier later)
        ⊎ ((result ≡ later) × IsBetter kind (map (λ p. p.now) patterns.now) later earlier) }
{
    match kind {
        MatchKind::LeftmostFirst => earlier,
        MatchKind::LeftmostLongest => {
            if pattern(patterns, later).len() > pattern(patterns, earlier).len() {
                later
            } else {
                earlier
            }
        }
    }
}

/// The preferred one of the patterns that occur at an offset.
fn best_at(
    patterns: &[&[u8]],
    kind: MatchKind,
    ignore_case: bool,
    haystack: &[u8],
    span: Span,
    at: usize,
) -> Option<usize>
    requires valid { IsValidSpan haystack.now span }
    requires after_start { span.start ≤ at }
    requires before_end { at ≤ span.end }
    ensures { IsBestIfAny (record { kind = kind; patterns = map (λ p. p.now) patterns.now }) ignore_case haystack.now
        span at (length patterns.now) result }
{
    let mut best = None;
    for i in 0..patterns.len() {
        if occurs(patterns, ignore_case, haystack, span, i, at) {
            best = match best {
                None => Some(i),
                Some(kept) => Some(better_of(patterns, kind, kept, i)),
            };
        }
    }
    best
}

/// The leftmost match in a span of the haystack. The patterns are numbered in the order of the slice. If `ignore_case`
/// is set, both cases of an ASCII letter are equal. The span has to be valid. There may be at most [`PatternID::LIMIT`]
/// patterns; they may be empty.
pub fn leftmost_plainly(
    patterns: &[&[u8]],
    kind: MatchKind,
    ignore_case: bool,
    haystack: &[u8],
    span: Span,
) -> Option<Match>
    requires numbered { length patterns.now ≤ PatternID.LIMIT }
    requires valid { IsValidSpan haystack.now span }
    ensures { IsLeftmost (record { kind = kind; patterns = map (λ p. p.now) patterns.now }) ignore_case haystack.now
        span result }
{
    for at in span.start..span.end + 1 {
        if let Some(i) = best_at(patterns, kind, ignore_case, haystack, span, at) {
            let end = at + pattern(patterns, i).len();
            return Some(Match::new(PatternID::must(i), Span { start: at, end }));
        }
    }
    None
}
