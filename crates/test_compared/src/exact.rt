//! Exact prefilters compared with the plain search.
use crate::asserted::assert_same;
use crate::made::{Answer, SPANS, answer_of, bytes_of, place, prefilter};
use crate::plain::leftmost_plainly;
use MatchKind::{LeftmostFirst, LeftmostLongest};
use literal_prefilters::prefilter::Prefilter;
use literal_prefilters::{MatchKind, Span, packed};
use std::alloc::Global;
use std::process::Abort;
use std::test::Fail;

/// Patterns with exact prefilters.
static EXACT: [&[&[u8]]; 4] = [
    &[b"ab"],
    &[b"aba"],
    &[b"aK", b"bQ", b"cb"],
    &[b"a", b"ab", b"bb", b"c", b"KK"],
];

/// The answer of the plain search in a span of a haystack of five bytes.
fn plainly(patterns: &[&[u8]], kind: packed::MatchKind, haystack: &[u8; 5], span: Span) -> Answer {
    if patterns.len() > 5 || span.start > span.end || span.end > 5 {
        return Answer::Start(0); // (no list or span is like this, and no exact prefilter gives this answer)
    }
    match leftmost_plainly(patterns, kind, false, haystack, span) {
        Some(found) => Answer::Found(place(found)),
        None => Answer::Nothing,
    }
}

/// Compares in some spans of all haystacks of five bytes, and returns the number of haystacks.
fn compare(rt: &impl Abort, pre: &Prefilter, patterns: &[&[u8]], kind: packed::MatchKind) -> u32 {
    let mut spans: u32 = 0;
    for number in 0..3125 {
        let haystack = bytes_of(number);
        for (start, end) in SPANS {
            let span = Span { start, end };
            let wanted = plainly(patterns, kind, &haystack, span);
            let found = answer_of(pre.find_in(&haystack, span));
            let note = format_args!("{patterns:?}: {haystack:?} in {span:?}");
            assert_same(rt, found, wanted, note);
            spans = spans.wrapping_add(1);
        }
    }
    spans
}

/// Compares for a list of patterns and a kind of match.
fn assert_list(
    rt: &impl Abort,
    alloc: Global,
    patterns: &[&[u8]],
    kind: MatchKind,
) -> Result<(), Fail> {
    let as_packed = kind.as_packed().ok_or("no leftmost kind")?;
    let pre = prefilter(alloc, kind, false, patterns)?;
    let spans = compare(rt, &pre, patterns, as_packed);
    assert_same(rt, spans, 15625, format_args!("{patterns:?}"));
    Ok(())
}

/// Compares for all lists.
pub fn assert_lists(rt: &impl Abort, alloc: Global) -> Result<(), Fail> {
    for patterns in &EXACT {
        assert_list(rt, alloc, patterns, LeftmostFirst)?;
        assert_list(rt, alloc, patterns, LeftmostLongest)?;
    }
    Ok(())
}
