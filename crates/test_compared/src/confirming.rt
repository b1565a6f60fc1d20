//! Both confirming searches compared with the plain search.
ghost use Rattle.literal_base.specs.Occurs.{IsValidSpan};
ghost use Rattle.literal_promise.specs.Together.{IsCovered};

use crate::asserted::{assert_holds, assert_same};
use crate::made::{Place, SPANS, bytes_of, confirming_search, covered, place};
use crate::plain::leftmost_plainly;
use MatchKind::{LeftmostFirst, LeftmostLongest};
use literal_prefilters::Span;
use literal_prefilters::count::Tally;
use literal_prefilters::packed::MatchKind;
use literal_prefilters::prefilter::ConfirmingSearch;
use literal_promise::covered::{Covered, confirm_covered};
use std::alloc::Global;
use std::process::Abort;
use std::test::Fail;

/// Patterns whose bytes share tables, and whether case is ignored.
static LISTS: [(&[&[u8]], bool); 8] = [
    (&[b"ab", b"aab"], false),
    (&[b"ca", b"bbc"], false),
    (&[b"aKb", b"bbK"], false),
    (&[b"aaQ", b"bK", b"cZ"], false),
    (&[b"ab"], true),
    (&[b"aK", b"bck"], true),
    (&[b"Kab", b"cck", b"K"], true),
    (&[b"a", b"ab", b"bb", b"c", b"KK"], false),
];

/// The answer of the plain search in a span of a haystack of five bytes.
fn plainly(
    patterns: &[&[u8]],
    kind: MatchKind,
    ignore_case: bool,
    haystack: &[u8; 5],
    span: Span,
) -> Option<Place>
    requires { IsValidSpan haystack.now span }
{
    if patterns.len() > 5 {
        return None;
    }
    leftmost_plainly(patterns, kind, ignore_case, haystack, span).map(place)
}

/// Compares in some spans of all haystacks of five bytes, and returns the number of haystacks.
fn compare(
    rt: &impl Abort,
    search: &ConfirmingSearch,
    list: &[&[u8]],
    kind: MatchKind,
    ignore_case: bool,
) -> u32 {
    let mut spans: u32 = 0;
    for number in 0..3125 {
        let haystack = bytes_of(number);
        for (start, end) in SPANS {
            assert_holds(rt, start <= end && end <= 5, "a span");
            let span = Span { start, end };
            let wanted = plainly(list, kind, ignore_case, &haystack, span);
            let found = search.find_in(&haystack, span).map(place);
            let note = format_args!("{list:?}: {haystack:?} in {span:?}");
            assert_same(rt, found, wanted, note);
            spans = spans.wrapping_add(1);
        }
    }
    spans
}

/// The same for confirming by a prefilter of any kind.
fn compare_covered(
    rt: &impl Abort,
    covered: &Covered,
    list: &[&[u8]],
    kind: MatchKind,
    ignore_case: bool,
) -> u32
    requires { IsCovered ignore_case covered.now.patterns covered.now.prefilter }
{
    let mut spans: u32 = 0;
    for number in 0..3125 {
        let haystack = bytes_of(number);
        for (start, end) in SPANS {
            assert_holds(rt, start <= end && end <= 5, "a span");
            let span = Span { start, end };
            let wanted = plainly(list, kind, ignore_case, &haystack, span);
            let tally = &mut Tally::new();
            let found = confirm_covered(covered, ignore_case, &haystack, span, tally).map(place);
            let note = format_args!("{list:?}: {haystack:?} in {span:?}");
            assert_same(rt, found, wanted, note);
            spans = spans.wrapping_add(1);
        }
    }
    spans
}

/// Compares for a list of patterns and a kind of match.
fn assert_list(
    rt: &impl Abort,
    alloc: Global,
    (list, ignore_case): (&[&[u8]], bool),
    kind: MatchKind,
) -> Result<(), Fail> {
    let search = confirming_search(alloc, kind, ignore_case, list)?;
    let spans = compare(rt, &search, list, kind, ignore_case);
    assert_same(rt, spans, 15625, format_args!("{list:?}"));
    Ok(())
}

/// The same for confirming by a prefilter of any kind.
fn assert_covered_list(
    rt: &impl Abort,
    alloc: Global,
    (list, ignore_case): (&[&[u8]], bool),
    kind: MatchKind,
) -> Result<(), Fail> {
    let covered = covered(alloc, kind, ignore_case, list)?;
    let spans = compare_covered(rt, &covered, list, kind, ignore_case);
    assert_same(rt, spans, 15625, format_args!("{list:?}"));
    Ok(())
}

/// Compares for all lists.
pub fn assert_lists(rt: &impl Abort, alloc: Global) -> Result<(), Fail> {
    for list in &LISTS {
        for kind in [LeftmostFirst, LeftmostLongest] {
            assert_list(rt, alloc, *list, kind)?;
            assert_covered_list(rt, alloc, *list, kind)?;
        }
    }
    Ok(())
}
