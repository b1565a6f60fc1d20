//! The searches compared with the plain one, on all short haystacks of a few bytes that collide in a search by sums.
//! One family has `a`, `b` and the grave accent, the byte before `a`. There, different texts of one length have equal
//! sums, such as `ab` and `b` with a grave accent. The other family has `!` and `a`, which are 64 apart, so all texts
//! of one length share a bucket.
use crate::asserted::{assert_holds, assert_same};
use crate::made::searcher;
use crate::plain::leftmost_plainly;
use crate::{automaton, confirming, exact, stepping};
use literal_prefilters::Span;
use literal_prefilters::packed::{MatchKind, Searcher};
use std::alloc::Global;
use std::process::Abort;
use std::test::Fail;

/// The bytes that patterns and haystacks are made of.
#[derive(Clone, Copy)]
enum Family {
    /// Different texts have equal sums.
    EqualSums,
    /// All texts share a bucket.
    OneBucket,
}

/// Up to three patterns each.
static LISTS: [(Family, &[&[u8]]); 18] = [
    (Family::EqualSums, &[b"ab"]),
    (Family::EqualSums, &[b"b`", b"ab"]),
    (Family::EqualSums, &[b"ab", b"b`", b"``"]),
    (Family::EqualSums, &[b"a", b"ab"]),
    (Family::EqualSums, &[b"ab", b"a", b"b"]),
    (Family::EqualSums, &[b"aa", b"aa"]),
    (Family::EqualSums, &[b"ab`", b"b`", b"abb"]),
    (Family::EqualSums, &[b"b", b"ab", b"aab"]),
    (Family::EqualSums, &[b"b``", b"ab`", b"`b"]),
    (Family::EqualSums, &[b"aba", b"bab", b"ba"]),
    (Family::OneBucket, &[b"a"]),
    (Family::OneBucket, &[b"!a", b"a!"]),
    (Family::OneBucket, &[b"aa!", b"a", b"!!"]),
    (Family::OneBucket, &[b"!", b"!a", b"!a!"]),
    (Family::OneBucket, &[b"!a!a", b"a!a", b"!a"]),
    (Family::OneBucket, &[b"aaaa", b"aaa", b"aaaaa"]),
    (Family::OneBucket, &[b"a!!a!a", b"!!a", b"!!a"]),
    (Family::OneBucket, &[b"!!!a", b"!!!", b"a!!!"]),
];

/// The bytes of a haystack, from the digits of its number.
fn bytes_of(family: Family, number: usize) -> [u8; 6] {
    match family {
        Family::EqualSums => {
            let digits = b"ab`";
            [
                digits[number % 3],
                digits[number / 3 % 3],
                digits[number / 9 % 3],
                digits[number / 27 % 3],
                digits[number / 81 % 3],
                digits[number / 243 % 3],
            ]
        }
        Family::OneBucket => {
            let digits = b"!a";
            [
                digits[number % 2],
                digits[number / 2 % 2],
                digits[number / 4 % 2],
                digits[number / 8 % 2],
                digits[number / 16 % 2],
                digits[number / 32 % 2],
            ]
        }
    }
}

/// The lengths of the haystacks, and how many there are of each length.
fn sizes_of(family: Family) -> &'static [(usize, usize)] {
    match family {
        Family::EqualSums => &[(0, 1), (1, 3), (2, 9), (3, 27), (4, 81)],
        Family::OneBucket => &[(0, 1), (1, 2), (2, 4), (3, 8), (4, 16), (5, 32), (6, 64)],
    }
}

/// Compares in a span of a haystack.
fn compare_at(
    rt: &impl Abort,
    searcher: &Searcher,
    (patterns, kind): (&[&[u8]], MatchKind),
    haystack: &[u8],
    span: Span,
) {
    let is_meant = patterns.len() <= 3 && span.start <= span.end && span.end <= haystack.len();
    assert_holds(rt, is_meant, "no such case is meant");
    let wanted = leftmost_plainly(patterns, kind, false, haystack, span);
    let note = format_args!("{patterns:?} on {haystack:?} in {span:?}");
    assert_same(rt, searcher.find_in(haystack, span), wanted, note);
}

/// Compares in all spans of a haystack, and returns their number.
fn compare_in(
    rt: &impl Abort,
    searcher: &Searcher,
    of: (&[&[u8]], MatchKind),
    haystack: &[u8],
) -> u32 {
    let mut spans: u32 = 0;
    for end in 0..haystack.len() + 1 {
        for start in 0..end + 1 {
            compare_at(rt, searcher, of, haystack, Span { start, end });
            spans = spans.wrapping_add(1);
        }
    }
    spans
}

/// Compares in all haystacks of a family, and returns the number of their spans.
fn compare(rt: &impl Abort, searcher: &Searcher, family: Family, of: (&[&[u8]], MatchKind)) -> u32 {
    let mut cases: u32 = 0;
    for (len, count) in sizes_of(family) {
        assert!(rt; *len <= 6);
        for number in 0..*count {
            let bytes = bytes_of(family, number);
            let spans = compare_in(rt, searcher, of, &bytes[..*len]);
            cases = cases.wrapping_add(spans);
        }
    }
    cases
}

/// Compares for a list of patterns and a match kind.
fn assert_list(
    rt: &impl Abort,
    alloc: Global,
    kind: MatchKind,
    (family, patterns): &(Family, &[&[u8]]),
) -> Result<(), Fail> {
    let wanted = match family {
        Family::EqualSums => 1549,
        Family::OneBucket => 2815,
    };
    let searcher = searcher(alloc, kind, patterns)?;
    let cases = compare(rt, &searcher, *family, (patterns, kind));
    assert_same(rt, cases, wanted, format_args!("{patterns:?}"));
    Ok(())
}

/// Both match kinds of a list, then prefilters, exact ones, confirming searches, and the automaton.
#[test]
fn finds_what_is_found_plainly(rt: HostRuntime) -> Result<(), Fail> {
    for list in &LISTS {
        assert_list(&rt, rt.alloc(), MatchKind::LeftmostFirst, list)?;
        assert_list(&rt, rt.alloc(), MatchKind::LeftmostLongest, list)?;
    }
    stepping::assert_lists(&rt, rt.alloc())?;
    exact::assert_lists(&rt, rt.alloc())?;
    confirming::assert_lists(&rt, rt.alloc())?;
    automaton::assert_lists(&rt, rt.alloc())
}
