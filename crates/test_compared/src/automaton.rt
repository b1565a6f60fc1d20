//! The automaton compared with the plain search.
ghost use Rattle.literal_base.specs.Occurs.{IsValidSpan};

use crate::asserted::{assert_holds, assert_same};
use crate::made::{Place, SPANS, place};
use crate::plain::leftmost_plainly;
use MatchKind::{LeftmostFirst, LeftmostLongest};
use literal_search::{Match, MatchKind, Search, Span};
use std::alloc::Global;
use std::process::Abort;
use std::test::Fail;

/// Patterns within others, a pattern given twice, letters next to bytes that are no letters, and no pattern.
pub static LISTS: [&[&[u8]]; 9] = [
    &[],
    &[b"a"],
    &[b"A", b"@A", b"[a", b"a`", b"{"],
    &[b"\x80a", b"\xFFA", b"a\xFF"],
    &[b"aA@", b"A@", b"A", b"@"],
    &[b"[", b"a[", b"aa[A", b"a"],
    &[b"a`a", b"a`a", b"`", b"`A"],
    &[b"{{a", b"{a{", b"a{a", b"{"],
    &[b"aAaAa", b"AaA", b"aa", b"Aa\xFF"],
];

/// A haystack of five bytes, with the digits of a number below 625. The last byte is an `a`.
pub fn bytes_of(digits: &[u8; 5], number: usize) -> [u8; 5] {
    [
        digits[number % 5],
        digits[number / 5 % 5],
        digits[number / 25 % 5],
        digits[number / 125 % 5],
        b'a',
    ]
}

/// The answer of the plain search in a span of a haystack of five bytes.
fn plainly(
    patterns: &[&[u8]],
    kind: MatchKind,
    ignore_case: bool,
    haystack: &[u8],
    span: Span,
) -> Option<Place>
    requires { IsValidSpan haystack.now span }
{
    if patterns.len() > 5 {
        return None;
    }
    leftmost_plainly(patterns, kind, ignore_case, haystack, span).map(place)
}

/// Compares in some spans of a haystack.
fn compare_in(
    rt: &impl Abort,
    search: &Search,
    (list, kind, ignore_case): (&[&[u8]], MatchKind, bool),
    haystack: &[u8; 5],
) {
    for (start, end) in SPANS {
        assert_holds(rt, start <= end && end <= 5, "a span");
        let span = Span { start, end };
        let wanted = plainly(list, kind, ignore_case, haystack, span);
        let found = search.find_in(haystack, span).map(place);
        let note = format_args!("{list:?}: {haystack:?} in {span:?}");
        assert_same(rt, found, wanted, note);
    }
}

/// The list of all matches is that of the plain search, each after the previous one.
fn compare_all(
    rt: &impl Abort,
    (list, kind, ignore_case): (&[&[u8]], MatchKind, bool),
    haystack: &[u8; 5],
    all: &[Match],
) {
    let mut start = 0;
    for found in all {
        assert_holds(rt, start <= 5, "behind the end");
        let wanted = plainly(list, kind, ignore_case, haystack, Span { start, end: 5 });
        let note = format_args!("{list:?}: {haystack:?} from {start}");
        assert_same(rt, Some(place(*found)), wanted, note);
        start = found.end();
    }
    assert_holds(rt, start <= 5, "behind the end");
    let last = plainly(list, kind, ignore_case, haystack, Span { start, end: 5 });
    assert_same(
        rt,
        None,
        last,
        format_args!("{list:?}: {haystack:?} from {start}"),
    );
}

/// Compares on all these haystacks, and returns how many there are.
fn compare(
    rt: &impl Abort,
    search: &Search,
    of: (&[&[u8]], MatchKind, bool),
    digits: &[u8; 5],
) -> Result<u32, Fail> {
    let mut haystacks: u32 = 0;
    for number in 0..625 {
        let haystack = bytes_of(digits, number);
        compare_in(rt, search, of, &haystack);
        let all = search.find_all(&haystack)?;
        compare_all(rt, of, &haystack, all.as_slice());
        haystacks = haystacks.wrapping_add(1);
    }
    Ok(haystacks)
}

/// Compares for a list of patterns and a kind of match.
fn assert_list(
    rt: &impl Abort,
    alloc: Global,
    (list, kind, ignore_case): (&[&[u8]], MatchKind, bool),
) -> Result<(), Fail> {
    let search = Search::new(alloc, kind, ignore_case, list.iter().copied())?;
    for digits in [b"aA@[`", b"aA{\x80\xFF"] {
        let haystacks = compare(rt, &search, (list, kind, ignore_case), digits)?;
        assert_same(rt, haystacks, 625, format_args!("{list:?}"));
    }
    Ok(())
}

/// Compares for all lists.
pub fn assert_lists(rt: &impl Abort, alloc: Global) -> Result<(), Fail> {
    for list in &LISTS {
        for kind in [LeftmostFirst, LeftmostLongest] {
            assert_list(rt, alloc, (*list, kind, false))?;
            assert_list(rt, alloc, (*list, kind, true))?;
        }
    }
    Ok(())
}
