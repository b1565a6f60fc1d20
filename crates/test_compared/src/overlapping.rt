//! The search for every occurrence, and for the earliest end, compared with plain searches.
ghost use Rattle.literal_base.specs.Occurs.{IsValidSpan};

use crate::asserted::{assert_holds, assert_same};
use crate::automaton::{LISTS, bytes_of};
use crate::made::place;
use crate::plain::occurs;
use literal_search::{Overlapping, Span};
use std::alloc::Global;
use std::process::Abort;
use std::test::Fail;

/// The whole of a haystack of five bytes, and its middle.
static SPANS: [(usize, usize); 2] = [(0, 5), (1, 4)];

/// Patterns, and the searches for them.
#[derive(Clone, Copy)]
struct Compared<'c> {
    list: &'static [&'static [u8]],
    ignore_case: bool,
    all: &'c Overlapping,
}

/// Whether a pattern that occurs whole in a span ends at an offset.
fn ends_plainly(of: Compared<'_>, haystack: &[u8], span: Span, pattern: usize, end: usize) -> bool
    requires { IsValidSpan haystack.now span }
{
    if pattern >= of.list.len() {
        return false;
    }
    let size = of.list[pattern].len();
    if end > span.end || size > end || end - size < span.start {
        return false;
    }
    occurs(of.list, of.ignore_case, haystack, span, pattern, end - size)
}

/// Compares in a span: at each offset, in order, each pattern that ends there.
fn compare_in(rt: &impl Abort, of: Compared<'_>, haystack: &[u8], span: Span)
    requires { IsValidSpan haystack.now span }
{
    let list = of.list;
    let mut matches = of.all.find_overlapping_in(haystack, span);
    let mut earliest = None;
    for end in 0..6usize {
        for pattern in 0..list.len() {
            if ends_plainly(of, haystack, span, pattern, end) {
                let wanted = (pattern, end.saturating_sub(list[pattern].len()), end);
                let note = format_args!("{list:?}: {haystack:?} in {span:?}");
                assert_same(rt, matches.next().map(place), Some(wanted), note);
                earliest = earliest.or(Some(end));
            }
        }
    }
    assert_holds(rt, matches.next().is_none(), "more than occurs");
    let note = format_args!("{list:?}: the earliest end in {haystack:?}, {span:?}");
    assert_same(rt, of.all.earliest_end(haystack, span), earliest, note);
}

/// Compares in some spans of all these haystacks, and returns their number.
fn compare(rt: &impl Abort, of: Compared<'_>, digits: &[u8; 5]) -> u32 {
    let mut haystacks: u32 = 0;
    for number in 0..625 {
        let haystack = bytes_of(digits, number);
        for (start, end) in &SPANS {
            let span = Span {
                start: *start,
                end: *end,
            };
            assert_holds(rt, span.start <= span.end && span.end <= 5, "a span");
            compare_in(rt, of, &haystack, span);
        }
        haystacks = haystacks.wrapping_add(1);
    }
    haystacks
}

/// Compares for a list of patterns.
fn assert_list(
    rt: &impl Abort,
    alloc: Global,
    list: &'static [&'static [u8]],
    ignore_case: bool,
) -> Result<(), Fail> {
    let all = Overlapping::new(alloc, ignore_case, list.iter().copied())?;
    let of = Compared {
        list,
        ignore_case,
        all: &all,
    };
    for digits in [b"aA@[`", b"aA{\x80\xFF"] {
        assert_same(rt, compare(rt, of, digits), 625, format_args!("{list:?}"));
    }
    Ok(())
}

#[test]
fn finds_all_that_occurs(rt: HostRuntime) -> Result<(), Fail> {
    for list in &LISTS {
        assert_list(&rt, rt.alloc(), *list, false)?;
        assert_list(&rt, rt.alloc(), *list, true)?;
    }
    Ok(())
}
