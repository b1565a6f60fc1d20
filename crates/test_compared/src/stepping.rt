//! The offsets that prefilters propose, compared with those of a plain search.
use crate::asserted::{assert_holds, assert_same};
use crate::made::{SPANS, bytes_of, prefilter};
use crate::plain::leftmost_plainly;
use crate::steps::step_plainly;
use literal_prefilters::packed::pattern::Patterns;
use literal_prefilters::prefilter::{ByteTable, Candidate, Prefilter};
use literal_prefilters::{MatchKind, Span, packed};
use std::alloc::Global;
use std::process::Abort;
use std::test::Fail;

/// Up to three patterns each, whether case is ignored, and whether the start table is tested.
static LISTS: [(&[&[u8]], bool, bool); 12] = [
    (&[b"ab", b"aab"], false, true),
    (&[b"a", b"bb"], false, true),
    (&[b"ba", b"ab"], false, false),
    (&[b"ca", b"bbc"], false, false),
    (&[b"a", b"b", b"c"], false, true),
    (&[b"aKb", b"bbK"], false, false),
    (&[b"bK", b"aaK", b"cK"], false, false),
    (&[b"aaQ", b"bK", b"cbQ"], false, false),
    (&[b"aaQ", b"bK", b"cZ"], false, false),
    (&[b"ab"], true, false),
    (&[b"aK", b"bck"], true, false),
    (&[b"Kab", b"cck", b"K"], true, false),
];

/// Compares in a span: the proposed offset, and that no occurrence begins before it.
fn compare_in(
    pre: &Prefilter,
    table: &ByteTable,
    list: (&[&[u8]], bool),
    haystack: &[u8],
    span: Span,
) -> bool {
    if list.0.len() > 3 || span.start > span.end || span.end > haystack.len() {
        return false;
    }
    let first = packed::MatchKind::LeftmostFirst;
    let found = leftmost_plainly(list.0, first, list.1, haystack, span);
    match (
        pre.find_in(haystack, span),
        step_plainly(table, haystack, span),
    ) {
        (Candidate::None, None) => found.is_none(),
        (Candidate::PossibleStartOfMatch(start), Some(wanted)) => {
            start == wanted && found.is_none_or(|it| start <= it.start())
        }
        _ => false,
    }
}

/// Compares in some spans of all haystacks of five bytes, and returns the number of haystacks.
fn compare(rt: &impl Abort, pre: &Prefilter, table: &ByteTable, list: (&[&[u8]], bool)) -> u32 {
    let mut spans: u32 = 0;
    for number in 0..3125 {
        let haystack = bytes_of(number);
        for (start, end) in SPANS {
            let span = Span { start, end };
            let is_same = compare_in(pre, table, list, &haystack, span);
            let note = format_args!("{list:?}: {haystack:?} in {span:?}");
            assert_holds(rt, is_same, note);
            spans = spans.wrapping_add(1);
        }
    }
    spans
}

/// The table of a list, the start table or the rare one.
fn table_of(
    alloc: Global,
    list: &[&[u8]],
    ignore_case: bool,
    is_start: bool,
) -> Result<ByteTable, Fail> {
    let mut patterns = Patterns::new(alloc);
    for bytes in list {
        if bytes.is_empty() || patterns.len() >= 3 {
            return Err("no such list is meant".into());
        }
        patterns.add(bytes)?;
    }
    let table = if is_start {
        ByteTable::start(&patterns, ignore_case)
    } else {
        ByteTable::rare(&patterns, ignore_case)
    };
    Ok(table.ok_or("there is no table")?)
}

/// Compares for a list of patterns.
fn assert_list(
    rt: &impl Abort,
    alloc: Global,
    (list, ignore_case, is_start): &(&[&[u8]], bool, bool),
) -> Result<(), Fail> {
    let table = table_of(alloc, list, *ignore_case, *is_start)?;
    let pre = prefilter(alloc, MatchKind::Standard, *ignore_case, list)?;
    let cases = compare(rt, &pre, &table, (list, *ignore_case));
    assert_same(rt, cases, 15625, format_args!("{list:?}"));
    Ok(())
}

/// Compares for all lists.
pub fn assert_lists(rt: &impl Abort, alloc: Global) -> Result<(), Fail> {
    for list in &LISTS {
        assert_list(rt, alloc, list)?;
    }
    Ok(())
}
