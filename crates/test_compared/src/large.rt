//! A long pattern, many patterns, and long haystacks. The time of each search is bounded by the counts in its contract.
ghost use Rattle.std.specs.Prelude.{◌+◌, ◌<◌, ◌≤◌};
ghost use Rattle.literal_search.specs.SearchValue.{longest_of};

use crate::asserted::assert_same;
use crate::chosen::assert_confirms;
use crate::made::{place, searcher};
use literal_prefilters::packed::MatchKind;
use literal_search::{Match, Search, Span, Tally};
use std::alloc::{AllocError, Global};
use std::process::Abort;
use std::test::Fail;

/// 99,999 times `a`, and then `b`.
fn long_pattern(alloc: Global) -> Result<Vec<u8>, AllocError> {
    let mut pattern = vec![in alloc; b'a'; 99_999]?;
    pattern.push(b'b')?;
    Ok(pattern)
}

/// An `x`, followed by the pattern.
fn behind_x(alloc: Global, pattern: &[u8]) -> Result<Vec<u8>, AllocError> {
    let mut haystack = vec![in alloc; b'x'; 1]?;
    haystack.extend_from_slice(pattern)?;
    Ok(haystack)
}

/// All searches find this in a haystack, with the pattern alone and with another one: the pattern after the first byte,
/// or nothing.
fn assert_finds_long(
    rt: &impl Abort,
    alloc: Global,
    pattern: &[u8],
    haystack: &[u8],
    wanted: Option<(usize, usize, usize)>,
) -> Result<(), Fail> {
    let patterns = [pattern, b"bab"];
    for (case, list) in [("alone", &patterns[..1]), ("with another", &patterns)] {
        for kind in [MatchKind::LeftmostFirst, MatchKind::LeftmostLongest] {
            let found = searcher(alloc, kind, list)?.find(haystack);
            assert_same(rt, found.map(place), wanted, case);
            let search = Search::new(alloc, kind, true, list.iter().copied())?;
            assert_same(rt, search.find(haystack).map(place), wanted, case);
        }
        assert_confirms(rt, alloc, list, haystack, wanted, case)?;
    }
    Ok(())
}

/// A pattern of 100,000 bytes: each byte is hashed once, however long the window is.
fn assert_finds_a_long_pattern(rt: &impl Abort, alloc: Global) -> Result<(), Fail> {
    let pattern = long_pattern(alloc)?;
    let haystack = behind_x(alloc, &pattern)?;
    let (_, front) = haystack.split_last().ok_or("it is empty")?;
    let found = Some((0, 1, 100_001));
    assert_finds_long(rt, alloc, &pattern, &haystack, found)?;
    assert_finds_long(rt, alloc, &pattern, front, None)
}

/// The length of a haystack of one repeated byte.
const LEN: usize = 1 << 16;

/// The description of a case, its patterns, and the byte of its haystack, which is in their table.
static IN_TABLES: [(&str, [&[u8]; 2], u8); 2] = [
    ("a start byte", [b"foo", b"bar"], b'f'),
    ("a rare byte behind others", [b"Sherlock", b"lockjaw"], b'k'),
];

/// Each byte is in the table. So each offset is tried, and each pattern is compared there once. `confirm` scans at most
/// one byte for each; its bound would allow as many as the table reaches.
fn assert_tries_each_place(rt: &impl Abort, alloc: Global) -> Result<(), Fail> {
    for (case, patterns, byte) in &IN_TABLES {
        let haystack = vec![in alloc; *byte; LEN]?;
        assert_confirms(rt, alloc, patterns, &haystack, None, case)?;
    }
    Ok(())
}

/// The numbers of patterns: none, one, the most of a packed search and one more, and many more.
const COUNTS: [usize; 6] = [0, 1, 128, 129, 2_000, 20_000];

/// The pattern with a number below 100,000: its digits, and then a `;`.
fn numbered(number: usize) -> [u8; 6] {
    let digit = |unit: usize| b'0' + (number / unit % 10) as u8;
    [
        digit(10_000),
        digit(1_000),
        digit(100),
        digit(10),
        digit(1),
        b';',
    ]
}

/// The patterns with the numbers below a count, concatenated.
fn all_numbered(alloc: Global, count: usize) -> Result<Vec<u8>, AllocError> {
    let mut text = Vec::new(alloc);
    for number in 0..count {
        text.extend_from_slice(&numbered(number))?;
    }
    Ok(text)
}

/// Each of these patterns is found where it is, and nothing else is found.
fn assert_finds_numbered(rt: &impl Abort, alloc: Global, count: usize) -> Result<(), Fail> {
    let text = all_numbered(alloc, count)?;
    let patterns = text.chunks_exact(6);
    let search = Search::new(alloc, MatchKind::LeftmostFirst, false, patterns)?;
    let mut number = 0;
    for found in search.find_iter(&text) {
        let start = 6 * (number % 100_000);
        assert_same(rt, place(found), (number, start, start + 6), "a number");
        number = number.wrapping_add(1);
    }
    assert_same(rt, number, count, "all numbers");
    Ok(())
}

#[test]
fn finds_each_of_many_patterns(rt: HostRuntime) -> Result<(), Fail> {
    for count in COUNTS {
        assert_finds_numbered(&rt, rt.alloc(), count)?;
    }
    Ok(())
}

/// 10,000 times the first byte of each pattern of the next tests.
static SAME: [u8; 10_000] = [b'a'; 10_000];

/// The leftmost match in these bytes. For any patterns, it looks up at most three times as many bytes.
fn find_counted(search: &Search, haystack: &[u8; 10_000], tally: &mut Tally) -> Option<Match>
    ensures { tally.new.scanned ≤ tally.old.scanned + 30_000 }
{
    let (start, end) = (0, 10_000);
    search.find_in_counted(haystack, Span { start, end }, tally)
}

/// All matches in these bytes. For any number of matches, it looks up at most three times as many bytes, if no pattern
/// has 262,000 bytes.
#[tactic(auto, using(literal_leftmost::proofs::lemmas::Passes::just_thrice))]
fn find_all_counted(
    search: &Search,
    haystack: &[u8; 10_000],
    tally: &mut Tally,
) -> Result<Vec<Match>, AllocError>
    ensures { longest_of search.now.query.patterns < 262_000
        → tally.new.scanned ≤ tally.old.scanned + 30_000 }
{
    let (start, end) = (0, 10_000);
    search.find_all_in_counted(haystack, Span { start, end }, tally)
}

/// The last byte of a pattern of 1,001 bytes occurs nowhere, and the others occur at each offset.
#[test]
fn looks_at_no_byte_again_for_a_pattern_that_nearly_occurs(rt: HostRuntime) -> Result<(), Fail> {
    let mut pattern = vec![in rt.alloc(); b'a'; 1_000]?;
    pattern.push(b'b')?;
    let patterns = [pattern.as_slice()];
    let search = Search::new(rt.alloc(), MatchKind::LeftmostFirst, false, patterns)?;
    let found = find_counted(&search, &SAME, &mut Tally::new());
    assert_same(&rt, found.map(place), None, "it does not occur");
    Ok(())
}

/// There is a match at each offset.
#[test]
fn looks_at_no_byte_again_for_each_match(rt: HostRuntime) -> Result<(), Fail> {
    let search = Search::new(
        rt.alloc(),
        MatchKind::LeftmostFirst,
        false,
        [b"a".as_slice()],
    )?;
    let all = find_all_counted(&search, &SAME, &mut Tally::new())?;
    assert_same(&rt, all.len(), 10_000, "all places");
    Ok(())
}

#[test]
fn finds_in_long_haystacks(rt: HostRuntime) -> Result<(), Fail> {
    assert_finds_a_long_pattern(&rt, rt.alloc())?;
    assert_tries_each_place(&rt, rt.alloc())
}
