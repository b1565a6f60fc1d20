//! Scans by a rare pair, and searches for one pattern, compared with the plain search.
ghost use Rattle.literal_base.specs.Occurs.{IsValidSpan};

use crate::asserted::{assert_holds, assert_same};
use crate::made::place;
use crate::plain::leftmost_plainly;
use literal_base::count::Tally;
use literal_fingerprints::RarePair;
use literal_search::{Match, MatchKind, Overlapping, Search, Span};
use std::alloc::{AllocError, Global};
use std::process::Abort;
use std::test::Fail;

/// Patterns, and whether case is ignored.
static PATTERNS: [(bool, &[u8]); 9] = [
    (false, b"q"),
    (true, b"Q"),
    (false, b"\x00"),
    (false, b"ab"),
    (false, b"aaaa"),
    (true, b"Sherlock"),
    (false, b"\xFF\x80\x00\x7F"),
    (true, b"@A[`a{"),
    (true, b"The lazy brown fox jumps"),
];

/// Dots, and the bytes at an offset, as far as they fit.
fn haystack_with(
    alloc: Global,
    len: usize,
    bytes: &[u8],
    at: usize,
) -> Result<Vec<u8>, AllocError> {
    let mut haystack = vec![in alloc; b'.'; len]?;
    for (offset, byte) in haystack.iter_mut().skip(at).zip(bytes) {
        *offset = *byte;
    }
    Ok(haystack)
}

/// The scan stops where the plain search finds the pattern, or before. It stops at the start only if fewer than 40
/// bytes are left.
fn assert_stops(
    rt: &impl Abort,
    pair: &RarePair,
    (ignore_case, pattern): (bool, &[u8]),
    haystack: &[u8],
    start: usize,
) {
    let span = Span {
        start: start.min(haystack.len()),
        end: haystack.len(),
    };
    let (kind, list) = (MatchKind::LeftmostFirst, [pattern]);
    let found = leftmost_plainly(&list, kind, ignore_case, haystack, span);
    let wanted = found.map_or(span.end, |found| found.start());
    let stop = pair.next(haystack, span, &mut Tally::new());
    let may_stop_before = start > 0 || span.end - stop < 40;
    let holds = stop == wanted || (stop < wanted && may_stop_before);
    assert_holds(rt, holds, "another place");
}

/// The scan stops in haystacks of each length up to 120, with the pattern at each offset.
fn assert_stops_at_each_place(
    rt: &impl Abort,
    alloc: Global,
    (ignore_case, pattern): (bool, &[u8]),
) -> Result<(), Fail> {
    let pair = RarePair::new(ignore_case, pattern).ok_or("it is empty")?;
    for number in 0usize..121 * 40 {
        let haystack = haystack_with(alloc, number / 40, pattern, number % 40 * 3)?;
        for start in [0, 5] {
            assert_stops(rt, &pair, (ignore_case, pattern), &haystack, start);
        }
    }
    Ok(())
}

#[test]
fn pairs_stop_where_the_plain_search_finds(rt: HostRuntime) -> Result<(), Fail> {
    for pattern in &PATTERNS {
        assert_stops_at_each_place(&rt, rt.alloc(), *pattern)?;
    }
    Ok(())
}

/// Bytes that are no letters differ, even if they differ only in the bit in which both cases of a letter differ.
#[test]
fn pairs_ignore_the_case_of_letters_alone(rt: HostRuntime) -> Result<(), Fail> {
    for (pattern, others) in [
        (b"@[".as_slice(), b"`{".as_slice()),
        (b"`{", b"@["),
        (b"@a", b"`A"),
        (b"z{", b"Z["),
    ] {
        let pair = RarePair::new(true, pattern).ok_or("it is empty")?;
        let haystack = others.repeat(rt.alloc(), 60)?;
        let end = haystack.len();
        let stop = pair.next(&haystack, Span { start: 0, end }, &mut Tally::new());
        assert_holds(&rt, end - stop < 40, "it stops at other bytes");
    }
    Ok(())
}

/// The next of some numbers that look random.
fn next_number(number: u32) -> u32 {
    number.wrapping_mul(1_664_525).wrapping_add(1_013_904_223)
}

/// A haystack with bytes of an alphabet, chosen by the numbers after a number.
fn random_haystack(
    alloc: Global,
    alphabet: &[u8; 4],
    len: usize,
    number: &mut u32,
) -> Result<Vec<u8>, AllocError> {
    let mut haystack = vec![in alloc; b'.'; len]?;
    for byte in haystack.iter_mut() {
        *number = next_number(*number);
        *byte = alphabet[(*number >> 30) as usize];
    }
    Ok(haystack)
}

/// The answer of the plain search in the rest of a haystack.
fn plainly(
    (ignore_case, pattern): (bool, &[u8]),
    haystack: &[u8],
    start: usize,
) -> Option<(usize, usize, usize)> {
    let end = haystack.len();
    if start > end {
        return None;
    }
    let (kind, list) = (MatchKind::LeftmostFirst, [pattern]);
    leftmost_plainly(&list, kind, ignore_case, haystack, Span { start, end }).map(place)
}

/// The list of all matches is that of the plain search, each after the previous one.
fn assert_all(rt: &impl Abort, of: (bool, &[u8]), haystack: &[u8], all: &[Match]) {
    let mut start = 0;
    for found in all {
        assert_same(
            rt,
            Some(place(*found)),
            plainly(of, haystack, start),
            "a match",
        );
        start = found.end();
    }
    assert_same(rt, None, plainly(of, haystack, start), "the end");
}

/// The first match of both searches is the leftmost one.
fn assert_first(
    rt: &impl Abort,
    of: (bool, &[u8]),
    search: &Search,
    overlapping: &Overlapping,
    haystack: &[u8],
) {
    let wanted = plainly(of, haystack, 0);
    assert_same(
        rt,
        search.find(haystack).map(place),
        wanted,
        "the first match",
    );
    let mut all = overlapping.find_overlapping_iter(haystack);
    let first = all.next();
    assert_same(rt, first.map(place), wanted, "the first occurrence");
}

/// Compares in haystacks of each length up to 200, of four bytes, two of which are in the pattern.
fn assert_in_random_haystacks(
    rt: &impl Abort,
    alloc: Global,
    (ignore_case, pattern): (bool, &[u8]),
    alphabet: &[u8; 4],
) -> Result<(), Fail> {
    let search = Search::new(alloc, MatchKind::LeftmostFirst, ignore_case, [pattern])?;
    let overlapping = Overlapping::new(alloc, ignore_case, [pattern])?;
    let mut number = 1;
    for len in 0..200 {
        let haystack = random_haystack(alloc, alphabet, len, &mut number)?;
        assert_first(rt, (ignore_case, pattern), &search, &overlapping, &haystack);
        let all = search.find_all(&haystack)?;
        assert_all(rt, (ignore_case, pattern), &haystack, all.as_slice());
    }
    Ok(())
}

#[test]
fn searches_for_one_pattern_find_what_the_plain_search_finds(rt: HostRuntime) -> Result<(), Fail> {
    for (of, alphabet) in [
        ((false, b"a".as_slice()), b"abcd"),
        ((false, b"ab"), b"abcd"),
        ((true, b"aBa"), b"aAbB"),
        ((true, b"@a@"), b"@`aA"),
        ((false, b"aaaa"), b"aaab"),
        ((false, b"abcab"), b"abca"),
        ((true, b"ab.ab.ab.ab.ab.ab"), b"aB.b"),
    ] {
        assert_in_random_haystacks(&rt, rt.alloc(), of, alphabet)?;
    }
    Ok(())
}
