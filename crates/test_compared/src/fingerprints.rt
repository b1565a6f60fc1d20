//! Fingerprints compared with the plain search.
use crate::asserted::assert_holds;
use crate::plain::leftmost_plainly;
use literal_base::count::Tally;
use literal_fingerprints::Fingerprints;
use literal_search::{MatchKind, Span};
use std::alloc::{AllocError, Global};
use std::process::Abort;
use std::test::Fail;

/// Whether case is ignored, patterns, and an occurrence of one of them.
static LISTS: [(bool, [&[u8]; 3], &[u8]); 4] = [
    (false, [b"q", b"q", b"q"], b"q"),
    (true, [b"abc", b"Cdef", b"ghij"], b"ABc"),
    (true, [b"Sherlock", b"lockJAW", b"Adler"], b"LockjaW"),
    (
        false,
        [b"\xFF\x80\x00\x7F", b"@A[`a{", b"\x00\x00\x00\x00\x00"],
        b"@A[`a{",
    ),
];

fn copies(alloc: Global, list: &[&[u8]]) -> Result<Vec<Vec<u8>>, AllocError> {
    let mut patterns = Vec::new(alloc);
    for bytes in list {
        let mut pattern = Vec::new(alloc);
        pattern.extend_from_slice(bytes)?;
        patterns.push(pattern)?;
    }
    Ok(patterns)
}

/// Dots, and the bytes at an offset, as far as they fit.
fn haystack_with(
    alloc: Global,
    len: usize,
    bytes: &[u8],
    at: usize,
) -> Result<Vec<u8>, AllocError> {
    let mut haystack = vec![in alloc; b'.'; len]?;
    for (place, byte) in haystack.iter_mut().skip(at).zip(bytes) {
        *place = *byte;
    }
    Ok(haystack)
}

/// The scan stops where the plain search finds a match, or where fewer than 19 bytes are left.
fn assert_stops(
    rt: &impl Abort,
    fingerprints: &Fingerprints,
    (ignore_case, list): (bool, &[&[u8]; 3]),
    haystack: &[u8],
    start: usize,
) {
    let span = Span {
        start: start.min(haystack.len()),
        end: haystack.len(),
    };
    let found = leftmost_plainly(list, MatchKind::LeftmostFirst, ignore_case, haystack, span);
    let wanted = found.map_or(span.end, |found| found.start());
    let place = fingerprints.next(haystack, span, &mut Tally::new());
    let holds = place == wanted || (place < wanted && span.end - place < 19);
    assert_holds(rt, holds, "another place");
}

/// The scan stops in haystacks of each length up to 80, with the bytes at each offset.
fn assert_stops_at_each_place(
    rt: &impl Abort,
    alloc: Global,
    (ignore_case, list, bytes): &(bool, [&[u8]; 3], &[u8]),
) -> Result<(), Fail> {
    let patterns = copies(alloc, list)?;
    let scan = Fingerprints::new(*ignore_case, 0, &patterns).ok_or("there are none")?;
    for number in 0usize..81 * 80 {
        let haystack = haystack_with(alloc, number / 80, bytes, number % 80)?;
        for start in [0, 5] {
            assert_stops(rt, &scan, (*ignore_case, list), &haystack, start);
        }
    }
    Ok(())
}

/// The scan stops at the only match, which begins at an offset.
fn assert_stops_at(
    rt: &impl Abort,
    alloc: Global,
    scan: &Fingerprints,
    at: usize,
) -> Result<(), Fail> {
    let haystack = haystack_with(alloc, at.saturating_add(40), b"fOUR", at)?;
    let end = haystack.len();
    let span = Span {
        start: end.min(3),
        end,
    };
    let place = scan.next(&haystack, span, &mut Tally::new());
    assert_holds(rt, place == at, "another place");
    Ok(())
}

/// The only match is after 1 MiB, or where the scan begins to read 32 bytes at a time.
fn assert_stops_far_behind(rt: &impl Abort, alloc: Global) -> Result<(), Fail> {
    let list = [b"some".as_slice(), b"many", b"Four"];
    let scan = Fingerprints::new(true, 0, &copies(alloc, &list)?).ok_or("there are none")?;
    for more in [0, 5, 15] {
        assert_stops_at(rt, alloc, &scan, (1usize << 20) + more)?;
    }
    for at in 480usize..640 {
        assert_stops_at(rt, alloc, &scan, at)?;
    }
    Ok(())
}

#[test]
fn stops_where_the_plain_search_finds(rt: HostRuntime) -> Result<(), Fail> {
    for list in &LISTS {
        assert_stops_at_each_place(&rt, rt.alloc(), list)?;
    }
    assert_stops_far_behind(&rt, rt.alloc())
}
