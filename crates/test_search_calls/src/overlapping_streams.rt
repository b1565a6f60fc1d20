//! Every occurrence in texts that are read in pieces.
use crate::pieces::Pieces;
use literal_search::{Match, Overlapping, Span, Tally};
use std::alloc::Global;
use std::io::ErrorKind;
use std::process::Abort;
use std::test::Fail;

#[test]
fn example_of_every_occurrence_in_a_stream(rt: HostRuntime) -> Result<(), Fail> {
    let alloc = rt.alloc();
    let search = Overlapping::new(alloc, false, [b"append".as_slice(), b"app", b"end"])?;
    let mut matches = search.find_overlapping_stream(alloc, b"append".as_slice())?;
    let first = matches.next().ok_or("nothing is found")??;
    assert!(rt; first.pattern().as_usize() == 1 && first.range() == (0..3));
    Ok(())
}

/// Pieces of this many bytes give the occurrences of the whole text.
fn assert_same(rt: &impl Abort, alloc: Global, search: &Overlapping, text: &[u8], step: usize) {
    let pieces = Pieces {
        rest: text,
        step,
        failing: None,
    };
    let Ok(mut matches) = search.find_overlapping_stream(alloc, pieces) else {
        return assert!(rt; false);
    };
    for found in search.find_overlapping_iter(text) {
        let Some(Ok(same)) = matches.next() else {
            return assert!(rt; false);
        };
        assert!(rt; same == found);
    }
    assert!(rt; matches.next().is_none() && matches.next().is_none());
}

#[test]
fn pieces_make_no_difference(rt: HostRuntime) -> Result<(), Fail> {
    let alloc = rt.alloc();
    let words = [b"abcd".as_slice(), b"bC", b"da", b"c", b"abcdabx"];
    let search = Overlapping::new(alloc, true, words)?;
    let mut text = Vec::new(alloc);
    for _ in 0..7_000 {
        text.extend_from_slice(b"xabCdabxbcda")?;
    }
    for step in [1, 7, 4_096, 65_536, 1_000_000] {
        assert_same(&rt, alloc, &search, &text, step);
    }
    let none = Overlapping::new(alloc, false, [])?;
    assert_same(&rt, alloc, &none, &text, 7);
    Ok(())
}

#[test]
fn what_ends_in_the_bytes_read_comes_before_an_error(rt: HostRuntime) -> Result<(), Fail> {
    let alloc = rt.alloc();
    let search = Overlapping::new(alloc, true, [b"bcd".as_slice(), b"D", b"dabc"])?;
    let pieces = Pieces {
        rest: b"xabCdabc?",
        step: 2,
        failing: Some(3),
    };
    let mut matches = search.find_overlapping_stream(alloc, pieces)?;
    let first = Match::must(0, Span { start: 2, end: 5 });
    assert!(rt; matches.next().ok_or("nothing is found")?? == first);
    let second = Match::must(1, Span { start: 4, end: 5 });
    assert!(rt; matches.next().ok_or("one is left out")?? == second);
    let Some(Err(error)) = matches.next() else {
        return Err(Fail::from("no error"));
    };
    assert!(rt; error.kind() == ErrorKind::TimedOut);
    assert!(rt; matches.next().is_none() && matches.next().is_none());
    Ok(())
}

#[test]
fn counting_gives_the_same(rt: HostRuntime) -> Result<(), Fail> {
    let (alloc, tally) = (rt.alloc(), &mut Tally::new());
    let search = Overlapping::new(alloc, false, [b"bc".as_slice(), b"c"])?;
    let mut matches = search.find_overlapping_stream(alloc, b"abc".as_slice())?;
    let first = Match::must(0, Span { start: 1, end: 3 });
    assert!(rt; matches.next_counted(tally).ok_or("nothing is found")?? == first);
    let second = Match::must(1, Span { start: 2, end: 3 });
    assert!(rt; matches.next_counted(tally).ok_or("one is left out")?? == second);
    assert!(rt; matches.next_counted(tally).is_none());
    Ok(())
}

/// No byte is read after the end of an occurrence.
#[test]
fn no_more_is_read_than_an_occurrence_needs(rt: HostRuntime) -> Result<(), Fail> {
    let (alloc, text) = (rt.alloc(), b"xabcd....");
    let search = Overlapping::new(alloc, false, [b"bc".as_slice(), b"abcd"])?;
    let mut pieces = Pieces {
        rest: text,
        step: 1,
        failing: None,
    };
    let first = search.find_overlapping_stream(alloc, &mut pieces)?.next();
    assert!(rt; first.ok_or("nothing is found")??.range() == (2..4));
    assert!(rt; pieces.rest.len() == text.len() - 4);
    Ok(())
}
