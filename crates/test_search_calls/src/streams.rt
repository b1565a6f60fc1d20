//! Texts that may continue, and texts that are read in pieces.
use crate::made::{first_of, longest_of};
use crate::pieces::{Interrupted, Pieces, Unflushed};
use literal_search::{Match, MatchKind, ReplaceStreamError, Search, SoFar, Span, Tally};
use std::alloc::Global;
use std::io::{self, ErrorKind, Write};
use std::process::Abort;
use std::test::Fail;

#[test]
fn example_of_a_stream(rt: HostRuntime) -> Result<(), Fail> {
    let alloc = rt.alloc();
    let words = [b"password".as_slice(), b"secret"];
    let search = Search::new(alloc, MatchKind::LeftmostFirst, true, words)?;
    let mut matches = search.find_stream(alloc, b"My Secret.".as_slice())?;
    let found = matches.next().ok_or("nothing is found")??;
    assert!(rt; found.pattern().as_usize() == 1 && found.range() == (3..9));
    Ok(())
}

#[test]
fn tells_what_is_known_so_far(rt: HostRuntime) -> Result<(), Fail> {
    let search = longest_of(rt.alloc(), &[b"ab", b"abcd"])?;
    assert!(rt; search.max_pattern_len() == 4);
    assert!(rt; search.find_so_far(b"xab", 0) == SoFar::NoneBefore(0));
    assert!(rt; search.find_so_far(b"xabc", 1) == SoFar::NoneBefore(1));
    let found = Match::must(0, Span { start: 1, end: 3 });
    assert!(rt; search.find_so_far(b"xabcx", 0) == SoFar::Found(found));
    let tally = &mut Tally::new();
    assert!(rt; search.find_so_far_counted(b"xabc", 1, tally) == SoFar::NoneBefore(1));
    assert!(rt; search.find_so_far_counted(b"xabcx", 0, tally) == SoFar::Found(found));
    Ok(())
}

/// Pieces of this many bytes give the matches of the whole text.
fn assert_same(rt: &impl Abort, alloc: Global, search: &Search, text: &[u8], step: usize) {
    let pieces = Pieces {
        rest: text,
        step,
        failing: None,
    };
    let Ok(mut matches) = search.find_stream(alloc, pieces) else {
        return assert!(rt; false);
    };
    for found in search.find_iter(text) {
        let Some(Ok(same)) = matches.next() else {
            return assert!(rt; false);
        };
        assert!(rt; same == found);
    }
    assert!(rt; matches.next().is_none() && matches.next().is_none());
}

#[test]
fn pieces_make_no_difference(rt: HostRuntime) -> Result<(), Fail> {
    let search = longest_of(rt.alloc(), &[b"abcd", b"bc", b"da"])?;
    let mut text = Vec::new(rt.alloc());
    for _ in 0..7_000 {
        text.extend_from_slice(b"xabcdabxbcda")?;
    }
    for step in [1, 7, 4_096, 65_536, 1_000_000] {
        assert_same(&rt, rt.alloc(), &search, &text, step);
    }
    Ok(())
}

#[test]
fn counting_gives_the_same_matches(rt: HostRuntime) -> Result<(), Fail> {
    let (search, tally) = (first_of(rt.alloc(), &[b"ab"])?, &mut Tally::new());
    let mut matches = search.find_stream(rt.alloc(), b"xab".as_slice())?;
    let first = Match::must(0, Span { start: 1, end: 3 });
    assert!(rt; matches.next_counted(tally).ok_or("nothing is found")?? == first);
    assert!(rt; matches.next_counted(tally).is_none());
    Ok(())
}

/// With few bytes read, so that it would read more before it searches.
#[test]
fn known_matches_come_before_an_error(rt: HostRuntime) -> Result<(), Fail> {
    let search = first_of(rt.alloc(), &[b"abcd", b"bc"])?;
    let pieces = Pieces {
        rest: b"xabcdabc?",
        step: 3,
        failing: Some(3),
    };
    let mut matches = search.find_stream(rt.alloc(), pieces)?;
    let first = Match::must(0, Span { start: 1, end: 5 });
    assert!(rt; matches.next().ok_or("nothing is found")?? == first);
    assert!(rt; is_error_of_kind(matches.next(), ErrorKind::TimedOut));
    assert!(rt; matches.next().is_none() && matches.next().is_none());
    Ok(())
}

/// Whether the answer is an error of this kind.
fn is_error_of_kind(answer: Option<io::Result<Match>>, kind: ErrorKind) -> bool {
    match answer {
        Some(Err(error)) => error.kind() == kind,
        _ => false,
    }
}

#[test]
fn example_of_replacing_in_a_stream(rt: HostRuntime) -> Result<(), Fail> {
    let alloc = rt.alloc();
    let words = [b"apple".as_slice(), b"maple"];
    let search = Search::new(alloc, MatchKind::LeftmostFirst, true, words)?;
    let (mut text, mut written) = (b"Maple or apple?".as_slice(), Vec::new(alloc));
    search.replace_stream(alloc, &mut text, &mut written, &[b"pear", b"oak"])?;
    assert!(rt; written.as_slice() == b"oak or pear?".as_slice());
    let too_few = search.replace_stream(alloc, &mut text, &mut written, &[b"pear"]);
    assert!(rt; matches!(too_few, Err(ReplaceStreamError::NotOneForEach)));
    Ok(())
}

#[test]
fn example_of_replacing_in_a_stream_with(rt: HostRuntime) -> Result<(), Fail> {
    let alloc = rt.alloc();
    let search = Search::builder().build(alloc, [b"apple".as_slice(), b"maple"])?;
    let (mut text, mut written) = (b"apple, maple".as_slice(), Vec::new(alloc));
    search.replace_stream_with(alloc, &mut text, &mut written, |_, bytes, writer| {
        writer.write_all(b"<")?;
        writer.write_all(bytes)?;
        writer.write_all(b">")
    })?;
    assert!(rt; written.as_slice() == b"<apple>, <maple>".as_slice());
    Ok(())
}

/// The second match is known only once the text has ended, and the calls have its offsets in the whole text.
#[test]
fn calls_have_offsets_in_the_text(rt: HostRuntime) -> Result<(), Fail> {
    let (alloc, search) = (rt.alloc(), first_of(rt.alloc(), &[b"abcd", b"bc"])?);
    let mut pieces = Pieces {
        rest: b"xabcdxxbc",
        step: 3,
        failing: None,
    };
    let (mut written, mut ends) = (Vec::new(alloc), [0; 2]);
    let mut count = 0;
    search.replace_stream_with(alloc, &mut pieces, &mut written, |found, _, _| {
        if let Some(end) = ends.get_mut(count) {
            *end = found.end();
            count = 1;
        }
        Ok(())
    })?;
    assert!(rt; written.as_slice() == b"xxx".as_slice());
    assert!(rt; ends == [5, 9]);
    Ok(())
}

#[test]
fn a_failed_call_ends_it(rt: HostRuntime) -> Result<(), Fail> {
    let (alloc, search) = (rt.alloc(), first_of(rt.alloc(), &[b"abcd", b"bc"])?);
    let (mut text, mut written) = (b"xabcdx".as_slice(), Vec::new(alloc));
    let failed = search.replace_stream_with(alloc, &mut text, &mut written, |_, _, _| {
        Err(io::Error::from(ErrorKind::InvalidData))
    });
    let Err(ReplaceStreamError::WriteFailed(error)) = failed else {
        return Err(Fail::from("no such error"));
    };
    assert!(rt; error.kind() == ErrorKind::InvalidData);
    assert!(rt; written.as_slice() == b"x".as_slice());
    Ok(())
}

/// With pieces of this many bytes, the text with its matches replaced is written.
fn assert_written(
    rt: &impl Abort,
    alloc: Global,
    search: &Search,
    text: &[u8],
    step: usize,
) -> Result<(), Fail> {
    let replacements = [b"<1>".as_slice(), b"", b"x"];
    let mut pieces = Pieces {
        rest: text,
        step,
        failing: None,
    };
    let mut written = Vec::new(alloc);
    search.replace_stream(alloc, &mut pieces, &mut written, &replacements)?;
    assert!(rt; written.as_slice() == search.replace_all(alloc, text, &replacements)?.as_slice());
    Ok(())
}

#[test]
fn pieces_are_written_as_the_whole(rt: HostRuntime) -> Result<(), Fail> {
    let search = longest_of(rt.alloc(), &[b"abcd", b"bc", b"da"])?;
    let mut text = Vec::new(rt.alloc());
    for _ in 0..9_000 {
        text.extend_from_slice(b"xabcdabxbcda")?;
    }
    for step in [1, 7, 4_096, 1_000_000] {
        assert_written(&rt, rt.alloc(), &search, &text, step)?;
    }
    Ok(())
}

/// A writer with room for a few bytes.
#[derive(Drop)]
struct Narrow {
    room: usize,
}

impl Write for Narrow {
    fn write(&mut self, buf: &[u8]) -> io::Result<usize> {
        let count = self.room.min(buf.len());
        self.room -= count;
        Ok(count)
    }

    fn flush(&mut self) -> io::Result<()> {
        Ok(())
    }
}

#[test]
fn what_is_known_is_written_before_an_error(rt: HostRuntime) -> Result<(), Fail> {
    let alloc = rt.alloc();
    let search = first_of(alloc, &[b"abcd", b"bc"])?;
    let mut pieces = Pieces {
        rest: b"xabcdabc?",
        step: 3,
        failing: Some(3),
    };
    let mut written = Vec::new(alloc);
    let failed = search.replace_stream(alloc, &mut pieces, &mut written, &[b"12", b"3"]);
    let Err(ReplaceStreamError::ReadFailed(error)) = failed else {
        return Err(Fail::from("no such error"));
    };
    assert!(rt; error.kind() == ErrorKind::TimedOut);
    assert!(rt; written.as_slice() == b"x12".as_slice());
    Ok(())
}

#[test]
fn a_failed_write_ends_it(rt: HostRuntime) -> Result<(), Fail> {
    let (alloc, search) = (rt.alloc(), first_of(rt.alloc(), &[b"abcd", b"bc"])?);
    let (mut text, mut narrow) = (b"xabcd".as_slice(), Narrow { room: 2 });
    let full = search.replace_stream(alloc, &mut text, &mut narrow, &[b"12", b"3"]);
    let Err(ReplaceStreamError::WriteFailed(error)) = full else {
        return Err(Fail::from("no such error"));
    };
    assert!(rt; error.kind() == ErrorKind::WriteZero);
    Ok(())
}

/// A reader of one byte per call.
fn one_by_one(rest: &[u8]) -> Pieces<'_> {
    Pieces {
        rest,
        step: 1,
        failing: None,
    }
}

/// A match is given once twice the longest pattern's length is read from where the search continues.
#[test]
fn no_more_is_read_than_a_match_needs(rt: HostRuntime) -> Result<(), Fail> {
    let (alloc, text) = (rt.alloc(), b"xabcd................");
    let (search, mut pieces) = (first_of(alloc, &[b"abcd", b"bc"])?, one_by_one(text));
    let first = search.find_stream(alloc, &mut pieces)?.next();
    assert!(rt; first.ok_or("nothing is found")??.range() == (1..5));
    assert!(rt; pieces.rest.len() == text.len() - 8);
    let (mut pieces, mut narrow) = (one_by_one(text), Narrow { room: 0 });
    let failed = search.replace_stream(alloc, &mut pieces, &mut narrow, &[b"12", b"3"]);
    assert!(rt; matches!(failed, Err(ReplaceStreamError::WriteFailed(_))));
    assert!(rt; pieces.rest.len() == text.len() - 8);
    Ok(())
}

/// The caller may go on, but the stream has ended.
#[test]
fn an_interrupted_read_is_an_error(rt: HostRuntime) -> Result<(), Fail> {
    let (alloc, search) = (rt.alloc(), first_of(rt.alloc(), &[b"ab"])?);
    let mut reader = Interrupted {
        rest: b"xxab",
        at: Some(3),
    };
    let mut matches = search.find_stream(alloc, &mut reader)?;
    assert!(rt; is_error_of_kind(matches.next(), ErrorKind::Interrupted));
    assert!(rt; matches.next().is_none());
    drop(matches);
    assert!(rt; reader.rest == b"xab".as_slice());
    reader.at = Some(3);
    let mut written = Vec::new(alloc);
    let failed = search.replace_stream(alloc, &mut reader, &mut written, &[b"1"]);
    let Err(ReplaceStreamError::ReadFailed(error)) = failed else {
        return Err(Fail::from("no such error"));
    };
    assert!(rt; error.kind() == ErrorKind::Interrupted && reader.rest == b"xab".as_slice());
    Ok(())
}

#[test]
fn the_writer_is_not_flushed(rt: HostRuntime) -> Result<(), Fail> {
    let (alloc, search) = (rt.alloc(), first_of(rt.alloc(), &[b"ab"])?);
    let mut writer = Unflushed {
        count: 0,
        is_flushed: false,
    };
    search.replace_stream(alloc, &mut b"xabx".as_slice(), &mut writer, &[b"1"])?;
    assert!(rt; writer.count == 3 && !writer.is_flushed);
    Ok(())
}

/// By calls of a function too.
#[test]
fn a_failed_read_is_told_as_one(rt: HostRuntime) -> Result<(), Fail> {
    let (alloc, search) = (rt.alloc(), first_of(rt.alloc(), &[b"abcd", b"bc"])?);
    let mut pieces = Pieces {
        rest: b"xabcdabc?",
        step: 3,
        failing: Some(3),
    };
    let mut written = Vec::new(alloc);
    let failed = search.replace_stream_with(alloc, &mut pieces, &mut written, |_, _, writer| {
        writer.write_all(b"-")
    });
    let Err(ReplaceStreamError::ReadFailed(error)) = failed else {
        return Err(Fail::from("no such error"));
    };
    assert!(rt; error.kind() == ErrorKind::TimedOut);
    assert!(rt; written.as_slice() == b"x-".as_slice());
    Ok(())
}
