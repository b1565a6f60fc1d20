//! Whole words in texts that are read in pieces.
use crate::pieces::{Interrupted, Pieces, Unflushed};
use literal_search::{BuildError, Match, MatchKind, ReplaceStreamError, Span, Tally, WholeWords};
use std::alloc::Global;
use std::io::{ErrorKind, Write};
use std::process::Abort;
use std::test::Fail;

/// A search for some words, with case kept, in which letters, digits and the underscore are word bytes.
fn words_of(alloc: Global, kind: MatchKind, words: &[&[u8]]) -> Result<WholeWords, BuildError> {
    let set = WholeWords::ascii_word_bytes();
    WholeWords::new(alloc, kind, false, set, words.iter().copied())
}

#[test]
fn example_of_a_word_stream(rt: HostRuntime) -> Result<(), Fail> {
    let alloc = rt.alloc();
    let words = [b"new york".as_slice(), b"york"];
    let set = WholeWords::ascii_word_bytes();
    let search = WholeWords::new(alloc, MatchKind::LeftmostFirst, true, set, words)?;
    let mut matches = search.find_stream(alloc, b"Yorkers, York".as_slice())?;
    let found = matches.next().ok_or("nothing is found")??;
    assert!(rt; found.pattern().as_usize() == 1 && found.range() == (9..13));
    Ok(())
}

#[test]
fn counting_gives_the_same_words(rt: HostRuntime) -> Result<(), Fail> {
    let (alloc, tally) = (rt.alloc(), &mut Tally::new());
    let search = words_of(alloc, MatchKind::LeftmostFirst, &[b"ab"])?;
    let mut matches = search.find_stream(alloc, b"abc ab".as_slice())?;
    let first = Match::must(0, Span { start: 4, end: 6 });
    assert!(rt; matches.next_counted(tally).ok_or("nothing is found")?? == first);
    assert!(rt; matches.next_counted(tally).is_none());
    Ok(())
}

/// Pieces of this many bytes give the words of the whole text. Returns how many these are.
fn assert_same(
    rt: &impl Abort,
    alloc: Global,
    search: &WholeWords,
    text: &[u8],
    step: usize,
) -> usize {
    let pieces = Pieces {
        rest: text,
        step,
        failing: None,
    };
    let mut count: usize = 0;
    let Ok(mut matches) = search.find_stream(alloc, pieces) else {
        assert!(rt; false);
        return 0;
    };
    for found in search.find_iter(text) {
        let Some(Ok(same)) = matches.next() else {
            assert!(rt; false);
            return 0;
        };
        assert!(rt; same == found);
        count = count.saturating_add(1);
    }
    assert!(rt; matches.next().is_none() && matches.next().is_none());
    count
}

/// With pieces of this many bytes, the text with its words replaced is written.
fn assert_written(
    rt: &impl Abort,
    alloc: Global,
    search: &WholeWords,
    text: &[u8],
    step: usize,
) -> Result<(), Fail> {
    let replacements = [b"<1>".as_slice(), b"", b"x", b"ab", b"-"];
    let mut pieces = Pieces {
        rest: text,
        step,
        failing: None,
    };
    let mut written = Vec::new(alloc);
    search.replace_stream(alloc, &mut pieces, &mut written, &replacements)?;
    assert!(rt; written.as_slice() == search.replace_all(alloc, text, &replacements)?.as_slice());
    Ok(())
}

/// A text of two letters, spaces and hyphens, which depends on a number.
fn text_of(number: u64) -> [u8; 60] {
    let mut text = [b' '; 60];
    let mut state = number;
    for byte in text.iter_mut() {
        state = state
            .wrapping_mul(6_364_136_223_846_793_005)
            .wrapping_add(1_442_695_040_888_963_407);
        *byte = match state >> 61 {
            0 | 1 => b'a',
            2 | 3 => b'b',
            4 | 5 => b' ',
            6 => b'-',
            _ => b'_',
        };
    }
    text
}

/// Words that begin or end with other bytes too.
const WORDS: [&[u8]; 5] = [b"a", b"ab", b"b-a", b"- ", b"a b"];

#[test]
fn pieces_give_the_words_of_a_text(rt: HostRuntime) -> Result<(), Fail> {
    let alloc = rt.alloc();
    let first = words_of(alloc, MatchKind::LeftmostFirst, &WORDS)?;
    let longest = words_of(alloc, MatchKind::LeftmostLongest, &WORDS)?;
    let mut count: usize = 0;
    for number in 0..100u64 {
        let text = text_of(number);
        for step in 1..8 {
            count = count.saturating_add(assert_same(&rt, alloc, &first, &text, step));
            count = count.saturating_add(assert_same(&rt, alloc, &longest, &text, step));
        }
    }
    assert!(rt; count > 2_000);
    Ok(())
}

#[test]
fn pieces_are_written_with_words_replaced(rt: HostRuntime) -> Result<(), Fail> {
    let alloc = rt.alloc();
    let first = words_of(alloc, MatchKind::LeftmostFirst, &WORDS)?;
    let longest = words_of(alloc, MatchKind::LeftmostLongest, &WORDS)?;
    for number in 0..50u64 {
        let text = text_of(number);
        for step in 1..8 {
            assert_written(&rt, alloc, &first, &text, step)?;
            assert_written(&rt, alloc, &longest, &text, step)?;
        }
    }
    Ok(())
}

#[test]
fn long_texts_give_the_words_of_the_whole(rt: HostRuntime) -> Result<(), Fail> {
    let alloc = rt.alloc();
    let search = words_of(alloc, MatchKind::LeftmostLongest, &WORDS)?;
    let mut text = Vec::new(alloc);
    for _ in 0..14_000 {
        text.extend_from_slice(b"xab a ab_b-a")?;
    }
    for step in [4_096, 65_536, 1_000_000] {
        assert!(rt; assert_same(&rt, alloc, &search, &text, step) > 14_000);
        assert_written(&rt, alloc, &search, &text, step)?;
    }
    Ok(())
}

/// The word at the end of the bytes read is not known, since a word byte may follow.
#[test]
fn known_words_come_before_an_error(rt: HostRuntime) -> Result<(), Fail> {
    let search = words_of(rt.alloc(), MatchKind::LeftmostFirst, &[b"ab"])?;
    let pieces = Pieces {
        rest: b"xab ab ab",
        step: 2,
        failing: Some(0),
    };
    let mut matches = search.find_stream(rt.alloc(), pieces)?;
    let first = Match::must(0, Span { start: 4, end: 6 });
    assert!(rt; matches.next().ok_or("nothing is found")?? == first);
    let Some(Err(error)) = matches.next() else {
        return Err(Fail::from("no error"));
    };
    assert!(rt; error.kind() == ErrorKind::TimedOut);
    assert!(rt; matches.next().is_none() && matches.next().is_none());
    Ok(())
}

#[test]
fn example_of_replacing_words_in_a_stream(rt: HostRuntime) -> Result<(), Fail> {
    let alloc = rt.alloc();
    let words = [b"apple".as_slice(), b"maple"];
    let set = WholeWords::ascii_word_bytes();
    let search = WholeWords::new(alloc, MatchKind::LeftmostFirst, true, set, words)?;
    let (mut text, mut written) = (b"Maple or apples?".as_slice(), Vec::new(alloc));
    search.replace_stream(alloc, &mut text, &mut written, &[b"pear", b"oak"])?;
    assert!(rt; written.as_slice() == b"oak or apples?".as_slice());
    let too_few = search.replace_stream(alloc, &mut text, &mut written, &[b"pear"]);
    assert!(rt; matches!(too_few, Err(ReplaceStreamError::NotOneForEach)));
    Ok(())
}

/// The calls have the offsets of the words in the whole text.
#[test]
fn calls_have_the_offsets_of_words(rt: HostRuntime) -> Result<(), Fail> {
    let alloc = rt.alloc();
    let search = words_of(alloc, MatchKind::LeftmostFirst, &[b"ab"])?;
    let mut pieces = Pieces {
        rest: b"xab ab abx-ab",
        step: 3,
        failing: None,
    };
    let (mut written, mut ends) = (Vec::new(alloc), [0; 2]);
    let mut count = 0;
    search.replace_stream_with(alloc, &mut pieces, &mut written, |found, bytes, writer| {
        if let Some(end) = ends.get_mut(count) {
            *end = found.end();
            count = 1;
        }
        writer.write_all(bytes)?;
        writer.write_all(b"!")
    })?;
    assert!(rt; written.as_slice() == b"xab ab! abx-ab!".as_slice());
    assert!(rt; ends == [6, 13]);
    Ok(())
}

/// What is known is written before an error: all but the last bytes, no more than the longest pattern has.
#[test]
fn known_words_are_replaced_before_an_error(rt: HostRuntime) -> Result<(), Fail> {
    let alloc = rt.alloc();
    let search = words_of(alloc, MatchKind::LeftmostFirst, &[b"ab"])?;
    let mut pieces = Pieces {
        rest: b"xab ab ab",
        step: 2,
        failing: Some(0),
    };
    let mut written = Vec::new(alloc);
    let failed = search.replace_stream(alloc, &mut pieces, &mut written, &[b"1"]);
    let Err(ReplaceStreamError::ReadFailed(error)) = failed else {
        return Err(Fail::from("no such error"));
    };
    assert!(rt; error.kind() == ErrorKind::TimedOut);
    assert!(rt; written.as_slice() == b"xab 1 ".as_slice());
    Ok(())
}

/// A word is given once twice the longest pattern's length and two bytes more are read.
#[test]
fn no_more_is_read_than_a_word_needs(rt: HostRuntime) -> Result<(), Fail> {
    let (alloc, text) = (rt.alloc(), b" ab ............");
    let search = words_of(alloc, MatchKind::LeftmostFirst, &[b"ab"])?;
    let mut pieces = Pieces {
        rest: text,
        step: 1,
        failing: None,
    };
    let first = search.find_stream(alloc, &mut pieces)?.next();
    assert!(rt; first.ok_or("nothing is found")??.range() == (1..3));
    assert!(rt; pieces.rest.len() == text.len() - 6);
    Ok(())
}

/// By calls of a function, which do not flush the writer, until a read is interrupted.
#[test]
fn a_failed_read_of_words_is_told_as_one(rt: HostRuntime) -> Result<(), Fail> {
    let alloc = rt.alloc();
    let search = words_of(alloc, MatchKind::LeftmostFirst, &[b"ab"])?;
    let mut reader = Interrupted {
        rest: b"ab ab x",
        at: Some(2),
    };
    let mut writer = Unflushed {
        count: 0,
        is_flushed: false,
    };
    let failed = search.replace_stream_with(alloc, &mut reader, &mut writer, |_, _, writer| {
        writer.write_all(b"-")
    });
    let Err(ReplaceStreamError::ReadFailed(error)) = failed else {
        return Err(Fail::from("no such error"));
    };
    assert!(rt; error.kind() == ErrorKind::Interrupted && reader.rest == b" x".as_slice());
    assert!(rt; writer.count == 2 && !writer.is_flushed);
    Ok(())
}
