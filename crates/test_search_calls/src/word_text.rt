//! Whole words in texts with characters beyond ASCII, and by the sides of a haystack.
use crate::made::longest_of;
use literal_search::{
    Damaged, Match, MatchKind, Prepared, PreparedWords, ReplaceError, Span, Tally, WholeWords,
    WordText,
};
use std::alloc::Global;
use std::test::Fail;

#[test]
fn example_of_a_word_text(rt: HostRuntime) -> Result<(), Fail> {
    let alloc = rt.alloc();
    let (set, words) = (WholeWords::ascii_word_bytes(), [b"lan".as_slice()]);
    let search = WholeWords::new(alloc, MatchKind::LeftmostFirst, false, set, words)?;
    let text = WordText::new(alloc, "élan, lan")?;
    let found = search.find_text(&text).ok_or("nothing is found")?;
    assert!(rt; found.range() == (7..10));
    Ok(())
}

#[test]
fn example_of_replacing_in_a_word_text(rt: HostRuntime) -> Result<(), Fail> {
    let alloc = rt.alloc();
    let (set, words) = (WholeWords::ascii_word_bytes(), [b"lan".as_slice()]);
    let search = WholeWords::new(alloc, MatchKind::LeftmostFirst, false, set, words)?;
    let text = WordText::new(alloc, "élan, lan")?;
    let replaced = search.replace_text_all(alloc, &text, &[b"net"])?;
    assert!(rt; replaced.as_slice() == "élan, net".as_bytes());
    let too_many = search.replace_text_all(alloc, &text, &[b"net", b"net"]);
    assert!(rt; matches!(too_many, Err(ReplaceError::NotOneForEach)));
    Ok(())
}

/// Only the second of its three words is a whole one: a digit is right after the third.
const TEXT: &str = "élan lan→lan²";

/// The place of this word.
const SECOND: Span = Span { start: 6, end: 9 };

#[test]
fn tells_word_characters_beyond_ascii(rt: HostRuntime) -> Result<(), Fail> {
    let text = WordText::new(rt.alloc(), TEXT)?;
    assert!(rt; text.as_bytes() == TEXT.as_bytes());
    assert!(rt; text.sides() == b"aalan lan   lanaa".as_slice());
    let text = WordText::new(rt.alloc(), "lan_")?;
    assert!(rt; text.as_bytes() == b"lan_".as_slice() && text.sides() == b"lan_".as_slice());
    Ok(())
}

/// The first word of a text from an offset on, by each call for a span of it.
fn from(search: &WholeWords, text: &WordText<'_>, start: usize) -> [Option<Match>; 4] {
    let (end, tally) = (text.as_bytes().len(), &mut Tally::new());
    let start = start.min(end);
    let span = Span { start, end };
    [
        search.find_text_in(text, span),
        search.find_text_in_counted(text, span, tally),
        search.find_text_iter_in(text, span).next(),
        search.find_text_iter_in(text, span).next_counted(tally),
    ]
}

/// A search for the word.
fn word(alloc: Global) -> Result<WholeWords, Fail> {
    let set = WholeWords::ascii_word_bytes();
    let words = [b"lan".as_slice()];
    Ok(WholeWords::new(alloc, MatchKind::LeftmostFirst, false, set, words)?)
}

#[test]
fn finds_whole_words_in_a_text(rt: HostRuntime) -> Result<(), Fail> {
    let search = word(rt.alloc())?;
    let text = WordText::new(rt.alloc(), TEXT)?;
    let second = Match::must(0, SECOND);
    assert!(rt; from(&search, &text, 2) == [Some(second); 4]);
    assert!(rt; from(&search, &text, 7) == [None; 4]);
    assert!(rt; search.find_text_iter(&text).next() == Some(second));
    assert!(rt; search.find_text_all(&text)?.as_slice() == [second].as_slice());
    Ok(())
}

/// The array of a search for the word.
fn filled(alloc: Global) -> Result<Vec<u32>, Fail> {
    let search = longest_of(alloc, &[b"lan"])?;
    let mut array = vec![in alloc; 0; search.prepared_len()]?;
    search.prepare(&mut array)?;
    Ok(array)
}

/// The first word of a haystack by its sides, by each call.
fn by_array(array: &[u32], sides: &[u8; 17]) -> Result<[Option<Match>; 4], Damaged> {
    let (kind, set) = (MatchKind::LeftmostFirst, WholeWords::ascii_word_bytes());
    let words = PreparedWords::new(Prepared::new(array)?, kind, set)?;
    let (haystack, span) = (
        b"\xC3\xA9lan lan\xE2\x86\x92lan\xC2\xB2",
        Span { start: 0, end: 17 },
    );
    let tally = &mut Tally::new();
    Ok([
        words.find_in_by_sides(haystack, sides, span)?,
        words.find_in_by_sides_counted(haystack, sides, span, tally)?,
        words
            .find_iter_in_by_sides(haystack, sides, span)
            .next_match()?,
        words
            .find_iter_in_by_sides(haystack, sides, span)
            .next_counted(tally)?,
    ])
}

#[test]
fn finds_whole_words_by_sides(rt: HostRuntime) -> Result<(), Fail> {
    let array = filled(rt.alloc())?;
    let second = Some(Match::must(0, SECOND));
    assert!(rt; by_array(&array, b"aalan lan   lanaa")? == [second; 4]);
    Ok(())
}
