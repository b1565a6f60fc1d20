//! `WholeWords`, and `PreparedWords`.
use crate::made::longest_of;
use literal_search::{
    BuildError, ByteSet, Damaged, Match, MatchKind, PatternID, Prepared, PreparedWords,
    ReplaceError, Search, Span, Tally, WholeWords,
};
use std::alloc::Global;
use std::test::Fail;

#[test]
fn example_of_whole_words(rt: HostRuntime) -> Result<(), Fail> {
    let alloc = rt.alloc();
    let words = [b"new york".as_slice(), b"york"];
    let set = WholeWords::ascii_word_bytes();
    let search = WholeWords::new(alloc, MatchKind::LeftmostFirst, true, set, words)?;
    let found = search.find(b"Yorkers, York").ok_or("nothing is found")?;
    assert!(rt; found.pattern().as_usize() == 1 && found.range() == (9..13));
    Ok(())
}

/// A search for a word with no hyphen right before or right after it.
fn without_hyphens(alloc: Global) -> Result<WholeWords, BuildError> {
    let mut hyphen = ByteSet::empty();
    hyphen.add(b'-');
    WholeWords::new(
        alloc,
        MatchKind::LeftmostFirst,
        false,
        hyphen,
        [b"ab".as_slice()],
    )
}

/// The first word in a text, by the calls that count.
fn counted(search: &WholeWords) -> [Option<Match>; 2] {
    let (haystack, span, tally) = (b"ab-abc", Span { start: 0, end: 6 }, &mut Tally::new());
    [
        search.find_in_counted(haystack, span, tally),
        search.find_iter_in(haystack, span).next_counted(tally),
    ]
}

#[test]
fn takes_word_bytes_of_a_callers_own(rt: HostRuntime) -> Result<(), Fail> {
    let search = without_hyphens(rt.alloc())?;
    assert!(rt; counted(&search) == [None; 2]);
    assert!(rt; search.find(b"xabx").is_some() && search.find(b"x-ab").is_none());
    Ok(())
}

#[test]
fn tells_what_words_it_was_built_of(rt: HostRuntime) -> Result<(), Fail> {
    let search = without_hyphens(rt.alloc())?;
    assert!(rt; search.match_kind() == MatchKind::LeftmostFirst && !search.ignores_case());
    assert!(rt; search.patterns_len() == 1 && search.word_bytes().contains(b'-'));
    assert!(rt; search.pattern(PatternID::must(0)) == Some(b"ab".as_slice()));
    assert!(rt; search.pattern(PatternID::must(1)).is_none());
    Ok(())
}

#[test]
fn example_of_whole_words_by_an_array(rt: HostRuntime) -> Result<(), Fail> {
    let alloc = rt.alloc();
    let patterns = [b"york".as_slice()];
    let search = Search::new(alloc, MatchKind::LeftmostLongest, true, patterns)?;
    let mut array = vec![in alloc; 0; search.prepared_len()]?;
    search.prepare(&mut array)?;
    let set = WholeWords::ascii_word_bytes();
    let words = PreparedWords::new(Prepared::new(&array)?, MatchKind::LeftmostFirst, set)?;
    let found = words.find_in(b"Yorkers, York", Span { start: 0, end: 13 })?;
    assert!(rt; found == Some(Match::must(0, Span { start: 9, end: 13 })));
    Ok(())
}

/// Whole words are found by an array that prefers the longest match.
#[test]
fn words_by_an_array_of_the_other_kind_are_refused(rt: HostRuntime) -> Result<(), Fail> {
    let (alloc, set) = (rt.alloc(), WholeWords::ascii_word_bytes());
    let search = Search::new(alloc, MatchKind::LeftmostFirst, false, [b"york".as_slice()])?;
    let mut array = vec![in alloc; 0; search.prepared_len()]?;
    search.prepare(&mut array)?;
    let words = PreparedWords::new(Prepared::new(&array)?, MatchKind::LeftmostFirst, set);
    assert!(rt; words.is_err());
    Ok(())
}

/// The array of a search for two words, the longest of them.
fn filled(alloc: Global) -> Result<Vec<u32>, Fail> {
    let search = longest_of(alloc, &[b"new york", b"york"])?;
    let mut array = vec![in alloc; 0; search.prepared_len()]?;
    search.prepare(&mut array)?;
    Ok(array)
}

/// The first of them in a text as a whole word, by each iterating or counting call of a search by the array.
fn by_array(array: &[u32]) -> Result<[Option<Match>; 3], Damaged> {
    let (kind, set) = (MatchKind::LeftmostFirst, WholeWords::ascii_word_bytes());
    let words = PreparedWords::new(Prepared::new(array)?, kind, set)?;
    let (haystack, span, tally) = (
        b"yorkers, york",
        Span { start: 0, end: 13 },
        &mut Tally::new(),
    );
    Ok([
        words.find_in_counted(haystack, span, tally)?,
        words.find_iter_in(haystack, span).next_match()?,
        words.find_iter_in(haystack, span).next_counted(tally)?,
    ])
}

#[test]
fn finds_whole_words_by_an_array(rt: HostRuntime) -> Result<(), Fail> {
    let array = filled(rt.alloc())?;
    let second = Some(Match::must(1, Span { start: 9, end: 13 }));
    assert!(rt; by_array(&array)? == [second; 3]);
    Ok(())
}

/// The first row points outside the rows.
#[test]
fn whole_words_by_a_damaged_array_end(rt: HostRuntime) -> Result<(), Fail> {
    let mut array = filled(rt.alloc())?;
    for number in array.iter_mut().skip(8).take(40) {
        *number = u32::MAX - 1;
    }
    let set = WholeWords::ascii_word_bytes();
    let words = PreparedWords::new(Prepared::new(&array)?, MatchKind::LeftmostFirst, set)?;
    let mut matches = words.find_iter_in(b"yorkers, york", Span { start: 0, end: 13 });
    assert!(rt; matches.next_match() == Err(Damaged));
    assert!(rt; matches.next_match() == Ok(None));
    Ok(())
}

/// A text with whole words replaced, by each call.
fn replaced(alloc: Global) -> Result<[Vec<u8>; 2], Fail> {
    let (kind, set) = (MatchKind::LeftmostFirst, WholeWords::ascii_word_bytes());
    let words = WholeWords::new(alloc, kind, false, set, [b"york".as_slice(), b"new york"])?;
    let text = b"new yorkers like york, new york";
    Ok([
        words.replace_all(alloc, text, &[b"Rome", b""])?,
        words.replace_all_with(alloc, text, |_, bytes, text| {
            text.extend_from_slice(b"<")?;
            text.extend_from_slice(bytes)?;
            text.extend_from_slice(b">")
        })?,
    ])
}

#[test]
fn replaces_whole_words(rt: HostRuntime) -> Result<(), Fail> {
    let [by_pattern, by_function] = replaced(rt.alloc())?;
    assert!(rt; by_pattern.as_slice() == b"new yorkers like Rome, ".as_slice());
    assert!(rt; by_function.as_slice() == b"new yorkers like <york>, <new york>".as_slice());
    Ok(())
}

#[test]
fn replaces_whole_words_by_one_for_each(rt: HostRuntime) -> Result<(), Fail> {
    let search = without_hyphens(rt.alloc())?;
    let answer = search.replace_all(rt.alloc(), b"ab", &[b"a", b"b"]);
    assert!(rt; answer.err() == Some(ReplaceError::NotOneForEach));
    Ok(())
}
