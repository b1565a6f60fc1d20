//! How many requests for memory calls make. `checks/refusals` compares two tests by their names. A test with
//! `_and_no_more` in its name makes as many requests as the test that is named by the part before it. One with
//! `_and_one_more` or `_and_two_more` makes one or two more.
use crate::made::words_without_a_table;
use literal_folding::{FoldedSearch, FoldedText};
use literal_search::{MatchKind, Overlapping, Search, Span, WholeWords, WordText};
use std::alloc::{AllocError, Global};
use std::io;

/// A text with some of the patterns, and one without any.
const TEXT: &str = "q bye, ax bye";

const OTHER: &str = "no word of the list";

/// Replacements that leave nothing of a text that consists of patterns.
const NOTHING: [&[u8]; 24] = [b""; 24];

fn built(alloc: Global) -> Result<Search, AllocError> {
    Search::new(
        alloc,
        MatchKind::LeftmostFirst,
        false,
        words_without_a_table(),
    )
    .or(Err(AllocError))
}

fn built_words(alloc: Global) -> Result<WholeWords, AllocError> {
    let set = WholeWords::ascii_word_bytes();
    WholeWords::new(
        alloc,
        MatchKind::LeftmostFirst,
        false,
        set,
        words_without_a_table(),
    )
    .or(Err(AllocError))
}

fn built_for_all(alloc: Global) -> Result<Overlapping, AllocError> {
    Overlapping::new(alloc, false, words_without_a_table()).or(Err(AllocError))
}

#[test]
fn search(rt: HostRuntime) -> Result<(), AllocError> {
    assert!(rt; built(rt.alloc())?.is_match(TEXT.as_bytes()));
    Ok(())
}

#[test]
fn search_and_no_more(rt: HostRuntime) -> Result<(), AllocError> {
    let (search, text) = (built(rt.alloc())?, TEXT.as_bytes());
    assert!(rt; search.find(text).is_some() && search.is_match(text));
    assert!(rt; search.find_in(text, Span { start: 2, end: 5 }).is_some());
    assert!(rt; search.find_iter(text).count() == 3 && search.starts(text).count() == 3);
    assert!(rt; search.match_at(text, 2).is_some());
    assert!(rt; search.find_all(OTHER.as_bytes())?.is_empty());
    Ok(())
}

#[test]
fn search_and_no_more_in_a_span(rt: HostRuntime) -> Result<(), AllocError> {
    let (search, text) = (built(rt.alloc())?, TEXT.as_bytes());
    let span = Span { start: 2, end: 8 };
    assert!(rt; search.find_iter_in(text, span).count() == 1);
    assert!(rt; search.starts_in(text, span).count() == 1);
    assert!(rt;
        search
            .find_all_in(text, Span { start: 0, end: 3 })?
            .is_empty()
    );
    Ok(())
}

#[test]
fn search_and_no_more_to_replace(rt: HostRuntime) -> Result<(), AllocError> {
    let (search, text) = (built(rt.alloc())?, b"axbye");
    let replaced = search.replace_all(rt.alloc(), text, &NOTHING);
    assert!(rt; replaced.or(Err(AllocError))?.is_empty());
    let written = search.replace_all_with(rt.alloc(), text, |_, _, _| Ok(()))?;
    assert!(rt; written.is_empty());
    Ok(())
}

#[test]
fn search_and_one_more(rt: HostRuntime) -> Result<(), AllocError> {
    let search = built(rt.alloc())?;
    let mut matches = search.find_stream(rt.alloc(), TEXT.as_bytes())?;
    assert!(rt; matches.next().is_some());
    Ok(())
}

#[test]
fn search_and_one_more_to_replace(rt: HostRuntime) -> Result<(), AllocError> {
    let search = built(rt.alloc())?;
    let (mut text, mut sink) = (TEXT.as_bytes(), io::sink());
    let done = search.replace_stream(rt.alloc(), &mut text, &mut sink, &NOTHING);
    done.or(Err(AllocError))
}

#[test]
fn words(rt: HostRuntime) -> Result<(), AllocError> {
    assert!(rt; built_words(rt.alloc())?.is_match(TEXT.as_bytes()));
    Ok(())
}

#[test]
fn words_and_no_more(rt: HostRuntime) -> Result<(), AllocError> {
    let (search, text) = (built_words(rt.alloc())?, TEXT.as_bytes());
    assert!(rt; search.find(text).is_some() && search.find_iter(text).count() == 3);
    assert!(rt; search.find_all(OTHER.as_bytes())?.is_empty());
    let text = WordText::new(rt.alloc(), TEXT)?;
    assert!(rt; search.find_text(&text).is_some() && search.find_text_iter(&text).count() == 3);
    Ok(())
}

#[test]
fn words_and_no_more_in_a_span(rt: HostRuntime) -> Result<(), AllocError> {
    let (search, text) = (built_words(rt.alloc())?, TEXT.as_bytes());
    let span = Span { start: 2, end: 8 };
    assert!(rt; search.find_in(text, span).is_some());
    assert!(rt; search.find_iter_in(text, span).count() == 1);
    assert!(rt;
        search
            .find_all_in(text, Span { start: 0, end: 3 })?
            .is_empty()
    );
    let text = WordText::new(rt.alloc(), TEXT)?;
    assert!(rt; search.find_text_in(&text, span).is_some());
    assert!(rt; search.find_text_iter_in(&text, span).count() == 1);
    let none = search.find_text_all(&WordText::new(rt.alloc(), OTHER)?)?;
    assert!(rt; none.is_empty());
    Ok(())
}

#[test]
fn words_and_no_more_to_replace(rt: HostRuntime) -> Result<(), AllocError> {
    let search = built_words(rt.alloc())?;
    let replaced = search.replace_all(rt.alloc(), b"bye", &NOTHING);
    assert!(rt; replaced.or(Err(AllocError))?.is_empty());
    let written = search.replace_all_with(rt.alloc(), b"bye", |_, _, _| Ok(()))?;
    assert!(rt; written.is_empty());
    let text = WordText::new(rt.alloc(), "bye")?;
    let replaced = search.replace_text_all(rt.alloc(), &text, &NOTHING);
    assert!(rt; replaced.or(Err(AllocError))?.is_empty());
    Ok(())
}

#[test]
fn words_and_one_more(rt: HostRuntime) -> Result<(), AllocError> {
    let search = built_words(rt.alloc())?;
    let mut matches = search.find_stream(rt.alloc(), TEXT.as_bytes())?;
    assert!(rt; matches.next().is_some());
    Ok(())
}

#[test]
fn occurrences(rt: HostRuntime) -> Result<(), AllocError> {
    assert!(rt; built_for_all(rt.alloc())?.is_match(TEXT.as_bytes()));
    Ok(())
}

#[test]
fn occurrences_and_no_more(rt: HostRuntime) -> Result<(), AllocError> {
    let (search, text) = (built_for_all(rt.alloc())?, TEXT.as_bytes());
    let span = Span {
        start: 0,
        end: text.len(),
    };
    assert!(rt; search.find_overlapping_iter(text).count() == 18);
    assert!(rt; search.count_overlapping_in(text, span) == 18);
    assert!(rt; search.earliest_end(text, span).is_some());
    let automaton = search.automaton();
    let state = automaton.next_state(automaton.start_state(), b'a');
    assert!(rt; !automaton.is_match(state) && automaton.matches(state).is_empty());
    Ok(())
}

#[test]
fn occurrences_and_one_more(rt: HostRuntime) -> Result<(), AllocError> {
    let search = built_for_all(rt.alloc())?;
    let mut matches = search.find_overlapping_stream(rt.alloc(), TEXT.as_bytes())?;
    assert!(rt; matches.next().is_some());
    Ok(())
}

#[test]
fn text(rt: HostRuntime) {
    assert!(rt; TEXT.is_ascii());
}

/// Without a character beyond ASCII.
#[test]
fn text_and_no_more(rt: HostRuntime) -> Result<(), AllocError> {
    let text = WordText::new(rt.alloc(), TEXT)?;
    assert!(rt; text.sides() == TEXT.as_bytes());
    Ok(())
}

/// An empty list allocates nothing.
#[test]
fn text_and_no_more_for_no_pattern(rt: HostRuntime) -> Result<(), AllocError> {
    let kind = MatchKind::LeftmostLongest;
    let search = Search::new(rt.alloc(), kind, false, []).or(Err(AllocError))?;
    let all = Overlapping::new(rt.alloc(), false, []).or(Err(AllocError))?;
    assert!(rt; !search.is_match(TEXT.as_bytes()) && !all.is_match(TEXT.as_bytes()));
    let copy = search.try_clone()?;
    assert!(rt; !copy.is_match(TEXT.as_bytes()));
    Ok(())
}

fn built_folded(alloc: Global) -> Result<FoldedSearch, AllocError> {
    FoldedSearch::new(alloc, MatchKind::LeftmostFirst, [TEXT.as_bytes()]).or(Err(AllocError))
}

#[test]
fn folded(rt: HostRuntime) -> Result<(), AllocError> {
    assert!(rt; built_folded(rt.alloc())?.patterns_len() == 1);
    Ok(())
}

#[test]
fn folded_and_no_more_without_text(rt: HostRuntime) -> Result<(), AllocError> {
    let search = built_folded(rt.alloc())?;
    let text = FoldedText::new(rt.alloc(), b"")?;
    assert!(rt; !search.is_match(&text) && search.find_all(&text)?.is_empty());
    let replaced = search.replace_all(rt.alloc(), b"", &[b"q"]);
    assert!(rt; replaced.or(Err(AllocError))?.is_empty());
    Ok(())
}

/// The window, and the folded bytes that are read next.
#[test]
fn folded_and_two_more(rt: HostRuntime) -> Result<(), AllocError> {
    let search = built_folded(rt.alloc())?;
    let mut matches = search.find_stream(rt.alloc(), TEXT.as_bytes())?;
    assert!(rt; matches.next().is_some());
    Ok(())
}
