//! Tests that each part of a program does what its reader expects.
use crate::made::{first_of, longest_of};
use literal_examples::frequencies::frequencies;
use literal_examples::keywords::{find_from, is_clean};
use literal_examples::lexer::lex;
use literal_examples::redact::{redact, redact_stream};
use literal_examples::router::route;
use literal_examples::tokens::{Token, tokens};
use literal_examples::word_list::WordList;
use literal_search::{Match, MatchKind, PatternID, Search, Span, Tally};
use std::alloc::{AllocError, Global};
use std::test::Fail;

const SENTENCE: &[u8] = b"Nobody likes maple in their apple flavored Snapple.";

/// Whether two lines have none of the keywords.
fn are_clean(keywords: &Search) -> [bool; 2] {
    [
        is_clean(keywords, b"all is well"),
        is_clean(keywords, b"A Warning: too late"),
    ]
}

/// The matches in the sentence from each of two offsets on.
fn found_from(fruits: &Search) -> [Option<Match>; 2] {
    [
        find_from(fruits, SENTENCE, 14),
        find_from(fruits, SENTENCE, 46),
    ]
}

#[test]
fn filters_lines_and_finds_from_an_offset(rt: HostRuntime) -> Result<(), Fail> {
    let keywords = first_of(rt.alloc(), &[b"error", b"warning"])?;
    assert!(rt; are_clean(&keywords) == [true, false]);
    let fruits = first_of(rt.alloc(), &[b"apple", b"maple"])?;
    let apple = Match::must(0, Span { start: 28, end: 33 });
    assert!(rt; found_from(&fruits) == [Some(apple), None]);
    Ok(())
}

fn redacted(alloc: Global, words: &Search) -> Result<Vec<u8>, AllocError> {
    redact(alloc, words, b"Apple or maple?")
}

#[test]
fn redacts_words(rt: HostRuntime) -> Result<(), Fail> {
    let words = first_of(rt.alloc(), &[b"apple", b"maple"])?;
    let text = redacted(rt.alloc(), &words)?;
    assert!(rt; text.as_slice() == b"***** or *****?".as_slice());
    Ok(())
}

#[test]
fn redacts_a_stream(rt: HostRuntime) -> Result<(), Fail> {
    let words = first_of(rt.alloc(), &[b"apple", b"maple"])?;
    let (mut text, mut written) = (b"Apple or maple?".as_slice(), Vec::new(rt.alloc()));
    redact_stream(rt.alloc(), &words, &mut text, &mut written)?;
    assert!(rt; written.as_slice() == b"***** or *****?".as_slice());
    Ok(())
}

fn cut(alloc: Global, signs: &Search) -> Result<Vec<Token>, AllocError> {
    tokens(alloc, signs, b"a==b")
}

/// The offsets of a token, and its word.
fn told(token: &Token) -> (usize, usize, Option<PatternID>) {
    (token.span.start, token.span.end, token.pattern)
}

#[test]
fn cuts_into_tokens(rt: HostRuntime) -> Result<(), Fail> {
    let signs = first_of(rt.alloc(), &[b"==", b"="])?;
    let all = cut(rt.alloc(), &signs)?;
    assert!(rt; all.len() == 3);
    assert!(rt; told(&all[0]) == (0, 1, None) && told(&all[2]) == (3, 4, None));
    assert!(rt; told(&all[1]) == (1, 3, Some(PatternID::ZERO)));
    Ok(())
}

/// The offset up to which a text is cut into words, and these words.
fn lexed(alloc: Global, search: &Search, text: &[u8]) -> Result<(usize, Vec<Match>), AllocError> {
    let lexed = lex(alloc, search, text, &mut Tally::new())?;
    Ok((lexed.end, lexed.tokens))
}

#[test]
fn lexes_up_to_what_is_no_word(rt: HostRuntime) -> Result<(), Fail> {
    let search = longest_of(rt.alloc(), &[b"<", b"<=", b"let", b" ", b"x"])?;
    let (end, words) = lexed(rt.alloc(), &search, b"let x<=x")?;
    assert!(rt; end == 8 && words.len() == 5);
    assert!(rt; words[3] == Match::must(1, Span { start: 5, end: 7 }));
    let (end, words) = lexed(rt.alloc(), &search, b"x lex")?;
    assert!(rt; end == 2 && words.len() == 2);
    Ok(())
}

/// The routes of three paths.
fn routes(search: &Search) -> [Option<PatternID>; 3] {
    if search.match_kind() != MatchKind::LeftmostLongest {
        return [None; 3];
    }
    [
        route(search, b"/api/users/7"),
        route(search, b"/index"),
        route(search, b"see /api/"),
    ]
}

#[test]
fn routes_by_the_longest_prefix(rt: HostRuntime) -> Result<(), Fail> {
    let search = longest_of(rt.alloc(), &[b"/", b"/api/", b"/api/users/"])?;
    assert!(rt; routes(&search) == [Some(PatternID::must(2)), Some(PatternID::ZERO), None]);
    Ok(())
}

fn counted(alloc: Global, words: &Search) -> Result<Vec<usize>, AllocError> {
    frequencies(alloc, words, b"To be, or not to be")
}

#[test]
fn counts_words(rt: HostRuntime) -> Result<(), Fail> {
    let words = first_of(rt.alloc(), &[b"to", b"be"])?;
    assert!(rt; counted(rt.alloc(), &words)?.as_slice() == [2, 2].as_slice());
    Ok(())
}

/// The first word of a list in a text, and how many words there are.
fn listed(alloc: Global) -> Result<(Option<Match>, usize), Fail> {
    let list = WordList::new(alloc, &[b"ab", b"abc"])?;
    let all = list.find_all(b"AB abc ab")?;
    Ok((list.find(b"AB abc ab"), all.len()))
}

#[test]
fn finds_words_of_a_list(rt: HostRuntime) -> Result<(), Fail> {
    let (first, count) = listed(rt.alloc())?;
    assert!(rt; first == Some(Match::must(1, Span { start: 3, end: 6 })));
    assert!(rt; count == 2);
    Ok(())
}
