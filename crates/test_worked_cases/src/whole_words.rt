//! Answers of `WholeWords`.
use crate::case::{Case, Query, Text};
use crate::refusal::Refusal;
use crate::searches::{NO_SEARCH, if_built, lent};
use crate::told::{push_lists, push_other, push_word};
use literal_prefilters::Match;
use literal_search::WholeWords;
use std::alloc::{AllocError, Global};

/// A search for the patterns as whole words.
fn build(alloc: Global, query: &Query) -> Result<Option<WholeWords>, Refusal> {
    let kind = query.packed_kind()?;
    let bytes = lent(alloc, query.patterns.as_slice())?;
    let bytes = bytes.iter().copied();
    let word_bytes = WholeWords::ascii_word_bytes();
    if_built(WholeWords::new(alloc, kind, query.ignore_case, word_bytes, bytes))
}

/// The same for those of a case.
fn words_for(alloc: Global, case: &Case<'_>) -> Result<Option<WholeWords>, Refusal> {
    let query = case.query(alloc)?;
    build(alloc, &query)
}

/// All whole words of a haystack, or of a span of it, by all calls.
pub fn words(text: &mut String, alloc: Global, case: &Case<'_>) -> Result<(), Refusal> {
    let Some(words) = words_for(alloc, case)? else {
        return push_word(text, NO_SEARCH);
    };
    let asked = case.text(alloc)?;
    match case.call() {
        "words" => push_words(text, alloc, asked.haystack.as_slice(), &words)?,
        _ => push_words_in(text, alloc, &asked, &words)?,
    }
    Ok(())
}

/// Writes all whole words, and the answers of `find` and `is_match` if they differ.
fn push_words(
    text: &mut String,
    alloc: Global,
    haystack: &[u8],
    words: &WholeWords,
) -> Result<(), AllocError> {
    let given = words.find_iter(haystack).collect::<Vec<Match>>(alloc)?;
    let listed = words.find_all(haystack)?;
    push_lists(text, given.as_slice(), listed.as_slice())?;
    let first = words.find(haystack);
    push_other(text, given.first().copied(), first)?;
    if words.is_match(haystack) != first.is_some() {
        text.push_str(" / is_match")?;
    }
    Ok(())
}

/// Writes all whole words of a span, and the answer of `find_in` if it differs.
fn push_words_in(
    text: &mut String,
    alloc: Global,
    asked: &Text,
    words: &WholeWords,
) -> Result<(), AllocError> {
    let haystack = asked.haystack.as_slice();
    let given = words
        .find_iter_in(haystack, asked.span)
        .collect::<Vec<Match>>(alloc)?;
    let listed = words.find_all_in(haystack, asked.span)?;
    push_lists(text, given.as_slice(), listed.as_slice())?;
    let first = words.find_in(haystack, asked.span);
    push_other(text, given.first().copied(), first)
}
