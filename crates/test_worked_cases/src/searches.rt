//! Answers of `Search` and of confirming searches.
use crate::case::{Case, Query, Text};
use crate::refusal::Refusal;
use crate::told::{
    NO_PREFILTER, OTHERWISE, push_found, push_list, push_lists, push_other, push_word,
};
use literal_prefilters::Match;
use literal_prefilters::count::Tally;
use literal_prefilters::prefilter::ConfirmingSearch;
use literal_search::{BuildError, Search};
use std::alloc::{AllocError, Global};

/// The answer if there is no search.
pub const NO_SEARCH: &str = "no-search";

/// The patterns, lent.
pub fn lent<'p>(alloc: Global, patterns: &'p [Vec<u8>]) -> Result<Vec<&'p [u8]>, AllocError> {
    let mut bytes = Vec::new(alloc);
    for pattern in patterns {
        bytes.push(pattern.as_slice())?;
    }
    Ok(bytes)
}

/// What is built, or nothing if no search can be built.
pub fn if_built<T: Drop>(built: Result<T, BuildError>) -> Result<Option<T>, Refusal> {
    match built {
        Ok(search) => Ok(Some(search)),
        Err(BuildError::OutOfMemory) => Err(Refusal::OutOfMemory),
        Err(_) => Ok(None),
    }
}

/// A search for the patterns.
fn build(alloc: Global, query: &Query) -> Result<Option<Search>, Refusal> {
    let kind = query.packed_kind()?;
    let bytes = lent(alloc, query.patterns.as_slice())?;
    let bytes = bytes.iter().copied();
    if_built(Search::new(alloc, kind, query.ignore_case, bytes))
}

/// The same for those of a case.
fn search_for(alloc: Global, case: &Case<'_>) -> Result<Option<Search>, Refusal> {
    let query = case.query(alloc)?;
    build(alloc, &query)
}

/// All matches, by all calls of a `Search`, or in a span the leftmost one or all.
pub fn search(text: &mut String, alloc: Global, case: &Case<'_>) -> Result<(), Refusal> {
    match search_for(alloc, case)? {
        Some(search) => push_answer(text, alloc, case, &search),
        None => push_word(text, NO_SEARCH),
    }
}

/// Writes the answer of a search to a case.
fn push_answer(
    text: &mut String,
    alloc: Global,
    case: &Case<'_>,
    search: &Search,
) -> Result<(), Refusal> {
    let asked = case.text(alloc)?;
    match case.call() {
        "search" => push_matches(text, alloc, asked.haystack.as_slice(), search)?,
        "search_in" => push_leftmost(text, &asked, search)?,
        "starts" => push_starts(text, alloc, &asked, search)?,
        "starts_in" => push_list(text, starts_in(alloc, &asked, search)?.as_slice())?,
        _ => push_all_in(text, alloc, &asked, search)?,
    }
    Ok(())
}

/// Writes all matches, and the answers of `find` and `is_match` if they differ.
fn push_matches(
    text: &mut String,
    alloc: Global,
    haystack: &[u8],
    search: &Search,
) -> Result<(), AllocError> {
    let given = search.find_iter(haystack).collect::<Vec<Match>>(alloc)?;
    let listed = search.find_all(haystack)?;
    push_lists(text, given.as_slice(), listed.as_slice())?;
    let first = search.find(haystack);
    push_other(text, given.first().copied(), first)?;
    if search.is_match(haystack) != first.is_some() {
        text.push_str(" / is_match")?;
    }
    Ok(())
}

/// Writes the leftmost match in a span.
fn push_leftmost(text: &mut String, asked: &Text, search: &Search) -> Result<(), AllocError> {
    push_found(text, search.find_in(asked.haystack.as_slice(), asked.span))
}

/// Writes all matches in a span, by a list and one after another.
fn push_all_in(
    text: &mut String,
    alloc: Global,
    asked: &Text,
    search: &Search,
) -> Result<(), AllocError> {
    let haystack = asked.haystack.as_slice();
    let all = search.find_all_in(haystack, asked.span)?;
    let given = search
        .find_iter_in(haystack, asked.span)
        .collect::<Vec<Match>>(alloc)?;
    push_lists(text, all.as_slice(), given.as_slice())
}

/// The match at each offset of a span at which a pattern begins.
fn starts_in(alloc: Global, asked: &Text, search: &Search) -> Result<Vec<Match>, AllocError> {
    let starts = search.starts_in(asked.haystack.as_slice(), asked.span);
    starts.collect(alloc)
}

/// Writes the same for a whole haystack, by both calls.
fn push_starts(
    text: &mut String,
    alloc: Global,
    asked: &Text,
    search: &Search,
) -> Result<(), AllocError> {
    let given = search
        .starts(asked.haystack.as_slice())
        .collect::<Vec<Match>>(alloc)?;
    let in_span = starts_in(alloc, asked, search)?;
    push_lists(text, given.as_slice(), in_span.as_slice())
}

/// The confirming search for the patterns.
fn build_confirming(alloc: Global, query: &Query) -> Result<Option<ConfirmingSearch>, Refusal> {
    let kind = query.packed_kind()?;
    let bytes = lent(alloc, query.patterns.as_slice())?;
    let bytes = bytes.iter().copied();
    Ok(ConfirmingSearch::build(alloc, kind, query.ignore_case, bytes)?)
}

/// The same for those of a case.
fn confirming_for(alloc: Global, case: &Case<'_>) -> Result<Option<ConfirmingSearch>, Refusal> {
    let query = case.query(alloc)?;
    build_confirming(alloc, &query)
}

/// The leftmost match in a span, by both calls of a confirming search; or all matches.
pub fn confirm(text: &mut String, alloc: Global, case: &Case<'_>) -> Result<(), Refusal> {
    match confirming_for(alloc, case)? {
        Some(search) => push_confirmed(text, alloc, case, &search),
        None => push_word(text, NO_PREFILTER),
    }
}

/// Writes the answer of a confirming search to a case.
fn push_confirmed(
    text: &mut String,
    alloc: Global,
    case: &Case<'_>,
    search: &ConfirmingSearch,
) -> Result<(), Refusal> {
    let asked = case.text(alloc)?;
    match case.call() {
        "confirm" => push_leftmost_confirmed(text, &asked, search)?,
        _ => push_all_confirmed(text, asked.haystack.as_slice(), search)?,
    }
    Ok(())
}

/// Writes the leftmost match in a span.
fn push_leftmost_confirmed(
    text: &mut String,
    asked: &Text,
    search: &ConfirmingSearch,
) -> Result<(), AllocError> {
    let (haystack, tally) = (asked.haystack.as_slice(), &mut Tally::new());
    let first = search.find_in(haystack, asked.span);
    let counted = search.find_in_counted(haystack, asked.span, tally);
    push_found(text, first)?;
    if counted != first {
        text.push_str(OTHERWISE)?;
        push_found(text, counted)?;
    }
    Ok(())
}

/// Writes all matches.
fn push_all_confirmed(
    text: &mut String,
    haystack: &[u8],
    search: &ConfirmingSearch,
) -> Result<(), AllocError> {
    let all = search.find_all(haystack, &mut Tally::new())?;
    push_list(text, all.as_slice())
}
