//! Answers of `Overlapping`.
use crate::case::{Case, Query, Text};
use crate::refusal::Refusal;
use crate::searches::{NO_SEARCH, if_built, lent};
use crate::told::{NONE, push_list, push_lists, push_word};
use literal_prefilters::Match;
use literal_search::Overlapping;
use std::alloc::{AllocError, Global};

/// A search for every occurrence of the patterns.
fn build(alloc: Global, query: &Query) -> Result<Option<Overlapping>, Refusal> {
    let bytes = lent(alloc, query.patterns.as_slice())?;
    let bytes = bytes.iter().copied();
    if_built(Overlapping::new(alloc, query.ignore_case, bytes))
}

/// The same for those of a case.
fn search_for(alloc: Global, case: &Case<'_>) -> Result<Option<Overlapping>, Refusal> {
    let query = case.query(alloc)?;
    build(alloc, &query)
}

/// Every occurrence, by both calls; every occurrence in a span; or the earliest end there.
pub fn overlapping(text: &mut String, alloc: Global, case: &Case<'_>) -> Result<(), Refusal> {
    match search_for(alloc, case)? {
        Some(search) => push_answer(text, alloc, case, &search),
        None => push_word(text, NO_SEARCH),
    }
}

/// Writes the answer of a search to a case.
fn push_answer(
    text: &mut String,
    alloc: Global,
    case: &Case<'_>,
    search: &Overlapping,
) -> Result<(), Refusal> {
    let asked = case.text(alloc)?;
    let listed = all_in(alloc, &asked, search)?;
    match case.call() {
        "overlapping" => push_all(
            text,
            alloc,
            asked.haystack.as_slice(),
            search,
            listed.as_slice(),
        )?,
        "overlapping_in" => push_list(text, listed.as_slice())?,
        _ => push_earliest(text, &asked, search)?,
    }
    Ok(())
}

/// Writes the earliest end in a span.
fn push_earliest(text: &mut String, asked: &Text, search: &Overlapping) -> Result<(), AllocError> {
    match search.earliest_end(asked.haystack.as_slice(), asked.span) {
        Some(end) => write!(text, "{end}"),
        None => text.push_str(NONE),
    }
}

/// Every occurrence in a span.
fn all_in(alloc: Global, asked: &Text, search: &Overlapping) -> Result<Vec<Match>, AllocError> {
    let matches = search.find_overlapping_in(asked.haystack.as_slice(), asked.span);
    matches.collect(alloc)
}

/// Writes every occurrence in a haystack, and the list of them if that is another one.
fn push_all(
    text: &mut String,
    alloc: Global,
    haystack: &[u8],
    search: &Overlapping,
    listed: &[Match],
) -> Result<(), AllocError> {
    let given = search
        .find_overlapping_iter(haystack)
        .collect::<Vec<Match>>(alloc)?;
    push_lists(text, given.as_slice(), listed)
}
