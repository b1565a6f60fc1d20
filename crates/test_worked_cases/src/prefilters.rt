//! Answers of prefilters.
use crate::case::{Case, Query, Text};
use crate::refusal::Refusal;
use crate::told::{NO_PREFILTER, NONE, OTHERWISE, push_also, push_found, push_word};
use literal_prefilters::Match;
use literal_prefilters::count::Tally;
use literal_prefilters::prefilter::{Builder, Candidate, Prefilter, PrefilterI};
use std::alloc::{AllocError, Global};

/// The prefilter for the patterns.
fn build(alloc: Global, query: &Query) -> Result<Option<Prefilter>, AllocError> {
    let mut builder = Builder::new(alloc, query.kind).ascii_case_insensitive(query.ignore_case);
    for pattern in &query.patterns {
        builder.add(pattern.as_slice())?;
    }
    builder.build()
}

/// The same for those of a case.
fn prefilter_for(alloc: Global, case: &Case<'_>) -> Result<Option<Prefilter>, Refusal> {
    let query = case.query(alloc)?;
    Ok(build(alloc, &query)?)
}

/// The kind of prefilter that is built; its answer for a span; or both, of the prefilter and of a copy.
pub fn prefilter(text: &mut String, alloc: Global, case: &Case<'_>) -> Result<(), Refusal> {
    match prefilter_for(alloc, case)? {
        Some(prefilter) => push_answer(text, alloc, case, &prefilter),
        None => push_word(text, NO_PREFILTER),
    }
}

/// Writes the answer of a prefilter to a case.
fn push_answer(
    text: &mut String,
    alloc: Global,
    case: &Case<'_>,
    prefilter: &Prefilter,
) -> Result<(), Refusal> {
    if case.call() == "choice" {
        return Ok(push_kind(text, prefilter)?);
    }
    let asked = case.text(alloc)?;
    match case.call() {
        "candidate" => push_candidates(text, &asked, prefilter)?,
        _ => push_both(text, alloc, &asked, prefilter)?,
    }
    Ok(())
}

/// The match of a prefilter's answer, or an offset at which one may begin.
type Said = (Option<Match>, Option<usize>);

/// The parts of a candidate.
fn said(candidate: Candidate) -> Said {
    match candidate {
        Candidate::None => (None, None),
        Candidate::Match(found) => (Some(found), None),
        Candidate::PossibleStartOfMatch(start) => (None, Some(start)),
    }
}

/// Writes a candidate.
fn push_said(text: &mut String, said: Said) -> Result<(), AllocError> {
    match said {
        (None, None) => text.push_str(NONE),
        (None, Some(start)) => write!(text, "possible {start}"),
        (found, _) => {
            text.push_str("match ")?;
            push_found(text, found)
        }
    }
}

/// Writes the answer of a prefilter for a span, by each call.
fn push_candidates(
    text: &mut String,
    asked: &Text,
    prefilter: &Prefilter,
) -> Result<(), AllocError> {
    let (haystack, tally) = (asked.haystack.as_slice(), &mut Tally::new());
    let first = said(prefilter.find_in(haystack, asked.span));
    let counted = said(prefilter.find_in_counted(haystack, asked.span, tally));
    let by_trait = said(PrefilterI::find_in(prefilter, haystack, asked.span, tally));
    push_said(text, first)?;
    for other in [counted, by_trait] {
        if other != first {
            text.push_str(OTHERWISE)?;
            push_said(text, other)?;
        }
    }
    Ok(())
}

/// Writes the kind of a prefilter.
fn push_kind(text: &mut String, prefilter: &Prefilter) -> Result<(), AllocError> {
    write!(text, "{prefilter:?}")
}

/// Writes the kind of a prefilter, and its answer for a span.
fn push_told(text: &mut String, asked: &Text, prefilter: &Prefilter) -> Result<(), AllocError> {
    push_kind(text, prefilter)?;
    text.push_str(", ")?;
    push_candidates(text, asked, prefilter)
}

/// Writes the same for a prefilter and for a copy of it.
fn push_both(
    text: &mut String,
    alloc: Global,
    asked: &Text,
    prefilter: &Prefilter,
) -> Result<(), AllocError> {
    push_told(text, asked, prefilter)?;
    let mut of_copy = String::new(alloc);
    push_told(&mut of_copy, asked, &prefilter.try_clone()?)?;
    push_also(text, of_copy.as_str())
}

/// The kind of prefilter that is built after each pattern.
pub fn choices(text: &mut String, alloc: Global, case: &Case<'_>) -> Result<(), Refusal> {
    let query = case.query(alloc)?;
    Ok(push_choices(text, alloc, &query)?)
}

/// Writes the kind of prefilter that a builder builds after each pattern.
fn push_choices(text: &mut String, alloc: Global, query: &Query) -> Result<(), AllocError> {
    let mut builder = Builder::new(alloc, query.kind).ascii_case_insensitive(query.ignore_case);
    let mut before = "";
    for pattern in &query.patterns {
        builder.add(pattern.as_slice())?;
        text.push_str(before)?;
        push_built(text, &builder)?;
        before = ", ";
    }
    Ok(())
}

/// Writes the kind of prefilter that a builder builds.
fn push_built(text: &mut String, builder: &Builder) -> Result<(), AllocError> {
    match builder.build()? {
        Some(prefilter) => push_kind(text, &prefilter),
        None => text.push_str(NO_PREFILTER),
    }
}
