//! The answers to cases.
use crate::case::Case;
use crate::refusal::Refusal;
use crate::told::push_also;
use crate::{
    classes, identifiers, numbers, overlapping, packed_search, pattern_lists, prefilters, searches,
    spans, tables, whole_words,
};
use std::alloc::{AllocError, Global};

/// Writes a line for each line.
pub fn push_answers(text: &mut String, alloc: Global, lines: &str) -> Result<(), AllocError> {
    for line in lines.lines() {
        push_answer(text, alloc, line)?;
        text.push('\n')?;
    }
    Ok(())
}

/// Writes the answer to the case of a line, or why it has none, which is also returned.
pub fn push_answer(
    text: &mut String,
    alloc: Global,
    line: &str,
) -> Result<Option<Refusal>, AllocError> {
    // what is written before a case is refused is no answer
    let mut said = String::new(alloc);
    let refusal = match answer_of_kinds(&mut said, alloc, Case::of(line)) {
        Ok(()) => {
            text.push_str(said.as_str())?;
            return Ok(None);
        }
        Err(refusal) => refusal,
    };
    match refusal {
        Refusal::NoCase => text.push_str("no case")?,
        Refusal::Unmet => text.push_str("unmet")?,
        Refusal::OutOfMemory => return Err(AllocError),
    }
    Ok(Some(refusal))
}

/// Writes the answer to a case for each kind of match that it names.
fn answer_of_kinds(text: &mut String, alloc: Global, case: Case<'_>) -> Result<(), Refusal> {
    for kind in case.kinds() {
        let mut said = String::new(alloc);
        answer(&mut said, alloc, &case.with_kind(kind))?;
        push_also(text, said.as_str())?;
    }
    Ok(())
}

/// Writes the answer to a case.
fn answer(text: &mut String, alloc: Global, case: &Case<'_>) -> Result<(), Refusal> {
    match case.call() {
        "find_in" | "find_iter" | "builder" => packed_search::packed(text, alloc, case),
        "search" | "search_in" | "search_all_in" | "starts" | "starts_in" => searches::search(
            text, alloc, case,
        ),
        "words" | "words_in" => whole_words::words(text, alloc, case),
        "overlapping" | "overlapping_in" | "earliest_end" => overlapping::overlapping(
            text, alloc, case,
        ),
        "confirm" | "confirm_all" => searches::confirm(text, alloc, case),
        "candidate" | "choice" | "prefilter" => prefilters::prefilter(text, alloc, case),
        "choices" => prefilters::choices(text, alloc, case),
        _ => answer_of_parts(text, alloc, case),
    }
}

/// Writes the answer to a case without a search for patterns.
fn answer_of_parts(text: &mut String, alloc: Global, case: &Case<'_>) -> Result<(), Refusal> {
    match case.call() {
        "tables" => tables::tables(text, alloc, case),
        "scan" => tables::scan(text, alloc, case),
        "patterns" => pattern_lists::patterns(text, alloc, case),
        "matches_at" => pattern_lists::matches_at(text, alloc, case),
        "sums" => pattern_lists::sums(text, alloc, case),
        "classes" => classes::of_ranges(text, alloc, case),
        "setclasses" => classes::of_bytes(text, alloc, case),
        "class_of" => classes::of_some(text, alloc, case),
        "runs" => classes::runs(text, alloc, case),
        "opposite" => numbers::opposite(text, alloc, case),
        _ => answer_of_values(text, case),
    }
}

/// Writes the answer to a case of plain values.
fn answer_of_values(text: &mut String, case: &Case<'_>) -> Result<(), Refusal> {
    match case.call() {
        "ranks" => numbers::ranks(text, case),
        "int" => numbers::int(text, case),
        "ids" => identifiers::ids(text, case),
        "span" => spans::span(text, case),
        "span_contains" => spans::span_contains(text, case),
        "input" => spans::input(text, case),
        _ => Err(Refusal::NoCase),
    }
}
