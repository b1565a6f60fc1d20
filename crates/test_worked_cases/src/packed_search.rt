//! Answers of the packed search and its builder.
use crate::case::{Case, Text};
use crate::refusal::Refusal;
use crate::told::{NONE, OTHERWISE, push_found, push_lists, push_other, push_word};
use literal_prefilters::Match;
use literal_prefilters::count::Tally;
use literal_prefilters::packed::{Builder, Config, Searcher};
use std::alloc::{AllocError, Global};

/// The answer if there is no searcher.
const NO_SEARCHER: &str = "no-searcher";

/// The configuration of the case.
fn config_of(case: &Case<'_>) -> Result<Config, Refusal> {
    let mut config = Config::new();
    config.match_kind(case.kind()?.as_packed().ok_or(Refusal::NoCase)?);
    if case.field(2)? != "kept" {
        let limit = case.number(2)?;
        if limit < 1 || limit > Config::MAX_PATTERN_LIMIT {
            return Err(Refusal::Unmet);
        }
        config.pattern_limit(limit);
    }
    Ok(config)
}

/// A builder with these patterns.
fn builder_with(
    alloc: Global,
    config: &Config,
    patterns: &[Vec<u8>],
) -> Result<Builder, AllocError> {
    let mut builder = config.builder(alloc);
    for pattern in patterns {
        builder.add(pattern.as_slice())?;
    }
    Ok(builder)
}

/// The lengths of a builder's patterns, and whether it builds a searcher; the leftmost match in a span, by all calls;
/// or all matches, by all calls.
pub fn packed(text: &mut String, alloc: Global, case: &Case<'_>) -> Result<(), Refusal> {
    let config = config_of(case)?;
    let builder = builder_with(alloc, &config, case.patterns(alloc)?.as_slice())?;
    if case.call() == "builder" {
        push_lengths(text, &builder)?;
    }
    match builder.build()? {
        Some(searcher) => push_answer(text, alloc, case, &searcher),
        None => push_word(
            text,
            if case.call() == "builder" {
                NONE
            } else {
                NO_SEARCHER
            },
        ),
    }
}

/// Writes the lengths of a builder's patterns.
fn push_lengths(text: &mut String, builder: &Builder) -> Result<(), AllocError> {
    let len = builder.len();
    let minimum_len = builder.minimum_len();
    write!(text, "len={len} minimum_len={minimum_len} build=")
}

/// Writes the answer of a searcher to a case.
fn push_answer(
    text: &mut String,
    alloc: Global,
    case: &Case<'_>,
    searcher: &Searcher,
) -> Result<(), Refusal> {
    if case.call() == "builder" {
        return push_word(text, "some");
    }
    let asked = case.text(alloc)?;
    match case.call() {
        "find_in" => push_leftmost(text, &asked, searcher)?,
        _ => push_matches(text, alloc, asked.haystack.as_slice(), searcher)?,
    }
    Ok(())
}

/// Writes the leftmost match in a span.
fn push_leftmost(text: &mut String, asked: &Text, searcher: &Searcher) -> Result<(), AllocError> {
    let (haystack, tally) = (asked.haystack.as_slice(), &mut Tally::new());
    let first = searcher.find_in(haystack, asked.span);
    let counted = searcher.find_in_counted(haystack, asked.span, tally);
    push_found(text, first)?;
    if counted != first {
        text.push_str(OTHERWISE)?;
        push_found(text, counted)?;
    }
    Ok(())
}

/// Writes all matches, and the answer of `find` if that is not the first of them.
fn push_matches(
    text: &mut String,
    alloc: Global,
    haystack: &[u8],
    searcher: &Searcher,
) -> Result<(), AllocError> {
    let given = searcher.find_iter(haystack).collect::<Vec<Match>>(alloc)?;
    let listed = searcher.find_all(haystack, &mut Tally::new())?;
    push_lists(text, given.as_slice(), listed.as_slice())?;
    push_other(text, given.first().copied(), searcher.find(haystack))
}
