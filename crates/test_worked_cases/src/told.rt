//! How answers are written.
use crate::refusal::Refusal;
use literal_prefilters::Match;
use std::alloc::AllocError;

/// The answer if nothing occurs.
pub const NONE: &str = "none";

/// The answer if there is no prefilter.
pub const NO_PREFILTER: &str = "no-prefilter";

/// The text before an answer that should equal the first one but does not.
pub const OTHERWISE: &str = " / ";

/// Writes an answer that should equal the text written so far.
pub fn push_also(text: &mut String, said: &str) -> Result<(), AllocError> {
    if text.is_empty() {
        return text.push_str(said);
    }
    if text.as_str() != said {
        text.push_str(OTHERWISE)?;
        text.push_str(said)?;
    }
    Ok(())
}

/// Writes a word.
pub fn push_word(text: &mut String, word: &str) -> Result<(), Refusal> {
    Ok(text.push_str(word)?)
}

/// Writes a match, or that there is none.
pub fn push_found(text: &mut String, found: Option<Match>) -> Result<(), AllocError> {
    match found {
        Some(found) => push_match(text, found),
        None => text.push_str(NONE),
    }
}

/// Writes the match of another call, which should equal the first one.
pub fn push_other(
    text: &mut String,
    first: Option<Match>,
    other: Option<Match>,
) -> Result<(), AllocError> {
    if other == first {
        return Ok(());
    }
    text.push_str(OTHERWISE)?;
    push_found(text, other)
}

/// Writes two lists of matches that should be equal.
pub fn push_lists(text: &mut String, list: &[Match], other: &[Match]) -> Result<(), AllocError> {
    push_list(text, list)?;
    if list != other {
        text.push_str(OTHERWISE)?;
        push_list(text, other)?;
    }
    Ok(())
}

/// Writes matches, one after another, or that there is none.
pub fn push_list(text: &mut String, list: &[Match]) -> Result<(), AllocError> {
    let Some((first, others)) = list.split_first() else {
        return text.push_str(NONE);
    };
    push_match(text, *first)?;
    for found in others {
        text.push_str("; ")?;
        push_match(text, *found)?;
    }
    Ok(())
}

/// Writes a match.
fn push_match(text: &mut String, found: Match) -> Result<(), AllocError> {
    let pattern = found.pattern().as_usize();
    let start = found.start();
    let end = found.end();
    write!(text, "{pattern} {start} {end}")
}
