//! Answers of collections of patterns, and of sums of windows.
ghost use Rattle.std.specs.Prelude.{◌≤◌, length};

use crate::case::Case;
use crate::refusal::Refusal;
use crate::told::{NONE, push_word};
use literal_prefilters::PatternID;
use literal_prefilters::count::Tally;
use literal_prefilters::packed::pattern::Patterns;
use literal_prefilters::packed::rabinkarp::Rolling;
use std::alloc::{AllocError, Global};

/// A collection of patterns, none of which may be empty.
pub fn patterns_of(alloc: Global, list: &[Vec<u8>]) -> Result<Patterns, Refusal> {
    let mut patterns = Patterns::new(alloc);
    for bytes in list {
        if bytes.is_empty() || patterns.len() >= PatternID::LIMIT {
            return Err(Refusal::Unmet);
        }
        patterns.add(bytes.as_slice())?;
    }
    Ok(patterns)
}

/// The number of patterns, and the order in which they are tried.
pub fn patterns(text: &mut String, alloc: Global, case: &Case<'_>) -> Result<(), Refusal> {
    let kind = case.kind()?.as_packed().ok_or(Refusal::NoCase)?;
    let mut patterns = patterns_of(alloc, case.patterns(alloc)?.as_slice())?;
    patterns.set_match_kind(kind)?;
    push_counts(text, &patterns)?;
    Ok(push_order(text, &patterns)?)
}

/// Writes the number of patterns, and their lengths.
fn push_counts(text: &mut String, patterns: &Patterns) -> Result<(), AllocError> {
    let len = patterns.len();
    let minimum_len = patterns.minimum_len();
    let total = patterns.total_pattern_bytes();
    write!(
        text,
        "len={len} minimum_len={minimum_len} total={total} order="
    )
}

/// Writes the identifiers in the order in which the patterns are tried.
fn push_order(text: &mut String, patterns: &Patterns) -> Result<(), AllocError> {
    let mut is_first = true;
    for (id, _) in patterns.iter() {
        if !is_first {
            text.push(',')?;
        }
        is_first = false;
        let number = id.as_usize();
        write!(text, "{number}")?;
    }
    Ok(())
}

/// The offsets of a haystack at which the first pattern is.
pub fn matches_at(text: &mut String, alloc: Global, case: &Case<'_>) -> Result<(), Refusal> {
    let ignore_case = case.ignores_case()?;
    let patterns = patterns_of(alloc, case.patterns(alloc)?.as_slice())?;
    let haystack = case.bytes(alloc, 4)?;
    push_places(text, &patterns, haystack.as_slice(), ignore_case)
}

/// Writes the offsets at which the first pattern is.
fn push_places(
    text: &mut String,
    patterns: &Patterns,
    haystack: &[u8],
    ignore_case: bool,
) -> Result<(), Refusal> {
    if patterns.is_empty() {
        return Err(Refusal::Unmet);
    }
    let mut tally = Tally::new();
    let mut before = "";
    for at in 0..=haystack.len() {
        if patterns.matches_at(PatternID::ZERO, haystack, at, ignore_case, &mut tally) {
            write!(text, "{before}{at}")?;
            before = " ";
        }
    }
    if before.is_empty() {
        push_word(text, NONE)?;
    }
    Ok(())
}

/// The sums of all windows of a length, one after another.
pub fn sums(text: &mut String, alloc: Global, case: &Case<'_>) -> Result<(), Refusal> {
    let len = case.number(1)?;
    let bytes = case.bytes(alloc, 2)?;
    if len == 0 || len > bytes.len() {
        return Err(Refusal::Unmet);
    }
    Ok(push_sums(text, bytes.as_slice(), len)?)
}

/// Writes the sums of all windows of a length.
fn push_sums(text: &mut String, bytes: &[u8], len: usize) -> Result<(), AllocError>
    requires some { 1 ≤ len }
    requires within { len ≤ length bytes.now }
{
    let mut tally = Tally::new();
    let mut rolling = Rolling::new(len);
    for byte in &bytes[..len] {
        rolling.push(*byte, &mut tally);
    }
    let mut value = rolling.value();
    write!(text, "{value}")?;
    for (old, new) in bytes.iter().zip(&bytes[len..]) {
        rolling.roll(*old, *new, &mut tally);
        value = rolling.value();
        write!(text, " {value}")?;
    }
    Ok(())
}
