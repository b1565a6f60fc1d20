//! Answers of spans and inputs.
use crate::case::Case;
use crate::refusal::Refusal;
use literal_prefilters::{Input, Span};

/// The span of two numbers.
fn span_of(case: &Case<'_>) -> Result<Span, Refusal> {
    Ok(Span {
        start: case.number(1)?,
        end: case.number(2)?,
    })
}

/// The properties of a span.
pub fn span(text: &mut String, case: &Case<'_>) -> Result<(), Refusal> {
    let span = span_of(case)?;
    let (len, is_empty, range) = (span.len(), span.is_empty(), span.range());
    let (start, end) = (range.start, range.end);
    Ok(write!(
        text,
        "{span:?} len={len} is_empty={is_empty} range={start}..{end}"
    )?)
}

/// Whether a span contains an offset.
pub fn span_contains(text: &mut String, case: &Case<'_>) -> Result<(), Refusal> {
    let contains = span_of(case)?.contains(case.number(3)?);
    Ok(write!(text, "{contains}")?)
}

/// The bounds of an input of six bytes after its span was set, and whether the search is over.
pub fn input(text: &mut String, case: &Case<'_>) -> Result<(), Refusal> {
    let span = span_of(case)?;
    if span.end > 6 || span.start > span.end + 1 {
        return Err(Refusal::Unmet);
    }
    let input = Input::new(b"foobar").span(span);
    let (range, is_done) = (input.get_range(), input.is_done());
    let (start, end) = (range.start, range.end);
    Ok(write!(text, "{start}..{end} is_done={is_done}")?)
}
