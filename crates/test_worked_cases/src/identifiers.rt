//! Answers of identifiers.
use crate::case::Case;
use crate::refusal::Refusal;
use literal_prefilters::{PatternID, SmallIndex, StateID};
use std::alloc::AllocError;
use std::fmt::{Debug, Display};

/// The identifiers of each type with a number.
pub fn ids(text: &mut String, case: &Case<'_>) -> Result<(), Refusal> {
    let number = case.number(1)?;
    push_made(text, SmallIndex::new(number))?;
    text.push_str("; ")?;
    push_made(text, PatternID::new(number))?;
    text.push_str("; ")?;
    push_made(text, StateID::new(number))?;
    Ok(())
}

/// Writes an identifier, or the error.
fn push_made<T: Debug + Drop, E: Display + Drop>(
    text: &mut String,
    made: Result<T, E>,
) -> Result<(), AllocError> {
    match made {
        Ok(value) => write!(text, "ok {value:?}"),
        Err(error) => write!(text, "err {error}"),
    }
}
