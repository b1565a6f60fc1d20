//! Why a case has no answer of a call.
use std::alloc::{AllocError, AllocFailed};

/// Why a case has no answer of a call.
#[derive(Clone, Copy, Debug, PartialEq, Eq)]
pub enum Refusal {
    /// The line is not a valid case.
    NoCase,
    /// The case does not meet a condition of the call.
    Unmet,
    /// A request for memory was refused.
    OutOfMemory,
}

/// [`Refusal::OutOfMemory`].
impl From<AllocError> for Refusal {
    fn from(_error: AllocError) -> Refusal {
        Refusal::OutOfMemory
    }
}

/// [`Refusal::OutOfMemory`].
impl<T: Drop> From<AllocFailed<T>> for Refusal {
    fn from(_error: AllocFailed<T>) -> Refusal {
        Refusal::OutOfMemory
    }
}
