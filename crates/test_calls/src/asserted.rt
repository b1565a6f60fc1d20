//! Assertions of tests for values of any type.
use std::alloc::{AllocError, Global};
use std::fmt::Debug;
use std::process::Abort;

/// The debug output of a value is not empty.
pub fn assert_prints<T: Debug>(rt: &impl Abort, alloc: Global, it: &T) -> Result<(), AllocError> {
    assert!(rt; !format!(in alloc; "{it:?}")?.is_empty());
    Ok(())
}
