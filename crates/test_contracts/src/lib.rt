//! Callers of single calls, or of a few calls together. Each is proved only from public contracts, laws and the lemmas
//! for callers, which tests that these suffice. Each is run once in `test_calls`.
#![tactic(auto)]

pub mod classes;
pub mod copies;
pub mod given;
pub mod inputs;
pub mod uses;
pub mod uses_of_ids;
pub mod uses_of_prefilters;
