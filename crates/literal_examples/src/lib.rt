//! Parts of programs to copy. Each is proved only from public contracts, laws and the lemmas for callers, which shows
//! that these suffice. Each is run once in `test_calls` or `test_search_calls`, since a crate with tests is proved once
//! more with them.
#![tactic(auto)]

pub mod confirmed;
pub mod counts;
pub mod frequencies;
pub mod keywords;
pub mod lexer;
pub mod redact;
pub mod replacing;
pub mod router;
pub mod stepping;
pub mod tokens;
pub mod word_list;
pub mod words;
