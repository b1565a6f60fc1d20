//! Unicode's simple case folding of bytes, where it keeps the length in UTF-8, so that no offset changes; and searches
//! by it. Bytes that are no whole, valid character are unchanged.
#![tactic(auto)]

mod block;
mod fold;
mod foldings;
pub mod laws;
mod reader;
mod replace;
mod search;
mod text;

pub use fold::{fold_char, fold_in_place, fold_into};
pub use foldings::FOLDINGS;
pub use literal_search::{BuildError, Match, MatchKind, ReplaceError};
pub use reader::FoldedReader;
pub use search::FoldedSearch;
pub use text::FoldedText;
