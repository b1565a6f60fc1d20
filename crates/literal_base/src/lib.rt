//! Spans, matches, search inputs, byte sets, byte classes, byte ranks, counts of steps, and the definitions of the
//! answers of a search.
#![tactic(auto)]

pub mod alphabet;
pub mod byte_frequencies;
pub mod count;
pub mod laws;
pub mod packed;
pub mod search;

pub use search::{Anchored, Input, Match, MatchKind, Span, StartKind};
