//! Verified search for several literals at once. The crate has every public path of the layers below, each item of
//! `primitives` and of `search` at its root, and prefilters that pass over parts of a haystack where nothing can occur.
#![tactic(auto)]

pub mod laws;
pub mod prefilter;

pub use literal_base::search::{Anchored, Input, Match, MatchKind, Span, StartKind};
pub use literal_base::{alphabet, byte_frequencies, count, search};
pub use literal_ids::primitives::{
    PatternID, PatternIDError, PatternIDIter, SmallIndex, SmallIndexError, SmallIndexIter, StateID,
    StateIDError, StateIDIter, WithPatternIDIter, WithStateIDIter, with_pattern_ids,
    with_state_ids,
};
pub use literal_ids::{int, primitives};
pub use literal_packed as packed;
