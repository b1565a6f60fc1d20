//! Identifiers, and conversions between integers.
#![tactic(auto)]

pub mod int;
pub mod laws;
pub mod primitives;

pub use primitives::{
    PatternID, PatternIDError, PatternIDIter, SmallIndex, SmallIndexError, SmallIndexIter, StateID,
    StateIDError, StateIDIter, WithPatternIDIter, WithStateIDIter, with_pattern_ids,
    with_state_ids,
};
