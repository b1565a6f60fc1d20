//! Identifiers: numbers that fit a `u32` and an `i32`. So they are small in memory, and any number of them fits a
//! `usize`.

mod pattern_id;
mod small_index;
mod state_id;

pub use pattern_id::{
    PatternID, PatternIDError, PatternIDIter, WithPatternIDIter, with_pattern_ids,
};
pub use small_index::{SmallIndex, SmallIndexError, SmallIndexIter};
pub use state_id::{StateID, StateIDError, StateIDIter, WithStateIDIter, with_state_ids};
