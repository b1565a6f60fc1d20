//! Texts that are read in pieces: what is searched for in them, the matches, every occurrence, and replacing. It stands
//! on the searches of `literal_leftmost`, `literal_occurrences` and `literal_words`, and keeps the bytes that are still
//! needed in a [`window`]. Begin to read with [`stream`], and with `specs/Stream.antt`.
#![tactic(auto)]

pub mod overlapping_stream;
pub mod reading;
pub mod replace_stream;
pub mod sought;
pub mod stream;
pub mod window;
