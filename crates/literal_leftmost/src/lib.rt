//! The leftmost match of any number of patterns, by a walk backward through blocks of the haystack, with the rows of
//! `literal_rows` and the scans of `literal_fingerprints`. [`backward`] has the walk, [`leftmost`] the search for one
//! match, [`cursor`] what an iteration keeps between matches, and [`prepared_search`] the search over a lent array.
#![tactic(auto)]

pub mod backward;
pub mod cursor;
mod in_four;
pub mod lanes;
pub mod leftmost;
mod marks_in_four;
pub mod near;
pub mod prepared_search;
pub mod short;
pub mod short_span;
pub mod so_far;
pub mod trail;
pub mod trail_in_four;
mod unmarked;
