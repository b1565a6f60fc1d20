//! Searches for several literals at once, for callers in C. The header for C is `bindings/c/literal_search.h`.
//!
//! Bytes are passed as a pointer and a length. A list of byte strings is passed as one buffer and the offsets at which
//! its pieces end: piece i has the bytes from `ends[i - 1]`, or from 0 for the first, up to `ends[i]`, which is not
//! included. Each call but [`literal_version`] returns a status, and none keeps anything when it returns. A call with
//! patterns builds its search anew. The calls whose names end in `_in` search by an array from [`literal_prepare`] or
//! [`literal_prepare_overlapping`]. A flag, as `ignore_case`, is a number: 0 is false, and every other number is true.
#![tactic(auto)]

ghost use Rattle.std.specs.Prelude.{◌≡◌};
ghost use Rattle.literal_folding.specs.Folding.{folded};

mod answers;
mod arguments;
mod finder;
mod info;
pub mod laws;
#[cfg(test)]
mod occurrence_tests;
mod occurrences;
mod pieces;
mod prepare;
mod prepared_search;
#[cfg(test)]
mod prepared_tests;
mod resumed;
mod searches;
mod so_far;
#[cfg(test)]
mod state_tests;
mod states;
#[cfg(test)]
mod tests;
#[cfg(test)]
mod word_tests;
mod words;

pub use info::{LiteralInfo, literal_prepared_info};
use literal_folding::fold_in_place;
pub use occurrences::{
    literal_count_overlapping, literal_count_overlapping_in, literal_find_overlapping,
    literal_find_overlapping_from_in, literal_find_overlapping_in,
};
pub use prepare::{
    literal_check_overlapping, literal_check_prepared, literal_prepare, literal_prepare_overlapping,
};
pub use prepared_search::{
    literal_count_in, literal_find_all_in, literal_find_each_in, literal_find_in,
};
pub use searches::{literal_can_search, literal_find, literal_find_all, literal_find_each};
pub use so_far::{literal_find_all_so_far_in, literal_find_so_far_in};
pub use states::{
    LITERAL_MATCH_STATE, LITERAL_START_STATE, literal_next_state_in, literal_patterns_at_in,
    literal_walk_in,
};
pub use words::{
    literal_count_words_by_sides_in, literal_count_words_in, literal_find_all_words_by_sides_in,
    literal_find_all_words_in, literal_find_word_by_sides_in, literal_find_word_in,
};

/// The version of this library as a number, 1,000,000 * major + 1,000 * minor + patch: 1000 for 0.1.0.
pub const LITERAL_VERSION_NUMBER: u32 = 1000;

/// Status: the call has done what it was asked for.
pub const LITERAL_OK: i32 = 0;
/// Status: no pattern occurs.
pub const LITERAL_NONE: i32 = 1;
/// Status: the patterns can't be searched for, since one of them is empty, or there are 2^31 or more.
pub const LITERAL_NO_SEARCHER: i32 = 2;
/// Status: a request for memory was refused.
pub const LITERAL_OUT_OF_MEMORY: i32 = 3;
/// Status: the arguments are not valid.
pub const LITERAL_BAD_ARGUMENTS: i32 = 4;
/// Status: the table of the search would have 2^31 entries or more.
pub const LITERAL_TOO_LARGE: i32 = 5;
/// Status: the lent array is too short.
pub const LITERAL_TOO_SHORT: i32 = 6;
/// Status: the lent array is not as [`literal_prepare`] wrote it.
pub const LITERAL_DAMAGED: i32 = 7;

/// Match kind: of the patterns that match at one offset, the first in the list.
pub const LITERAL_LEFTMOST_FIRST: u32 = 0;
/// Match kind: the longest of these patterns, and of several longest ones the first in the list.
pub const LITERAL_LEFTMOST_LONGEST: u32 = 1;

/// A match: the number of its pattern, the offset of its first byte, and the offset after its last byte.
#[repr(C)]
#[derive(Clone, Copy)]
pub struct LiteralMatch {
    pub pattern: usize,
    pub start: usize,
    pub end: usize,
}

/// The number of matches written, the offset from which the search continues, and 1 if nothing occurs from there on.
/// Otherwise this is 0, and the next match begins at that offset.
#[repr(C)]
#[derive(Clone, Copy)]
pub struct LiteralPage {
    pub written: usize,
    pub next: usize,
    pub is_last: u32,
}

/// [`LITERAL_OK`] and a match, or [`LITERAL_NONE`] and a match of zeros.
#[repr(C)]
#[derive(Clone, Copy)]
pub struct LiteralAnswer {
    pub status: i32,
    pub found: LiteralMatch,
}

/// Returns the version of this library, for callers that were compiled with another header.
#[unsafe(no_mangle)]
pub extern "C" fn literal_version() -> u32
    ensures { result ≡ LITERAL_VERSION_NUMBER }
{
    LITERAL_VERSION_NUMBER
}

/// Replaces each whole character of a text in UTF-8 by its simple case folding, if that has as many bytes. All other
/// bytes, and so all offsets, stay the same. A search for folded patterns in a folded text ignores Unicode's case.
/// Returns [`LITERAL_OK`].
#[unsafe(no_mangle)]
pub extern "C" fn literal_fold(text: &mut [u8]) -> i32
    ensures ok { result ≡ LITERAL_OK }
    ensures folded { text.new ≡ folded text.old }
{
    fold_in_place(text);
    LITERAL_OK
}
