//! The arguments of C: a match kind by its number, and patterns.
ghost use Rattle.std.specs.Prelude.{◌≡◌, ◌↔◌, IsTrue, MatchOption, MatchResult, length};
ghost use Rattle.literal_search.specs.SearchValue.{CanBeKept, NeedTooManyStates};
ghost use Rattle.literal_c.specs.Arguments.{Agree, IsKind, NeedTooMany, argument_search, is_set, kind_of, number_of};
ghost use Rattle.literal_c.specs.Inside.Refusal.{IsRefused, status_of};
ghost use Rattle.literal_c.specs.Overlapping.{overlapping_for};
ghost use Rattle.literal_c.specs.Pieces.{AreEnds, pieces};

use crate::pieces::{Pieces, are_ends};
use crate::{
    LITERAL_BAD_ARGUMENTS, LITERAL_LEFTMOST_FIRST, LITERAL_LEFTMOST_LONGEST, LITERAL_NO_SEARCHER,
    LITERAL_OUT_OF_MEMORY, LITERAL_TOO_LARGE,
};
use literal_search::{BuildError, MatchKind, Overlapping, PatternID, Search};
use std::alloc::Global;

/// Why there is no search.
#[derive(Clone, Copy)]
pub enum Refusal {
    /// The arguments are not valid.
    BadArguments,
    /// The patterns can't be searched for.
    NoSearcher,
    /// A request for memory was refused.
    OutOfMemory,
    /// The table of the search is too large.
    TooLarge,
}

impl Refusal {
    /// The status of this error.
    pub fn status(self) -> i32
        ensures { result ≡ status_of self }
    {
        match self {
            Refusal::BadArguments => LITERAL_BAD_ARGUMENTS,
            Refusal::NoSearcher => LITERAL_NO_SEARCHER,
            Refusal::OutOfMemory => LITERAL_OUT_OF_MEMORY,
            Refusal::TooLarge => LITERAL_TOO_LARGE,
        }
    }
}

/// The match kind with this number, or `None` if there is none.
pub fn match_kind(number: u32) -> Option<MatchKind>
    ensures { MatchOption result (¬ IsKind number) (λ kind. IsKind number × (kind ≡ kind_of number)) }
{
    match number {
        LITERAL_LEFTMOST_FIRST => Some(MatchKind::LeftmostFirst),
        LITERAL_LEFTMOST_LONGEST => Some(MatchKind::LeftmostLongest),
        _ => None,
    }
}

/// The number of this match kind.
pub fn number_of(kind: MatchKind) -> u32
    ensures { result ≡ number_of kind }
{
    match kind {
        MatchKind::LeftmostFirst => LITERAL_LEFTMOST_FIRST,
        MatchKind::LeftmostLongest => LITERAL_LEFTMOST_LONGEST,
    }
}

/// The search that C asks for, or the error. Memory is requested only if the patterns can be searched for.
pub fn search_for(
    alloc: Global,
    kind: u32,
    ignore_case: u32,
    patterns: &[u8],
    ends: &[usize],
) -> Result<Search, Refusal>
    ensures { MatchResult result
        (λ search. Agree kind patterns.now ends.now × CanBeKept (pieces patterns.now 0 ends.now)
        × (search ≡ argument_search kind ignore_case patterns.now ends.now))
        (IsRefused (Agree kind patterns.now ends.now) (pieces patterns.now 0 ends.now)
        (NeedTooMany ignore_case patterns.now ends.now)) }
{
    let Some(kind) = match_kind(kind) else {
        return Err(Refusal::BadArguments);
    };
    if !are_ends(patterns.len(), ends) {
        return Err(Refusal::BadArguments);
    }
    if !can_be_searched(patterns, ends) {
        return Err(Refusal::NoSearcher);
    }
    match Search::new(alloc, kind, ignore_case != 0, Pieces::new(patterns, ends)) {
        Ok(search) => Ok(search),
        Err(BuildError::TooManyStates) => Err(Refusal::TooLarge),
        Err(_) => Err(Refusal::OutOfMemory),
    }
}

/// The same for a search for every occurrence, which has no match kind.
pub fn search_for_all(
    alloc: Global,
    ignore_case: u32,
    patterns: &[u8],
    ends: &[usize],
) -> Result<Overlapping, Refusal>
    ensures { MatchResult result
        (λ search. AreEnds (length patterns.now) 0 ends.now × CanBeKept (pieces patterns.now 0 ends.now)
        × (search ≡ overlapping_for (pieces patterns.now 0 ends.now) (is_set ignore_case)))
        (IsRefused (AreEnds (length patterns.now) 0 ends.now) (pieces patterns.now 0 ends.now)
        (NeedTooManyStates (is_set ignore_case) (pieces patterns.now 0 ends.now))) }
{
    if !are_ends(patterns.len(), ends) {
        return Err(Refusal::BadArguments);
    }
    if !can_be_searched(patterns, ends) {
        return Err(Refusal::NoSearcher);
    }
    match Overlapping::new(alloc, ignore_case != 0, Pieces::new(patterns, ends)) {
        Ok(search) => Ok(search),
        Err(BuildError::TooManyStates) => Err(Refusal::TooLarge),
        Err(_) => Err(Refusal::OutOfMemory),
    }
}

/// Whether the pieces of a buffer can be searched for.
pub fn can_be_searched(patterns: &[u8], ends: &[usize]) -> bool
    requires { AreEnds (length patterns.now) 0 ends.now }
    ensures { IsTrue result ↔ CanBeKept (pieces patterns.now 0 ends.now) }
{
    for pattern in Pieces::new(patterns, ends) {
        if pattern.is_empty() {
            return false;
        }
    }
    ends.len() <= PatternID::LIMIT
}
