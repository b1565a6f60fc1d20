//! Search for any number of literals at once, with ASCII case kept or ignored. [`Search`] finds the leftmost match, or
//! all matches that do not overlap; [`Overlapping`] finds every occurrence, and [`WholeWords`] whole words alone. They
//! own their patterns, and search by `literal_leftmost`, `literal_occurrences`, `literal_words` and `literal_pieces`,
//! whose public types are exported here too. Begin to read with [`Search`], and with `specs/SearchValue.antt` of
//! `literal_leftmost`.
#![tactic(auto)]

ghost use Rattle.std.specs.Prelude.{◌≡◌, ◌+◌, ◌-◌, ◌^◌, ◌<◌, ◌++◌, ◌∷◌, [], length, map, sum_by, IfErr, IfOk};
ghost use Rattle.literal_base.specs.Given.{CanBeTaken};
ghost use Rattle.literal_search.specs.SearchValue.{GivesAll, RefusesSearch, longest_of};
ghost use Rattle.literal_search.specs.Inside.Search.{IsShortestOf};

mod builder;
pub mod laws;
mod matches;
mod overlapping;
mod overlapping_stream;
mod patterns;
mod replace;
mod replace_stream;
mod search;
mod sought;
mod stream;
mod texts;
mod whole_words;
mod word_matches;
mod word_stream;

pub use builder::SearchBuilder;
pub use literal_base::alphabet::ByteSet;
pub use literal_base::count::Tally;
pub use literal_base::packed::MatchKind;
pub use literal_base::{Match, Span};
pub use literal_ids::PatternID;
pub use literal_leftmost::prepared_search::{Prepared, PreparedMatches};
pub use literal_leftmost::short_span::{PreparedShortMatches, SHORT_SPAN};
pub use literal_leftmost::so_far::SoFar;
pub use literal_occurrences::automaton::{Automaton, State};
pub use literal_occurrences::prepared_occurrences::PreparedOverlappingMatches;
pub use literal_occurrences::prepared_overlapping::PreparedOverlapping;
pub use literal_occurrences::prepared_states::Walked;
pub use literal_pieces::overlapping_stream::OverlappingStreamMatches;
pub use literal_pieces::replace_stream::ReplaceStreamError;
pub use literal_rows::array::ArrayTooShort;
pub use literal_rows::damaged::Damaged;
use literal_rows::grow::GrowError;
pub use literal_words::prepared_words::{
    PreparedWordMatches, PreparedWordMatchesBySides, PreparedWords,
};
pub use literal_words::word_text::WordText;
pub use matches::{Matches, Starts};
pub use overlapping::{Overlapping, OverlappingMatches};
pub use patterns::Patterns;
pub use replace::ReplaceError;
pub use search::Search;
use std::alloc::{AllocError, Global};
use std::error::Error;
use std::fmt;
pub use stream::StreamMatches;
pub use whole_words::{WholeWordMatches, WholeWords};
pub use word_matches::WordMatchesBySides;
pub use word_stream::WholeWordStreamMatches;

/// Why no search is built for some patterns.
#[derive(Clone, Copy, Debug, PartialEq, Eq, Drop)]
pub enum BuildError {
    /// The pattern with this number is empty; the patterns before it are not.
    EmptyPattern(usize),
    /// Memory was refused.
    OutOfMemory,
    /// There are more patterns than [`PatternID::LIMIT`].
    TooManyPatterns,
    /// The rows of all states are longer than their numbers can index. Only then is this the error; memory may be
    /// refused before this is found.
    TooManyStates,
}

/// A short message.
impl fmt::Display for BuildError {
    ghost use Rattle.std.specs.Prelude.{Some};
    ghost use Rattle.literal_search.specs.ErrorText.{build_error_text};

    ghost output = { λ error. Some (build_error_text error) };

    fn fmt<W: fmt::Write>(&self, f: &mut fmt::Formatter<W>) -> fmt::Result {
        match self {
            BuildError::EmptyPattern(number) => write!(f, "pattern {number} is empty"),
            BuildError::OutOfMemory => write!(f, "out of memory"),
            BuildError::TooManyPatterns => write!(f, "too many patterns"),
            BuildError::TooManyStates => write!(f, "the patterns need too many states"),
        }
    }
}

impl Error for BuildError {}

/// [`BuildError::OutOfMemory`].
impl From<AllocError> for BuildError {
    ghost use Rattle.std.specs.Prelude.{◌≡◌};
    ghost use Rattle.literal_search.specs.declared.BuildError.TheVariants.{OutOfMemory};

    ghost from_gives = { λ _ error. error ≡ OutOfMemory };

    fn from(_: AllocError) -> BuildError {
        BuildError::OutOfMemory
    }
}

/// The error with the same name.
impl From<GrowError> for BuildError {
    ghost use Rattle.literal_search.specs.Inside.Search.{IsErrorOf};

    ghost from_gives = { IsErrorOf };

    fn from(error: GrowError) -> BuildError {
        match error {
            GrowError::OutOfMemory => BuildError::OutOfMemory,
            GrowError::TooManyStates => BuildError::TooManyStates,
        }
    }
}

/// Copies the patterns that an iterator gives.
fn copies<'a, I: IntoIterator<Item = &'a [u8]>>(
    alloc: Global,
    patterns: I,
) -> Result<Vec<Vec<u8>>, BuildError>
    requires { CanBeTaken I.into_iter_gives I.IntoIter.can_next I.IntoIter.remaining patterns }
    ensures ok { IfOk result (λ all. GivesAll I.into_iter_gives I.IntoIter.next_gives patterns
        (map (λ pattern. pattern.items) all.items)) }
    ensures error { IfErr result (RefusesSearch I.into_iter_gives I.IntoIter.next_gives patterns (λ _. ⊥)) }
{
    let mut all = Vec::new(alloc);
    for bytes in patterns {
        if bytes.is_empty() {
            return Err(BuildError::EmptyPattern(all.len()));
        }
        if all.len() == PatternID::LIMIT {
            return Err(BuildError::TooManyPatterns);
        }
        push_copy(alloc, &mut all, bytes)?;
    }
    Ok(all)
}

/// The length of the shortest pattern, or a large number if there is none.
fn shortest_len(patterns: &[Vec<u8>]) -> usize
    ensures { IsShortestOf result (map (λ pattern. pattern.items) patterns.now) }
{
    let mut shortest = usize::MAX;
    for pattern in patterns {
        shortest = shortest.min(pattern.len());
    }
    shortest
}

/// Adds a copy of a pattern. If memory is refused, the list is unchanged.
fn push_copy(alloc: Global, lists: &mut Vec<Vec<u8>>, bytes: &[u8]) -> Result<(), AllocError>
    ensures { IfOk result (λ _. map (λ pattern. pattern.items) lists.new.items
        ≡ map (λ pattern. pattern.items) lists.old.items ++ bytes.now ∷ []) }
{
    let mut copy = Vec::new(alloc);
    copy.extend_from_slice(bytes)?;
    lists.push(copy)?;
    Ok(())
}
