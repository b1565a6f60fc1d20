//! Identifiers of patterns.
ghost use Rattle.std.specs.Prelude.{◌≡◌, ◌+◌, ◌++◌, ◌<◌, ◌≤◌, ◌↔◌, pos, length, IsOk, IfOk, IfErr, Some, codes};
ghost use Rattle.std.specs.Fmt.{decimal};
ghost use Rattle.std.specs.Iterator.{YieldsFirst, YieldsFirstBy, item_count};
ghost use Rattle.std.specs.List.{enumerate_from, range_with_len};
ghost use Rattle.literal_ids.specs.Identifier.{IsCheckedNumber};

use crate::int::{U32, U64};
use crate::primitives::small_index::{SmallIndex, SmallIndexError, SmallIndexIter};
use std::fmt;
use std::marker::Model;

/// The identifier of a pattern: its number in the order in which the patterns were added, from 0. It is at most
/// [`PatternID::MAX`]. Contracts see the number.
#[derive(Clone, Copy, PartialEq, Eq, PartialOrd, Ord, Hash)]
pub struct PatternID {
    index: SmallIndex,
}

impl Model for PatternID {
    ghost use Rattle.std.specs.Prelude.{ℕ};

    ghost Value = { ℕ };

    ghost view = { λ id. id.index };

    ghost inverse = { λ n. record { index = n } };
}

impl PatternID {
    /// The greatest identifier, 2147483646: two below 2^31, so that one more than the greatest, and
    /// the count of all identifiers, fit an `i32`.
    pub const MAX: PatternID = PatternID {
        index: SmallIndex::MAX,
    };

    /// The number of identifiers, 2147483647.
    pub const LIMIT: usize = SmallIndex::LIMIT;

    /// The least identifier, that of the first pattern.
    pub const ZERO: PatternID = PatternID {
        index: SmallIndex::ZERO,
    };

    /// The size of an identifier in bytes, 4.
    pub const SIZE: usize = SmallIndex::SIZE;

    /// The identifier with this number. A number above [`PatternID::MAX`] is refused, and the error keeps it.
    pub fn new(value: usize) -> Result<PatternID, PatternIDError>
        ensures when { IsOk result ↔ (value < PatternID.LIMIT) }
        ensures id { IfOk result (λ id. id ≡ value) }
        ensures refused { IfErr result (λ error. error ≡ value) }
    {
        match SmallIndex::new(value) {
            Ok(index) => Ok(PatternID { index }),
            Err(refused) => Err(PatternIDError { refused }),
        }
    }

    /// The identifier with this number, which has to be at most [`PatternID::MAX`].
    pub fn must(value: usize) -> PatternID
        requires { value < PatternID.LIMIT }
        ensures { result ≡ value }
    {
        PatternID {
            index: SmallIndex::must(value),
        }
    }

    /// The identifier as a `usize`.
    pub fn as_usize(&self) -> usize
        ensures value { result ≡ self.now }
        ensures limit { self.now < PatternID.LIMIT }
    {
        self.index.as_usize()
    }

    /// The identifier as a `u64`.
    pub fn as_u64(&self) -> u64
        ensures value { result ≡ self.now }
        ensures limit { self.now < PatternID.LIMIT }
    {
        self.index.as_u64()
    }

    /// The identifier as a `u32`.
    pub fn as_u32(&self) -> u32
        ensures value { result ≡ self.now }
        ensures limit { self.now < PatternID.LIMIT }
    {
        self.index.as_u32()
    }

    /// The identifier as an `i32`.
    pub fn as_i32(&self) -> i32
        ensures value { result ≡ pos self.now }
        ensures limit { self.now < PatternID.LIMIT }
    {
        self.index.as_i32()
    }

    /// The number plus one.
    pub fn one_more(&self) -> usize
        ensures value { result ≡ self.now + 1 }
        ensures limit { self.now < PatternID.LIMIT }
    {
        self.index.one_more()
    }

    /// The identifiers from 0 to `len` - 1. `len` has to be at most [`PatternID::LIMIT`].
    pub fn iter(len: usize) -> PatternIDIter
        requires { len ≤ PatternID.LIMIT }
        ensures items { result ≡ range_with_len 0 len }
        ensures count { length result ≡ len }
    {
        PatternIDIter {
            indices: SmallIndexIter::new(len),
        }
    }
}

/// The least identifier.
impl Default for PatternID {
    ghost is_default = { λ id. id ≡ 0 };

    fn default() -> PatternID {
        PatternID::ZERO
    }
}

/// Shown as `PatternID(5)`.
impl fmt::Debug for PatternID {
    ghost debug_output = { λ id. Some (codes "PatternID(" ++ decimal id ++ codes ")") };

    fn fmt<W: fmt::Write>(&self, f: &mut fmt::Formatter<W>) -> fmt::Result {
        let value = self.as_u32();
        write!(f, "PatternID({value})")
    }
}

/// The identifier with this index.
impl From<SmallIndex> for PatternID {
    ghost from_gives = { λ index id. id ≡ index };

    fn from(index: SmallIndex) -> PatternID {
        PatternID { index }
    }
}

/// The index of this identifier.
impl From<PatternID> for SmallIndex {
    ghost from_gives = { λ id index. index ≡ id };

    fn from(id: PatternID) -> SmallIndex {
        id.index
    }
}

/// The identifier with this number.
impl From<u8> for PatternID {
    ghost from_gives = { λ value id. id ≡ value };

    fn from(value: u8) -> PatternID {
        PatternID {
            index: SmallIndex::from(value),
        }
    }
}

/// Like [`PatternID::new`].
impl TryFrom<u16> for PatternID {
    type Error = PatternIDError;

    ghost try_from_gives = { IsCheckedNumber };

    fn try_from(value: u16) -> Result<PatternID, PatternIDError> {
        PatternID::new(usize::from(value))
    }
}

/// Like [`PatternID::new`].
impl TryFrom<u32> for PatternID {
    type Error = PatternIDError;

    ghost try_from_gives = { IsCheckedNumber };

    fn try_from(value: u32) -> Result<PatternID, PatternIDError> {
        PatternID::new(value.as_usize())
    }
}

/// Like [`PatternID::new`].
impl TryFrom<u64> for PatternID {
    type Error = PatternIDError;

    ghost try_from_gives = { IsCheckedNumber };

    fn try_from(value: u64) -> Result<PatternID, PatternIDError> {
        PatternID::new(value.as_usize())
    }
}

/// Like [`PatternID::new`].
impl TryFrom<usize> for PatternID {
    type Error = PatternIDError;

    ghost try_from_gives = { IsCheckedNumber };

    fn try_from(value: usize) -> Result<PatternID, PatternIDError> {
        PatternID::new(value)
    }
}

/// The error for a number above [`PatternID::MAX`]. Contracts see the number that was refused.
#[derive(Clone, Copy, Debug, PartialEq, Eq)]
pub struct PatternIDError {
    refused: SmallIndexError,
}

impl Model for PatternIDError {
    ghost use Rattle.std.specs.Prelude.{ℕ};

    ghost Value = { ℕ };

    ghost view = { λ error. error.refused };

    ghost inverse = { λ n. record { refused = n } };
}

impl PatternIDError {
    /// The number that was refused.
    pub fn attempted(&self) -> u64
        ensures { result ≡ self.now }
    {
        self.refused.attempted()
    }
}

/// Shown as `failed to create PatternID from 2147483647, which exceeds PatternID(2147483646)`.
impl fmt::Display for PatternIDError {
    ghost output = { λ error. Some (codes "failed to create PatternID from " ++ decimal error
        ++ codes ", which exceeds PatternID(2147483646)") };

    fn fmt<W: fmt::Write>(&self, f: &mut fmt::Formatter<W>) -> fmt::Result {
        let attempted = self.attempted();
        write!(
            f,
            "failed to create PatternID from {attempted}, which exceeds PatternID(2147483646)"
        )
    }
}

impl std::error::Error for PatternIDError {}

/// An iterator over the identifiers below a length. Contracts see the list of those that are left.
#[derive(Drop)]
pub struct PatternIDIter {
    indices: SmallIndexIter,
}

impl Model for PatternIDIter {
    ghost use Rattle.std.specs.Prelude.{List, ℕ};

    ghost Value = { List ℕ };

    ghost view = { λ it. it.indices };
}

impl Iterator for PatternIDIter {
    type Item = PatternID;

    ghost next_gives = { YieldsFirst (λ left. left) };

    ghost remaining = { item_count (λ left. left) };

    fn next(&mut self) -> Option<PatternID> {
        self.indices.next().map(PatternID::from)
    }
}

/// The elements of a slice in order, each with its index as an identifier. The slice has to have at most
/// [`PatternID::LIMIT`] elements.
#[tactic(auto, using(crate::proofs::lemmas::Counting::zip_range, crate::proofs::lemmas::Counting::zip_length))]
pub fn with_pattern_ids<T>(items: &[T]) -> WithPatternIDIter<'_, T>
    requires { length items.now ≤ PatternID.LIMIT }
    ensures items { result ≡ enumerate_from 0 items.now }
    ensures count { length result ≡ length items.now }
{
    WithPatternIDIter {
        items: items.iter(),
        ids: PatternID::iter(items.len()),
    }
}

/// An iterator over borrowed elements with identifiers. Contracts see the list of the pairs that are left.
#[derive(Drop)]
pub struct WithPatternIDIter<'a, T> {
    items: std::slice::Iter<'a, T>,
    ids: PatternIDIter,
}

impl<'a, T> Model for WithPatternIDIter<'a, T> {
    ghost use Rattle.std.specs.Prelude.{List, ℕ};
    ghost use Rattle.std.specs.List.{zip};
    ghost use Rattle.std.specs.Slice.Iter.{iter_rest};

    ghost Value = { List (ℕ × T) };

    ghost view = { λ it. zip it.ids (iter_rest it.items) };
}

impl<'a, T> Iterator for WithPatternIDIter<'a, T> {
    type Item = (PatternID, &'a T);

    ghost next_gives = { YieldsFirstBy (λ pair. (pair.0, pair.1.now)) (λ left. left) };

    ghost remaining = { item_count (λ left. left) };

    #[tactic(auto, using(crate::proofs::lemmas::Counting::zip_nothing))]
    fn next(&mut self) -> Option<(PatternID, &'a T)> {
        let item = self.items.next()?;
        let id = self.ids.next()?;
        Some((id, item))
    }
}
