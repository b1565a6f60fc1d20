//! Identifiers of states.
ghost use Rattle.std.specs.Prelude.{◌≡◌, ◌+◌, ◌++◌, ◌<◌, ◌≤◌, ◌↔◌, pos, length, IsOk, IfOk, IfErr, Some, codes};
ghost use Rattle.std.specs.Fmt.{decimal};
ghost use Rattle.std.specs.Iterator.{YieldsFirst, YieldsFirstBy, item_count};
ghost use Rattle.std.specs.List.{enumerate_from, range_with_len};
ghost use Rattle.literal_ids.specs.Identifier.{IsCheckedNumber};

use crate::int::{U32, U64};
use crate::primitives::small_index::{SmallIndex, SmallIndexError, SmallIndexIter};
use std::fmt;
use std::marker::Model;

/// The identifier of a state of an automaton. States are numbered from 0. It is at most [`StateID::MAX`]. Contracts see
/// the number.
#[derive(Clone, Copy, PartialEq, Eq, PartialOrd, Ord, Hash)]
pub struct StateID {
    index: SmallIndex,
}

impl Model for StateID {
    ghost use Rattle.std.specs.Prelude.{ℕ};

    ghost Value = { ℕ };

    ghost view = { λ id. id.index };

    ghost inverse = { λ n. record { index = n } };
}

impl StateID {
    /// The greatest identifier, 2147483646: two below 2^31, so that one more than the greatest, and
    /// the count of all identifiers, fit an `i32`.
    pub const MAX: StateID = StateID {
        index: SmallIndex::MAX,
    };

    /// The number of identifiers, 2147483647.
    pub const LIMIT: usize = SmallIndex::LIMIT;

    /// The least identifier.
    pub const ZERO: StateID = StateID {
        index: SmallIndex::ZERO,
    };

    /// The size of an identifier in bytes, 4.
    pub const SIZE: usize = SmallIndex::SIZE;

    /// The identifier with this number. A number above [`StateID::MAX`] is refused, and the error keeps it.
    pub fn new(value: usize) -> Result<StateID, StateIDError>
        ensures when { IsOk result ↔ (value < StateID.LIMIT) }
        ensures id { IfOk result (λ id. id ≡ value) }
        ensures refused { IfErr result (λ error. error ≡ value) }
    {
        match SmallIndex::new(value) {
            Ok(index) => Ok(StateID { index }),
            Err(refused) => Err(StateIDError { refused }),
        }
    }

    /// The identifier with this number, which has to be at most [`StateID::MAX`].
    pub fn must(value: usize) -> StateID
        requires { value < StateID.LIMIT }
        ensures { result ≡ value }
    {
        StateID {
            index: SmallIndex::must(value),
        }
    }

    /// The identifier as a `usize`.
    pub fn as_usize(&self) -> usize
        ensures value { result ≡ self.now }
        ensures limit { self.now < StateID.LIMIT }
    {
        self.index.as_usize()
    }

    /// The identifier as a `u64`.
    pub fn as_u64(&self) -> u64
        ensures value { result ≡ self.now }
        ensures limit { self.now < StateID.LIMIT }
    {
        self.index.as_u64()
    }

    /// The identifier as a `u32`.
    pub fn as_u32(&self) -> u32
        ensures value { result ≡ self.now }
        ensures limit { self.now < StateID.LIMIT }
    {
        self.index.as_u32()
    }

    /// The identifier as an `i32`.
    pub fn as_i32(&self) -> i32
        ensures value { result ≡ pos self.now }
        ensures limit { self.now < StateID.LIMIT }
    {
        self.index.as_i32()
    }

    /// The number plus one.
    pub fn one_more(&self) -> usize
        ensures value { result ≡ self.now + 1 }
        ensures limit { self.now < StateID.LIMIT }
    {
        self.index.one_more()
    }

    /// The identifiers from 0 to `len` - 1. `len` has to be at most [`StateID::LIMIT`].
    pub fn iter(len: usize) -> StateIDIter
        requires { len ≤ StateID.LIMIT }
        ensures items { result ≡ range_with_len 0 len }
        ensures count { length result ≡ len }
    {
        StateIDIter {
            indices: SmallIndexIter::new(len),
        }
    }
}

/// The least identifier.
impl Default for StateID {
    ghost is_default = { λ id. id ≡ 0 };

    fn default() -> StateID {
        StateID::ZERO
    }
}

/// Shown as `StateID(5)`.
impl fmt::Debug for StateID {
    ghost debug_output = { λ id. Some (codes "StateID(" ++ decimal id ++ codes ")") };

    fn fmt<W: fmt::Write>(&self, f: &mut fmt::Formatter<W>) -> fmt::Result {
        let value = self.as_u32();
        write!(f, "StateID({value})")
    }
}

/// The identifier with this index.
impl From<SmallIndex> for StateID {
    ghost from_gives = { λ index id. id ≡ index };

    fn from(index: SmallIndex) -> StateID {
        StateID { index }
    }
}

/// The index of this identifier.
impl From<StateID> for SmallIndex {
    ghost from_gives = { λ id index. index ≡ id };

    fn from(id: StateID) -> SmallIndex {
        id.index
    }
}

/// The identifier with this number.
impl From<u8> for StateID {
    ghost from_gives = { λ value id. id ≡ value };

    fn from(value: u8) -> StateID {
        StateID {
            index: SmallIndex::from(value),
        }
    }
}

/// Like [`StateID::new`].
impl TryFrom<u16> for StateID {
    type Error = StateIDError;

    ghost try_from_gives = { IsCheckedNumber };

    fn try_from(value: u16) -> Result<StateID, StateIDError> {
        StateID::new(usize::from(value))
    }
}

/// Like [`StateID::new`].
impl TryFrom<u32> for StateID {
    type Error = StateIDError;

    ghost try_from_gives = { IsCheckedNumber };

    fn try_from(value: u32) -> Result<StateID, StateIDError> {
        StateID::new(value.as_usize())
    }
}

/// Like [`StateID::new`].
impl TryFrom<u64> for StateID {
    type Error = StateIDError;

    ghost try_from_gives = { IsCheckedNumber };

    fn try_from(value: u64) -> Result<StateID, StateIDError> {
        StateID::new(value.as_usize())
    }
}

/// Like [`StateID::new`].
impl TryFrom<usize> for StateID {
    type Error = StateIDError;

    ghost try_from_gives = { IsCheckedNumber };

    fn try_from(value: usize) -> Result<StateID, StateIDError> {
        StateID::new(value)
    }
}

/// The error for a number above [`StateID::MAX`]. Contracts see the number that was refused.
#[derive(Clone, Copy, Debug, PartialEq, Eq)]
pub struct StateIDError {
    refused: SmallIndexError,
}

impl Model for StateIDError {
    ghost use Rattle.std.specs.Prelude.{ℕ};

    ghost Value = { ℕ };

    ghost view = { λ error. error.refused };

    ghost inverse = { λ n. record { refused = n } };
}

impl StateIDError {
    /// The number that was refused.
    pub fn attempted(&self) -> u64
        ensures { result ≡ self.now }
    {
        self.refused.attempted()
    }
}

/// Shown as `failed to create StateID from 2147483647, which exceeds StateID(2147483646)`.
impl fmt::Display for StateIDError {
    ghost output = { λ error. Some (codes "failed to create StateID from " ++ decimal error
        ++ codes ", which exceeds StateID(2147483646)") };

    fn fmt<W: fmt::Write>(&self, f: &mut fmt::Formatter<W>) -> fmt::Result {
        let attempted = self.attempted();
        write!(
            f,
            "failed to create StateID from {attempted}, which exceeds StateID(2147483646)"
        )
    }
}

impl std::error::Error for StateIDError {}

/// An iterator over the identifiers below a length. Contracts see the list of those that are left.
#[derive(Drop)]
pub struct StateIDIter {
    indices: SmallIndexIter,
}

impl Model for StateIDIter {
    ghost use Rattle.std.specs.Prelude.{List, ℕ};

    ghost Value = { List ℕ };

    ghost view = { λ it. it.indices };
}

impl Iterator for StateIDIter {
    type Item = StateID;

    ghost next_gives = { YieldsFirst (λ left. left) };

    ghost remaining = { item_count (λ left. left) };

    fn next(&mut self) -> Option<StateID> {
        self.indices.next().map(StateID::from)
    }
}

/// The elements of a slice in order, each with its index as an identifier. The slice has to have at most
/// [`StateID::LIMIT`] elements.
#[tactic(auto, using(crate::proofs::lemmas::Counting::zip_range, crate::proofs::lemmas::Counting::zip_length))]
pub fn with_state_ids<T>(items: &[T]) -> WithStateIDIter<'_, T>
    requires { length items.now ≤ StateID.LIMIT }
    ensures items { result ≡ enumerate_from 0 items.now }
    ensures count { length result ≡ length items.now }
{
    WithStateIDIter {
        items: items.iter(),
        ids: StateID::iter(items.len()),
    }
}

/// An iterator over borrowed elements with identifiers. Contracts see the list of the pairs that are left.
#[derive(Drop)]
pub struct WithStateIDIter<'a, T> {
    items: std::slice::Iter<'a, T>,
    ids: StateIDIter,
}

impl<'a, T> Model for WithStateIDIter<'a, T> {
    ghost use Rattle.std.specs.Prelude.{List, ℕ};
    ghost use Rattle.std.specs.List.{zip};
    ghost use Rattle.std.specs.Slice.Iter.{iter_rest};

    ghost Value = { List (ℕ × T) };

    ghost view = { λ it. zip it.ids (iter_rest it.items) };
}

impl<'a, T> Iterator for WithStateIDIter<'a, T> {
    type Item = (StateID, &'a T);

    ghost next_gives = { YieldsFirstBy (λ pair. (pair.0, pair.1.now)) (λ left. left) };

    ghost remaining = { item_count (λ left. left) };

    #[tactic(auto, using(crate::proofs::lemmas::Counting::zip_nothing))]
    fn next(&mut self) -> Option<(StateID, &'a T)> {
        let item = self.items.next()?;
        let id = self.ids.next()?;
        Some((id, item))
    }
}
