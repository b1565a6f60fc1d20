//! Small indices, which identifiers are made of.
ghost use Rattle.std.specs.Prelude.{◌≡◌, ◌+◌, ◌++◌, ◌<◌, ◌≤◌, ◌↔◌, pos, length, IsOk, IfOk, IfErr, Some, codes};
ghost use Rattle.std.specs.Fmt.{decimal};
ghost use Rattle.std.specs.Iterator.{YieldsFirst, item_count};
ghost use Rattle.std.specs.List.{range_with_len};
ghost use Rattle.literal_ids.specs.Identifier.{IsCheckedNumber};

use crate::int::{U32, U64, Usize};
use std::fmt;
use std::marker::Model;
use std::ops::Range;

/// An index that is stored in 32 bits. It is at most [`SmallIndex::MAX`]. Contracts see the number.
#[derive(Clone, Copy, PartialEq, Eq, PartialOrd, Ord, Hash)]
pub struct SmallIndex {
    value: u32,
}

impl Model for SmallIndex {
    ghost use Rattle.std.specs.Prelude.{ℕ, ◌≤◌};

    ghost Value = { ℕ };

    ghost view = { λ index. index.value };

    ghost invariant = { λ index. index.value ≤ 2147483646 };

    ghost inverse = { λ n. record { value = n } };
}

impl SmallIndex {
    /// The greatest index, 2147483646: two below 2^31, so that one more than the greatest, and the
    /// count of all indices, fit an `i32`.
    pub const MAX: SmallIndex = SmallIndex { value: 2147483646 };

    /// The number of indices, 2147483647.
    pub const LIMIT: usize = 2147483647;

    /// The least index.
    pub const ZERO: SmallIndex = SmallIndex { value: 0 };

    /// The size of an index in bytes, 4.
    pub const SIZE: usize = size_of::<SmallIndex>();

    /// The index with this number. A number above [`SmallIndex::MAX`] is refused, and the error keeps it.
    pub fn new(value: usize) -> Result<SmallIndex, SmallIndexError>
        ensures when { IsOk result ↔ (value < SmallIndex.LIMIT) }
        ensures id { IfOk result (λ index. index ≡ value) }
        ensures refused { IfErr result (λ error. error ≡ value) }
    {
        if value <= SmallIndex::MAX.as_usize() {
            Ok(SmallIndex::must(value))
        } else {
            Err(SmallIndexError {
                attempted: value.as_u64(),
            })
        }
    }

    /// The index with this number, which has to be at most [`SmallIndex::MAX`].
    pub fn must(value: usize) -> SmallIndex
        requires { value < SmallIndex.LIMIT }
        ensures { result ≡ value }
    {
        SmallIndex {
            value: value.as_u32(),
        }
    }

    /// The index as a `usize`.
    pub fn as_usize(&self) -> usize
        ensures value { result ≡ self.now }
        ensures limit { self.now < SmallIndex.LIMIT }
    {
        self.value.as_usize()
    }

    /// The index as a `u64`.
    pub fn as_u64(&self) -> u64
        ensures value { result ≡ self.now }
        ensures limit { self.now < SmallIndex.LIMIT }
    {
        u64::from(self.value)
    }

    /// The index as a `u32`.
    pub fn as_u32(&self) -> u32
        ensures value { result ≡ self.now }
        ensures limit { self.now < SmallIndex.LIMIT }
    {
        self.value
    }

    /// The index as an `i32`.
    pub fn as_i32(&self) -> i32
        ensures value { result ≡ pos self.now }
        ensures limit { self.now < SmallIndex.LIMIT }
    {
        self.value as i32
    }

    /// The number plus one.
    pub fn one_more(&self) -> usize
        ensures value { result ≡ self.now + 1 }
        ensures limit { self.now < SmallIndex.LIMIT }
    {
        self.as_usize() + 1
    }
}

/// The least index.
impl Default for SmallIndex {
    ghost is_default = { λ index. index ≡ 0 };

    fn default() -> SmallIndex {
        SmallIndex::ZERO
    }
}

/// Shown as `SmallIndex(5)`.
impl fmt::Debug for SmallIndex {
    ghost debug_output = { λ index. Some (codes "SmallIndex(" ++ decimal index ++ codes ")") };

    fn fmt<W: fmt::Write>(&self, f: &mut fmt::Formatter<W>) -> fmt::Result {
        let value = self.value;
        write!(f, "SmallIndex({value})")
    }
}

/// The index with this number.
impl From<u8> for SmallIndex {
    ghost from_gives = { λ value index. index ≡ value };

    fn from(value: u8) -> SmallIndex {
        SmallIndex {
            value: u32::from(value),
        }
    }
}

/// Like [`SmallIndex::new`].
impl TryFrom<u16> for SmallIndex {
    type Error = SmallIndexError;

    ghost try_from_gives = { IsCheckedNumber };

    fn try_from(value: u16) -> Result<SmallIndex, SmallIndexError> {
        SmallIndex::new(usize::from(value))
    }
}

/// Like [`SmallIndex::new`].
impl TryFrom<u32> for SmallIndex {
    type Error = SmallIndexError;

    ghost try_from_gives = { IsCheckedNumber };

    fn try_from(value: u32) -> Result<SmallIndex, SmallIndexError> {
        SmallIndex::new(value.as_usize())
    }
}

/// Like [`SmallIndex::new`].
impl TryFrom<u64> for SmallIndex {
    type Error = SmallIndexError;

    ghost try_from_gives = { IsCheckedNumber };

    fn try_from(value: u64) -> Result<SmallIndex, SmallIndexError> {
        SmallIndex::new(value.as_usize())
    }
}

/// Like [`SmallIndex::new`].
impl TryFrom<usize> for SmallIndex {
    type Error = SmallIndexError;

    ghost try_from_gives = { IsCheckedNumber };

    fn try_from(value: usize) -> Result<SmallIndex, SmallIndexError> {
        SmallIndex::new(value)
    }
}

/// The error for a number above [`SmallIndex::MAX`]. Contracts see the number that was refused.
#[derive(Clone, Copy, Debug, PartialEq, Eq)]
pub struct SmallIndexError {
    attempted: u64,
}

impl Model for SmallIndexError {
    ghost use Rattle.std.specs.Prelude.{ℕ};

    ghost Value = { ℕ };

    ghost view = { λ error. error.attempted };

    ghost inverse = { λ n. record { attempted = n } };
}

impl SmallIndexError {
    /// The number that was refused.
    pub fn attempted(&self) -> u64
        ensures { result ≡ self.now }
    {
        self.attempted
    }
}

/// Shown as `failed to create small index from 2147483647, which exceeds SmallIndex(2147483646)`.
impl fmt::Display for SmallIndexError {
    ghost output = { λ error. Some (codes "failed to create small index from " ++ decimal error
        ++ codes ", which exceeds SmallIndex(2147483646)") };

    fn fmt<W: fmt::Write>(&self, f: &mut fmt::Formatter<W>) -> fmt::Result {
        let attempted = self.attempted;
        write!(
            f,
            "failed to create small index from {attempted}, which exceeds SmallIndex(2147483646)"
        )
    }
}

impl std::error::Error for SmallIndexError {}

/// An iterator over the indices below a length. Contracts see the list of those that are left.
#[derive(Drop)]
pub struct SmallIndexIter {
    range: Range<usize>,
}

impl Model for SmallIndexIter {
    ghost use Rattle.std.specs.Prelude.{List, ℕ, ◌-◌, ◌≤◌};
    ghost use Rattle.std.specs.List.{range_with_len};

    ghost Value = { List ℕ };

    ghost view = { λ it. range_with_len it.range.start (it.range.end - it.range.start) };

    ghost invariant = { λ it. it.range.end ≤ 2147483647 };
}

impl SmallIndexIter {
    /// The indices from 0 to `len` - 1. `len` has to be at most [`SmallIndex::LIMIT`].
    #[tactic(auto, using(crate::proofs::lemmas::Counting::range_length))]
    pub fn new(len: usize) -> SmallIndexIter
        requires { len ≤ SmallIndex.LIMIT }
        ensures items { result ≡ range_with_len 0 len }
        ensures count { length result ≡ len }
    {
        SmallIndexIter { range: 0..len }
    }
}

impl Iterator for SmallIndexIter {
    type Item = SmallIndex;

    ghost next_gives = { YieldsFirst (λ left. left) };

    ghost remaining = { item_count (λ left. left) };

    #[tactic(auto, using(crate::proofs::lemmas::Counting::range_moved, crate::proofs::lemmas::Counting::first_of_left))]
    fn next(&mut self) -> Option<SmallIndex> {
        let index = self.range.next()?;
        Some(SmallIndex::must(index))
    }
}
