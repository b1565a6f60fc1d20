//! The numbers of a search, as it keeps them.
ghost use Rattle.std.specs.Prelude.{◌≡◌, ◌+◌, ◌-◌, ◌<◌, ◌≤◌, ◌^◌, ◌++◌, [], ℕ, IfOk, OnErr, Some, length, map};
ghost use Rattle.std.specs.Prelude.{slice_index};
ghost use Rattle.literal_rows.specs.Inside.Arrays.{IsPut, kind_number, numbers_for, version_for};
ghost use Rattle.literal_rows.specs.Arrays.{ArePrints, AreShort};
ghost use Rattle.literal_rows.specs.Inside.Kept.{numbers_kept};
ghost use Rattle.literal_rows.specs.Inside.Packed.{Puts};

use crate::array::{
    ArrayTooShort, NO_LISTED, NO_PATTERN, NO_PATTERN_LONGEST, SCAN_LEN, assemble, scan_numbers,
};
use crate::classes::Classes;
use crate::packed::put_numbers;
use literal_base::packed::MatchKind;
use literal_fingerprints::CandidateScan;
use std::alloc::{AllocError, Global};
use std::marker::Model;

/// How many numbers are written before their memory is freed.
const FREED: usize = 1 << 22;

/// The numbers of a search, as `prepare` writes them. Contracts see them.
#[derive(Drop)]
pub struct Numbers {
    /// Empty if there is no pattern.
    kept: Vec<u32>,
    /// The match kind, or `None` for every occurrence.
    kind: Option<MatchKind>,
}

impl Model for Numbers {
    ghost use Rattle.std.specs.Prelude.{List, ℕ};
    ghost use Rattle.literal_rows.specs.Inside.Kept.{numbers_kept};

    ghost Value = { List ℕ };

    ghost view = { λ n. numbers_kept n.kind n.kept.items };
}

impl Numbers {
    /// The numbers for no pattern. They take no memory.
    pub fn for_none(alloc: Global, kind: Option<MatchKind>) -> Numbers
        ensures { result ≡ numbers_kept kind [] }
    {
        let kept = Vec::new(alloc);
        Numbers { kept, kind }
    }

    /// The numbers of a search by this match kind, or for every occurrence, as [`assemble`] puts them together.
    pub fn assembled(
        alloc: Global,
        kind: Option<MatchKind>,
        classes: &Classes,
        patterns: &[Vec<u8>],
        rows: Vec<u32>,
        starts: &[usize],
        ends: &[u32],
        prints: &[u32; SCAN_LEN],
    ) -> Result<Numbers, AllocError>
        requires width { classes.now.width < 2 ^ 32 }
        requires patterns { length patterns.now ≤ 2 ^ 31 - 1 }
        requires rows { length rows.items ≤ 2 ^ 31 - 1 }
        requires starts { length starts.now ≤ 2 ^ 32 }
        requires ends { length ends.now < 2 ^ 32 }
        requires inside { (i : ℕ) → slice_index starts.now i ≤ length ends.now }
        requires short { AreShort (map (λ pattern. pattern.items) patterns.now) }
        ensures { IfOk result (λ numbers. numbers ≡ numbers_for (version_for kind) (kind_number kind)
            classes.now.table classes.now.width (map (λ pattern. pattern.items) patterns.now) rows.items starts.now
            (ends.now ++ prints.now)) }
    {
        let kept = assemble(alloc, kind, classes, patterns, rows, starts, ends, prints)?;
        Ok(Numbers { kept, kind })
    }

    /// The numbers.
    pub fn as_slice(&self) -> &[u32]
        ensures { result.now ≡ self.now }
    {
        if !self.kept.is_empty() {
            return &self.kept;
        }
        match self.kind {
            None => &NO_LISTED,
            Some(MatchKind::LeftmostFirst) => &NO_PATTERN,
            Some(MatchKind::LeftmostLongest) => &NO_PATTERN_LONGEST,
        }
    }

    /// Writes the numbers into the first entries of an array, and returns how many they are.
    pub fn put(&self, array: &mut [u32]) -> Result<usize, ArrayTooShort>
        ensures { IsPut self.now array.old array.new result }
    {
        let numbers = self.as_slice();
        let needed = numbers.len();
        if array.len() < needed {
            return Err(ArrayTooShort { needed });
        }
        put_numbers(array, 0, numbers);
        Ok(needed)
    }

    /// Like [`Numbers::put`], and frees the numbers while it writes them. So they are not in memory twice.
    pub fn put_all(self, array: &mut [u32]) -> Result<usize, ArrayTooShort>
        ensures { IsPut self array.old array.new result }
    {
        let needed = self.as_slice().len();
        if array.len() < needed {
            return Err(ArrayTooShort { needed });
        }
        if self.kept.is_empty() {
            put_numbers(array, 0, self.as_slice());
            return Ok(needed);
        }
        move_numbers(array, self.kept);
        Ok(needed)
    }

    /// A copy, for the same patterns and match kind. Allocates only if there is a pattern.
    pub fn copy(
        &self,
        alloc: Global,
        kind: MatchKind,
        patterns: &[Vec<u8>],
    ) -> Result<Numbers, AllocError>
        ensures some { 0 < length patterns.now → IfOk result (λ copy. copy ≡ self.now) }
        ensures none { length patterns.now ≡ 0 → IfOk result (λ copy. copy ≡ numbers_kept (Some kind) []) }
        ensures no_memory { OnErr result (0 < length patterns.now) }
    {
        if patterns.is_empty() {
            return Ok(Numbers::for_none(alloc, Some(kind)));
        }
        let mut kept = Vec::new(alloc);
        kept.extend_from_slice(&self.kept)?;
        let kind = self.kind;
        Ok(Numbers { kept, kind })
    }
}

/// Writes numbers into the first entries of an array, the last numbers first, and frees those that are written.
fn move_numbers(array: &mut [u32], numbers: Vec<u32>)
    requires { length numbers.items ≤ length array.old }
    ensures { Puts 0 numbers.items array.old array.new }
{
    let mut rest = numbers;
    while !rest.is_empty() {
        let from = rest.len().saturating_sub(FREED);
        put_numbers(array, from, &rest[from..]);
        rest.truncate(from);
        rest.shrink_to_fit();
    }
}

/// The numbers of the scan for candidates of these patterns.
pub fn prints_for(ignore_case: bool, patterns: &[Vec<u8>]) -> [u32; SCAN_LEN]
    ensures { ArePrints (map (λ pattern. pattern.items) patterns.now) ignore_case result }
{
    let scan = CandidateScan::new(ignore_case, patterns);
    scan_numbers(scan.as_ref())
}
