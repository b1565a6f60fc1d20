//! Skips offsets at which no pattern begins, by their marks, 16 at a time.
ghost use Rattle.std.specs.Prelude.{◌+◌, ◌-◌, ◌<◌, ◌^◌, ◌≡◌, ◌≤◌, false, length, slice_index, ℕ};

use literal_rows::walk::ENDS;
use std::simd::prelude::*;

/// How many marks are read at once.
const LANES: usize = 16;

/// Skips offsets whose marks say that no pattern begins. Returns the offset that it reached.
#[inline(always)]
pub fn pass_unmarked(numbers: &[u32], first: usize, from: usize, upto: usize) -> usize
    requires ordered { from ≤ upto }
    requires first { from < upto → first ≤ from }
    requires inside { from < upto → upto ≤ first + length numbers.now }
    ensures within { (from ≤ result) × (result ≤ upto) }
    ensures none { (at : ℕ) → from ≤ at → at < result → slice_index numbers.now (at - first) < 2 ^ 31 }
{
    let mut at = from;
    while upto - at >= LANES && !has_begun(numbers, at - first) {
        at += LANES;
    }
    if upto - at >= LANES {
        at += unmarked_from(numbers, at - first);
    }
    at
}

/// Whether one of 16 marks, from an index on, says that a pattern begins.
#[inline(always)]
fn has_begun(numbers: &[u32], at: usize) -> bool
    requires { at + 16 ≤ length numbers.now }
    ensures { result ≡ false → (i : ℕ) → at ≤ i → i < at + 16 → slice_index numbers.now i < 2 ^ 31 }
{
    u32x16::from_slice(&numbers[at..]).reduce_or() >= ENDS
}

/// How many of 16 marks, from an index on, come before the first that says that a pattern begins.
#[inline(always)]
fn unmarked_from(numbers: &[u32], at: usize) -> usize
    requires { at + 16 ≤ length numbers.now }
    ensures few { result ≤ 16 }
    ensures none { (i : ℕ) → at ≤ i → i < at + result → slice_index numbers.now i < 2 ^ 31 }
{
    let marks = u32x16::from_slice(&numbers[at..]);
    let begun = marks.simd_ge(u32x16::splat(ENDS)).to_bitmask();
    if begun == 0 {
        LANES
    } else {
        begun.trailing_zeros() as usize
    }
}
