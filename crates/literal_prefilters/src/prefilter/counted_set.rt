//! A byte set that keeps its size and the sum of its ranks.
ghost use Rattle.std.specs.Prelude.{◌≡◌, ◌==◌, ◌||◌, ◌&&◌, ◌<◌, ◌≤◌, ◌*◌, ◌↔◌, ℕ, true, false};
ghost use Rattle.std.specs.Prelude.{IsTrue, nat_le};
ghost use Rattle.std.specs.List.{list_any};
ghost use Rattle.literal_base.specs.Bytes.{contains};
ghost use Rattle.literal_base.specs.Occurs.{same_byte};
ghost use Rattle.literal_prefilters.specs.Table.{size, rank_sum_of};
ghost use Rattle.literal_prefilters.specs.Tables.{of_set};

use super::byte_table::MOST_BYTES;
use literal_base::alphabet::{ByteSet, opposite_ascii_case};
use literal_base::byte_frequencies::freq_rank;
use std::marker::Model;

/// A set of bytes, with their number and the sum of their ranks. Contracts see a boolean for each byte.
#[derive(Drop)]
pub(super) struct CountedSet {
    set: ByteSet,
    count: usize,
    rank_sum: u16,
}

impl Model for CountedSet {
    ghost use Rattle.std.specs.Prelude.{List, Bool};

    ghost Value = { List Bool };

    ghost use Rattle.literal_prefilters.specs.Inside.CountedSet.{IsCounted};

    ghost view = { λ s. s.set };

    ghost invariant = { IsCounted };
}

impl CountedSet {
    /// The empty set.
    pub(super) fn empty() -> CountedSet
        ensures { (b : ℕ) → contains result b ≡ false }
    {
        CountedSet {
            set: ByteSet::empty(),
            count: 0,
            rank_sum: 0,
        }
    }

    /// Adds a byte, in both cases if case is ignored.
    pub(super) fn mark(&mut self, byte: u8, ignore_case: bool)
        ensures { (b : ℕ) → contains self.new b ≡ (contains self.old b || same_byte ignore_case b byte) }
    {
        self.add(byte);
        if ignore_case {
            self.add(opposite_ascii_case(byte));
        }
    }

    /// Adds a byte. No sum overflows, since all 256 ranks together are at most 65280.
    fn add(&mut self, byte: u8)
        ensures { (b : ℕ) → contains self.new b ≡ (contains self.old b || b == byte) }
    {
        if !self.set.contains(byte) {
            self.set.add(byte);
            self.count += 1;
            self.rank_sum += u16::from(freq_rank(byte));
        }
    }

    pub(super) fn contains(&self, byte: u8) -> bool
        ensures { result ≡ contains self.now byte }
    {
        self.set.contains(byte)
    }

    pub(super) fn holds_any(&self, pattern: &[u8]) -> bool
        ensures { result ≡ list_any (contains self.now) pattern.now }
    {
        pattern.iter().any(|byte| self.contains(*byte))
    }

    /// Whether a byte of the set is above 0x7F.
    pub(super) fn holds_high(&self) -> bool
        ensures { IsTrue result ↔ ((b : ℕ) × (127 < b) × (b < 256) × (contains self.now b ≡ true)) }
    {
        for byte in 128..=255 {
            if self.contains(byte) {
                return true;
            }
        }
        false
    }

    /// The number of its bytes.
    pub(super) fn count(&self) -> usize
        ensures { result ≡ size (of_set (contains self.now)) }
    {
        self.count
    }

    /// The sum of the ranks of its bytes.
    pub(super) fn rank_sum(&self) -> u16
        ensures value { result ≡ rank_sum_of (of_set (contains self.now)) }
        ensures low { result ≤ 255 * size (of_set (contains self.now)) }
    {
        self.rank_sum
    }

    /// Whether it has as many bytes as a table may have.
    pub(super) fn fits_a_table(&self) -> bool
        ensures { result ≡ (nat_le 1 (size (of_set (contains self.now)))
            && nat_le (size (of_set (contains self.now))) 3) }
    {
        self.count >= 1 && self.count <= MOST_BYTES
    }

    /// Whether it has more bytes than a table may have. So has each set that includes it.
    pub(super) fn is_past_a_table(&self) -> bool
        ensures { IsTrue result ↔ (3 < size (of_set (contains self.now))) }
    {
        self.count > MOST_BYTES
    }
}
