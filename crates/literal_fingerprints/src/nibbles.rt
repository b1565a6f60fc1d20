//! The buckets of bytes, by the two nibbles of each.
ghost use Rattle.std.specs.Prelude.{◌≡◌, ◌⊎◌, ℕ, ◌+◌, ◌<◌, ◌≤◌, bit_and, length, slice_index, true};
ghost use Rattle.literal_base.specs.Occurs.{same_byte};
ghost use Rattle.literal_fingerprints.specs.FingerprintsValue.{buckets_of, table_in};
ghost use Rattle.literal_fingerprints.specs.Inside.Nibbles.{half_table};

use literal_base::alphabet::opposite_ascii_case;

/// The number of nibbles.
pub const HALVES: usize = 16;

/// For each nibble a bitmask of eight buckets. A byte is in the buckets that both of its nibbles have.
#[derive(Clone, Copy)]
pub struct Nibbles {
    pub low: [u8; HALVES],
    pub high: [u8; HALVES],
}

impl Nibbles {
    /// The table in 32 of these bytes, from an index on.
    #[inline(always)]
    pub fn from_bytes(bytes: &[u8], at: usize) -> Nibbles
        requires { at + 32 ≤ length bytes.now }
        ensures { half_table result ≡ table_in bytes.now at }
    {
        let (mut low, mut high) = ([0; HALVES], [0; HALVES]);
        low.copy_from_slice(&bytes[at..at + HALVES]);
        high.copy_from_slice(&bytes[at + HALVES..at + 2 * HALVES]);
        Nibbles { low, high }
    }

    /// The number of bits that are set for low nibbles.
    pub fn low_bits(&self) -> u32 {
        let [a, b, c, d, e, f, g, h, i, j, k, l, m, n, o, p] = self.low;
        let front = u64::from_le_bytes([a, b, c, d, e, f, g, h]);
        let back = u64::from_le_bytes([i, j, k, l, m, n, o, p]);
        front.count_ones().wrapping_add(back.count_ones())
    }

    /// The buckets of a byte.
    pub fn buckets(&self, byte: u8) -> u8
        ensures { result ≡ buckets_of (half_table self.now) byte }
    {
        self.low[(byte % 16) as usize] & self.high[(byte / 16) as usize]
    }

    /// The buckets that every possible byte of a text has at a position of a pattern: the pattern's byte, in either
    /// case if case is ignored, or any byte after the pattern.
    pub fn shared(&self, ignore_case: bool, pattern: &[u8], place: usize) -> u8
        ensures { (byte : ℕ)
            → (place < length pattern.now → same_byte ignore_case byte (slice_index pattern.now place) ≡ true)
            → bit_and result (buckets_of (half_table self.now) byte) ≡ result }
    {
        if place < pattern.len() {
            let byte = pattern[place];
            self.buckets(byte) & self.buckets(other_case(ignore_case, byte))
        } else {
            self.of_any_byte()
        }
    }

    /// The buckets that every byte has.
    fn of_any_byte(&self) -> u8
        ensures { (byte : ℕ) → bit_and result (buckets_of (half_table self.now) byte) ≡ result }
    {
        let mut shared = u8::MAX;
        for half in 0..HALVES {
            shared &= self.low[half] & self.high[half];
        }
        shared
    }
}

/// The other byte that is equal if case is ignored, otherwise the byte itself.
pub fn other_case(ignore_case: bool, byte: u8) -> u8
    ensures { (a : ℕ) → same_byte ignore_case a byte ≡ true → (a ≡ byte) ⊎ (a ≡ result) }
{
    if ignore_case {
        opposite_ascii_case(byte)
    } else {
        byte
    }
}
