//! The tables of a list of patterns: of their first bytes, and of a rare byte of each.
ghost use Rattle.std.specs.Prelude.{◌≡◌, ◌==◌, ◌||◌, ◌<◌, ◌≤◌, ℕ, max, length, slice_index, if◌then◌else◌};
ghost use Rattle.std.specs.Prelude.{nat_le};
ghost use Rattle.std.specs.List.{All, list_all};
ghost use Rattle.literal_base.specs.Bytes.{contains};
ghost use Rattle.literal_base.specs.Occurs.{NoneIsEmpty, pattern_at, same_byte};
ghost use Rattle.literal_prefilters.specs.Tables.{rarest, is_start_byte, is_rare_byte, offset_below, largest_offset};
ghost use Rattle.literal_prefilters.specs.Table.{size};
ghost use Rattle.literal_prefilters.specs.Tables.{of_set, table_of, with_rarest};

use super::counted_set::CountedSet;
use literal_base::alphabet::opposite_ascii_case;
use literal_base::byte_frequencies::freq_rank;
use literal_ids::PatternID;
use literal_packed::pattern::Patterns;

/// The length of the longest pattern for a table of rare bytes, so that an offset fits a byte.
pub(super) const LONGEST: usize = 255;

/// The pattern with an identifier. Tables visit the patterns by ascending identifier, in whatever order they are tried.
pub(super) fn bytes_of(patterns: &Patterns, id: usize) -> &[u8]
    requires { id < length patterns.now.patterns }
    ensures bytes { result.now ≡ pattern_at patterns.now.patterns id }
    ensures some { 0 < length result.now }
{
    let _ = patterns.len(); // (its contract says that each pattern has an identifier)
    patterns.get(PatternID::must(id)).bytes()
}

/// Adds the first byte of a pattern.
pub(super) fn add_start(set: &mut CountedSet, pattern: &[u8], ignore_case: bool)
    requires { 0 < length pattern.now }
    ensures { (b : ℕ) → contains set.new b
        ≡ (contains set.old b || same_byte ignore_case b (slice_index pattern.now 0)) }
{
    set.mark(pattern[0], ignore_case);
}

/// The first byte of least rank.
fn rarest(pattern: &[u8]) -> u8
    requires { 0 < length pattern.now }
    ensures { result ≡ rarest pattern.now }
{
    let mut best = pattern[0];
    for byte in pattern {
        if freq_rank(*byte) < freq_rank(best) {
            best = *byte;
        }
    }
    best
}

/// Adds the rarest byte of a pattern, unless the pattern has a byte of the set.
pub(super) fn add_rarest(set: &mut CountedSet, pattern: &[u8], ignore_case: bool)
    requires { 0 < length pattern.now }
    ensures each { (b : ℕ) → contains set.new b ≡ with_rarest ignore_case (contains set.old) pattern.now b }
    ensures some { 1 ≤ size (of_set (contains set.new)) }
{
    if !set.holds_any(pattern) {
        set.mark(rarest(pattern), ignore_case);
    }
}

fn raise(offsets: &mut [u8; 256], byte: u8, offset: u8)
    ensures { (b : ℕ) → slice_index offsets.new b ≡
        (if b == byte then max (slice_index offsets.old b) offset else slice_index offsets.old b) }
{
    let at = byte as usize;
    if offsets[at] < offset {
        offsets[at] = offset;
    }
}

/// Raises the offset of each byte of the pattern, in both cases if case is ignored, to its last offset in the pattern.
pub(super) fn raise_all(offsets: &mut [u8; 256], pattern: &[u8], ignore_case: bool)
    requires { length pattern.now ≤ 255 }
    ensures { (b : ℕ) → slice_index offsets.new b ≡ max (slice_index offsets.old b)
        (offset_below ignore_case b pattern.now (length pattern.now)) }
{
    for (offset, byte) in pattern.iter().enumerate() {
        raise(offsets, *byte, offset as u8);
        if ignore_case {
            raise(offsets, opposite_ascii_case(*byte), offset as u8);
        }
    }
}

/// The distance of each byte of the set.
pub(super) fn distances(set: &CountedSet, offsets: &[u8; 256]) -> [Option<u8>; 256]
    ensures { result ≡ table_of (contains set.now) (slice_index offsets.now) }
{
    let mut distances = [None; 256];
    for byte in 0..256usize {
        if set.contains(byte as u8) {
            distances[byte] = Some(offsets[byte]);
        }
    }
    distances
}
