//! Callers of identifiers and conversions that rely only on contracts.
ghost use Rattle.std.specs.Prelude.{◌≡◌, ◌<◌, ◌≤◌, ◌/◌, ◌%◌, ◌^◌, ◌↔◌, [], length, slice_index};
ghost use Rattle.std.specs.Prelude.{IsTrue, IfOk, IfSome, IsNone};
ghost use Rattle.std.specs.List.{enumerate_from, range_with_len};
ghost use Rattle.literal_ids.specs.Identifier.{IsCheckedNumber};

use literal_ids::int::{I8, I32, I64, U8, U16, U32, U64, Usize};
use literal_ids::{
    PatternID, PatternIDIter, SmallIndex, SmallIndexIter, StateID, StateIDError, WithStateIDIter,
    with_pattern_ids, with_state_ids,
};
use std::alloc::{AllocError, Global};
use std::hash::{Hash, Hasher};

/// A byte as an index, by a trait bound.
pub fn index_of<N: U8>(n: N) -> usize
    ensures { result ≡ N.number n }
{
    n.as_usize()
}

/// The two halves of a number of 16 bits, the high one first, by a trait bound.
pub fn halves_of_u16<N: U16 + Copy>(n: N) -> (u8, u8)
    ensures { result ≡ (N.number n / 2 ^ 8, N.number n % 2 ^ 8) }
{
    (n.high_u8(), n.low_u8())
}

/// The two halves of a number of 32 bits, the high one first, by a trait bound.
pub fn halves_of_u32<N: U32 + Copy>(n: N) -> (u16, u16)
    ensures { result ≡ (N.number n / 2 ^ 16, N.number n % 2 ^ 16) }
{
    (n.high_u16(), n.low_u16())
}

/// The two halves of a number of 64 bits, the high one first, by a trait bound.
pub fn halves_of_u64<N: U64 + Copy>(n: N) -> (u32, u32)
    ensures { result ≡ (N.number n / 2 ^ 32, N.number n % 2 ^ 32) }
{
    (n.high_u32(), n.low_u32())
}

/// A number to its 8 bits and back, by a trait bound.
pub fn there_and_back_by_i8<N: I8>(n: N) -> i8
    ensures { result ≡ N.number n }
{
    i8::from_bits(n.to_bits())
}

/// A number to its 32 bits and back, by a trait bound.
pub fn there_and_back_by_i32<N: I32>(n: N) -> i32
    ensures { result ≡ N.number n }
{
    i32::from_bits(n.to_bits())
}

/// A number to its 64 bits and back, by a trait bound.
pub fn there_and_back_by_i64<N: I64>(n: N) -> i64
    ensures { result ≡ N.number n }
{
    i64::from_bits(n.to_bits())
}

/// 8 bits to their number and back.
pub fn back_and_there_by_i8(bits: u8) -> u8
    ensures { result ≡ bits }
{
    i8::from_bits(bits).to_bits()
}

/// 32 bits to their number and back.
pub fn back_and_there_by_i32(bits: u32) -> u32
    ensures { result ≡ bits }
{
    i32::from_bits(bits).to_bits()
}

/// 64 bits to their number and back.
pub fn back_and_there_by_i64(bits: u64) -> u64
    ensures { result ≡ bits }
{
    i64::from_bits(bits).to_bits()
}

/// An index as 16 bits, by a trait bound.
pub fn short_of<N: Usize>(n: N) -> u16
    requires { N.number n < 2 ^ 16 }
    ensures { result ≡ N.number n }
{
    n.as_u16()
}

/// The state with a number, by a conversion that says what it refuses.
pub fn state_of(number: u64) -> Result<StateID, StateIDError>
    ensures { IsCheckedNumber number result }
{
    number.try_into()
}

/// The pattern with the number of a state.
pub fn pattern_of(state: StateID) -> PatternID
    ensures { result ≡ state }
{
    SmallIndex::from(state).into()
}

/// Whether a state comes before another.
pub fn is_before(state: StateID, other: StateID) -> bool
    ensures { IsTrue result ↔ (state < other) }
{
    state < other
}

/// Whether two patterns are the same.
pub fn is_same(pattern: PatternID, other: PatternID) -> bool
    ensures { IsTrue result ↔ (pattern ≡ other) }
{
    pattern == other
}

/// Feeds equal patterns to hashers in equal states. Afterwards their states are equal too.
pub fn hash_alike<H: Hasher>(pattern: PatternID, other: PatternID, one: &mut H, two: &mut H)
    requires same { pattern ≡ other }
    requires alike { one.old ≡ two.old }
    ensures { one.new ≡ two.new }
{
    pattern.hash(one);
    other.hash(two);
}

/// The numbers of the patterns that a `for` reads.
pub fn numbers_in_turn(alloc: Global, len: usize) -> Result<Vec<u32>, AllocError>
    requires { len ≤ PatternID.LIMIT }
    ensures { IfOk result (λ all. all.items ≡ range_with_len 0 len) }
{
    let mut all = Vec::new(alloc);
    for id in PatternID::iter(len) {
        all.push(id.as_u32())?;
    }
    Ok(all)
}

/// The states, collected.
pub fn states_collected(alloc: Global, len: usize) -> Result<Vec<StateID>, AllocError>
    requires { len ≤ StateID.LIMIT }
    ensures { IfOk result (λ all. all.items ≡ range_with_len 0 len) }
{
    StateID::iter(len).collect(alloc)
}

/// The number of small indices that an iteration gives.
pub fn count_of(len: usize) -> usize
    requires { len ≤ SmallIndex.LIMIT }
    ensures { result ≡ len }
{
    SmallIndexIter::new(len).count()
}

/// The words with their states, which a `for` reads in turn.
pub fn words_with_states(alloc: Global, words: &[u16]) -> Result<Vec<(StateID, u16)>, AllocError>
    requires { length words.now ≤ StateID.LIMIT }
    ensures { IfOk result (λ all. all.items ≡ enumerate_from 0 words.now) }
{
    let mut all = Vec::new(alloc);
    for (id, word) in with_state_ids(words) {
        all.push((id, *word))?;
    }
    Ok(all)
}

/// The identifier of an index at which this word is. Each word is looked up by its identifier.
pub fn place_of(words: &[u16], word: u16) -> Option<PatternID>
    requires { length words.now ≤ PatternID.LIMIT }
    ensures { IfSome result (λ id. (id < length words.now) × (slice_index words.now id ≡ word)) }
{
    for id in PatternID::iter(words.len()) {
        if words[id.as_usize()] == word {
            return Some(id);
        }
    }
    None
}

/// The number of pairs of patterns and elements.
pub fn count_of_pairs<T>(items: &[T]) -> usize
    requires { length items.now ≤ PatternID.LIMIT }
    ensures { result ≡ length items.now }
{
    with_pattern_ids(items).count()
}

/// The next pattern of an iteration that has ended: there is none, now and afterwards.
pub fn next_at_end(ids: &mut PatternIDIter) -> Option<PatternID>
    requires { ids.old ≡ [] }
    ensures none { IsNone result }
    ensures ended { ids.new ≡ [] }
{
    ids.next()
}

/// The next pair of an iteration that has ended: there is none, now and afterwards.
pub fn next_pair_at_end<'a, T>(pairs: &mut WithStateIDIter<'a, T>) -> Option<(StateID, &'a T)>
    requires { pairs.old ≡ [] }
    ensures none { IsNone result }
    ensures ended { pairs.new ≡ [] }
{
    pairs.next()
}
