//! Exports that write a search into an array, or check one there.
ghost use Rattle.std.specs.Prelude.{◌≡◌, ◌⊎◌, ◌↔◌, ◌-◌, length};
ghost use Rattle.literal_search.specs.SearchValue.{CanBeKept, NeedTooManyStates};
ghost use Rattle.literal_search.specs.Prepared.{ForPrepared, IsWhole, RefusesToPrepare, WritesPrepared};
ghost use Rattle.literal_search.specs.PreparedOverlapping.{ForOverlapping, IsWholeOverlapping, RefusesOverlapping};
ghost use Rattle.literal_search.specs.PreparedOverlapping.{WritesOverlapping};
ghost use Rattle.literal_c.specs.Arguments.{Agree, IsStatus, NeedTooMany, argument_search, is_set};
ghost use Rattle.literal_c.specs.Overlapping.{overlapping_for};
ghost use Rattle.literal_c.specs.Pieces.{AreEnds, pieces};

use crate::arguments::{search_for, search_for_all};
use crate::{LITERAL_DAMAGED, LITERAL_NONE, LITERAL_OK, LITERAL_TOO_SHORT};
use literal_search::{Prepared, PreparedOverlapping};
use std::alloc::Global;

/// Writes a search for the patterns into the first entries of an array. The calls whose names end in `_in` search by
/// it, as often as they are called. `needed` says how many entries these are: for each byte of the patterns, at most
/// two more than the number of distinct bytes, one for each pattern, and some hundreds. With [`LITERAL_TOO_SHORT`],
/// `needed` says so too, and the array is too short. The other statuses are those of
/// [`literal_find`](crate::literal_find). After any status but [`LITERAL_OK`] the array is unchanged, and so is
/// `needed`, except after [`LITERAL_TOO_SHORT`].
#[unsafe(no_mangle)]
pub extern "C" fn literal_prepare(
    alloc: Global,
    kind: u32,
    ignore_case: u32,
    patterns: &[u8],
    ends: &[usize],
    prepared: &mut [u32],
    needed: &mut usize,
) -> i32
    ensures status { IsStatus (Agree kind patterns.now ends.now) (pieces patterns.now 0 ends.now)
        (NeedTooMany ignore_case patterns.now ends.now) result
        ⊎ ((result ≡ LITERAL_TOO_SHORT) × Agree kind patterns.now ends.now
        × CanBeKept (pieces patterns.now 0 ends.now)) }
    ensures ok { result ≡ LITERAL_OK → WritesPrepared (argument_search kind ignore_case patterns.now ends.now)
        prepared.old prepared.new needed.new }
    ensures too_short { result ≡ LITERAL_TOO_SHORT → RefusesToPrepare
        (argument_search kind ignore_case patterns.now ends.now) prepared.old (record { needed = needed.new }) }
    ensures as_before { (result ≡ LITERAL_OK) ⊎ (prepared.new ≡ prepared.old) }
    ensures needed { ((result ≡ LITERAL_OK) ⊎ (result ≡ LITERAL_TOO_SHORT)) ⊎ (needed.new ≡ needed.old) }
    ensures not_none { ¬ (result ≡ LITERAL_NONE) }
{
    match search_for(alloc, kind, ignore_case, patterns, ends) {
        Err(refusal) => refusal.status(),
        Ok(search) => match search.into_prepared(prepared) {
            Ok(places) => {
                *needed = places;
                LITERAL_OK
            }
            Err(error) => {
                *needed = error.needed;
                LITERAL_TOO_SHORT
            }
        },
    }
}

/// The same for every occurrence: a search for [`literal_find_overlapping_in`](crate::literal_find_overlapping_in). The
/// array also lists, for each pattern, the patterns that are suffixes of it. The statuses are those of
/// [`literal_prepare`]; [`LITERAL_OUT_OF_MEMORY`](crate::LITERAL_OUT_OF_MEMORY) comes also if these lists have 2^32
/// numbers or more.
#[unsafe(no_mangle)]
pub extern "C" fn literal_prepare_overlapping(
    alloc: Global,
    ignore_case: u32,
    patterns: &[u8],
    ends: &[usize],
    prepared: &mut [u32],
    needed: &mut usize,
) -> i32
    ensures status { IsStatus (AreEnds (length patterns.now) 0 ends.now) (pieces patterns.now 0 ends.now)
        (NeedTooManyStates (is_set ignore_case) (pieces patterns.now 0 ends.now)) result
        ⊎ ((result ≡ LITERAL_TOO_SHORT) × AreEnds (length patterns.now) 0 ends.now
        × CanBeKept (pieces patterns.now 0 ends.now)) }
    ensures ok { result ≡ LITERAL_OK → WritesOverlapping
        (overlapping_for (pieces patterns.now 0 ends.now) (is_set ignore_case)) prepared.old prepared.new needed.new }
    ensures too_short { result ≡ LITERAL_TOO_SHORT
        → RefusesOverlapping (overlapping_for (pieces patterns.now 0 ends.now) (is_set ignore_case)) prepared.old
        (record { needed = needed.new }) }
    ensures as_before { (result ≡ LITERAL_OK) ⊎ (prepared.new ≡ prepared.old) }
    ensures needed { ((result ≡ LITERAL_OK) ⊎ (result ≡ LITERAL_TOO_SHORT)) ⊎ (needed.new ≡ needed.old) }
    ensures not_none { ¬ (result ≡ LITERAL_NONE) }
{
    match search_for_all(alloc, ignore_case, patterns, ends) {
        Err(refusal) => refusal.status(),
        Ok(search) => match search.into_prepared(prepared) {
            Ok(places) => {
                *needed = places;
                LITERAL_OK
            }
            Err(error) => {
                *needed = error.needed;
                LITERAL_TOO_SHORT
            }
        },
    }
}

/// Returns whether an array begins with a whole search: [`LITERAL_OK`], as for each that [`literal_prepare`] wrote, or
/// [`LITERAL_DAMAGED`]. It reads all numbers of the search. It finds each change of one number, unless that number says
/// how many there are, and most other changes.
#[unsafe(no_mangle)]
pub extern "C" fn literal_check_prepared(prepared: &[u32]) -> i32
    ensures ok { (result ≡ LITERAL_OK) ↔ IsWhole prepared.now }
    ensures damaged { (result ≡ LITERAL_DAMAGED) ↔ ¬ IsWhole prepared.now }
    ensures prepared { ForPrepared prepared.now (λ _. result ≡ LITERAL_OK) }
{
    match Prepared::new(prepared) {
        Ok(search) if search.is_whole() => LITERAL_OK,
        _ => LITERAL_DAMAGED,
    }
}

/// The same for an array that [`literal_prepare_overlapping`] wrote.
#[unsafe(no_mangle)]
pub extern "C" fn literal_check_overlapping(prepared: &[u32]) -> i32
    ensures ok { (result ≡ LITERAL_OK) ↔ IsWholeOverlapping prepared.now }
    ensures damaged { (result ≡ LITERAL_DAMAGED) ↔ ¬ IsWholeOverlapping prepared.now }
    ensures prepared { ForOverlapping prepared.now (λ _. result ≡ LITERAL_OK) }
{
    match PreparedOverlapping::new(prepared) {
        Ok(search) if search.is_whole() => LITERAL_OK,
        _ => LITERAL_DAMAGED,
    }
}
