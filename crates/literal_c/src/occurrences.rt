//! Exports that find every occurrence, write pages of the occurrences after a position, or count them.
ghost use Rattle.std.specs.Prelude.{◌≡◌, ◌⊎◌, ◌-◌, ◌<◌, ◌≤◌, ◌^◌, length, min, slice_index, take};
ghost use Rattle.std.specs.List.{All};
ghost use Rattle.literal_base.specs.Occurs.{IsValidSpan, between};
ghost use Rattle.literal_search.specs.SearchValue.{NeedTooManyStates};
ghost use Rattle.literal_search.specs.PreparedOverlapping.{ForOverlapping};
ghost use Rattle.literal_c.specs.Answers.{MayBePage, match_of};
ghost use Rattle.literal_c.specs.Arguments.{IsOverlappingStatusBy, IsStatus, is_set};
ghost use Rattle.literal_c.specs.Overlapping.{IsCountForC, IsFrom, IsOverlappingPage, all_that_occurs};
ghost use Rattle.literal_c.specs.Overlapping.{occurrences_from, overlapping_for};
ghost use Rattle.literal_c.specs.Pieces.{AreEnds, pieces};

use crate::answers::write_overlapping;
use crate::arguments::search_for_all;
use crate::resumed::Resumed;
use crate::{
    LITERAL_BAD_ARGUMENTS, LITERAL_DAMAGED, LITERAL_NONE, LITERAL_OK, LiteralMatch, LiteralPage,
};
use literal_search::{Damaged, PreparedOverlapping, Span};
use std::alloc::Global;

/// Finds every occurrence in the bytes of the haystack from `start` up to `end`, which is not included, also those that
/// overlap others, as many as there is room for. They are in the order of their ends and, at one end, of the pattern
/// numbers. The page says how many were written, the end of the last one, or `start` if there is none, and whether
/// there are no more. The rest of the array is unchanged. The statuses are those of
/// [`literal_find`](crate::literal_find), except [`LITERAL_NONE`]; without room for an occurrence it is
/// [`LITERAL_BAD_ARGUMENTS`] too. Unless the status is [`LITERAL_OK`], lent memory is unchanged.
#[unsafe(no_mangle)]
pub extern "C" fn literal_find_overlapping(
    alloc: Global,
    ignore_case: u32,
    patterns: &[u8],
    ends: &[usize],
    haystack: &[u8],
    start: usize,
    end: usize,
    found: &mut [LiteralMatch],
    page: &mut LiteralPage,
) -> i32
    ensures status { IsStatus (AreEnds (length patterns.now) 0 ends.now × IsValidSpan haystack.now (between start end)
        × (0 < length found.old))
        (pieces patterns.now 0 ends.now)
        (NeedTooManyStates (is_set ignore_case) (pieces patterns.now 0 ends.now)) result }
    ensures page { result ≡ LITERAL_OK → IsOverlappingPage
        (all_that_occurs (overlapping_for (pieces patterns.now 0 ends.now) (is_set ignore_case)) haystack.now
        (between start end)) found.old found.new page.new }
    ensures as_before { (result ≡ LITERAL_OK) ⊎ ((found.new ≡ found.old) × (page.new ≡ page.old)) }
    ensures not_none { ¬ (result ≡ LITERAL_NONE) }
{
    if start > end || end > haystack.len() || found.is_empty() {
        return LITERAL_BAD_ARGUMENTS;
    }
    match search_for_all(alloc, ignore_case, patterns, ends) {
        Err(refusal) => refusal.status(),
        Ok(search) => {
            let matches = search.find_overlapping_in(haystack, Span { start, end });
            match write_overlapping(matches, start, found) {
                Err(Damaged) => LITERAL_DAMAGED,
                Ok(written) => {
                    *page = written;
                    LITERAL_OK
                }
            }
        }
    }
}

/// Like [`literal_find_overlapping`], by a search that
/// [`literal_prepare_overlapping`](crate::literal_prepare_overlapping) wrote. [`LITERAL_BAD_ARGUMENTS`] and
/// [`LITERAL_DAMAGED`] come as from [`literal_find_all_in`](crate::literal_find_all_in). After any status but
/// [`LITERAL_OK`] the page and the array of matches are as after that call.
#[unsafe(no_mangle)]
pub extern "C" fn literal_find_overlapping_in(
    prepared: &[u32],
    haystack: &[u8],
    start: usize,
    end: usize,
    found: &mut [LiteralMatch],
    page: &mut LiteralPage,
) -> i32
    ensures status { IsOverlappingStatusBy prepared.now
        (IsValidSpan haystack.now (between start end) × (0 < length found.old))
        (λ status. status ≡ LITERAL_OK) result }
    ensures page { ForOverlapping prepared.now (λ search. result ≡ LITERAL_OK → IsOverlappingPage
        (all_that_occurs search haystack.now (between start end)) found.old found.new page.new) }
    ensures inside { result ≡ LITERAL_OK
        → MayBePage (between start end) (slice_index prepared.now 3) found.new page.new }
    ensures as_before { (result ≡ LITERAL_OK) ⊎ (page.new ≡ page.old) }
    ensures refused { result ≡ LITERAL_BAD_ARGUMENTS → found.new ≡ found.old }
{
    if start > end || end > haystack.len() || found.is_empty() {
        return LITERAL_BAD_ARGUMENTS;
    }
    let Ok(search) = PreparedOverlapping::new(prepared) else {
        return LITERAL_DAMAGED;
    };
    let matches = search.find_overlapping_in(haystack, Span { start, end });
    match write_overlapping(matches, start, found) {
        Err(Damaged) => LITERAL_DAMAGED,
        Ok(written) => {
            *page = written;
            LITERAL_OK
        }
    }
}

/// Like [`literal_find_overlapping_in`], but only the occurrences that end after `next`, or at it and have at least
/// this pattern number; each still begins at `start` or later. To go on after a page, pass the end of its last match
/// and one more than that match's pattern number. The status is [`LITERAL_BAD_ARGUMENTS`] also if `next` is before
/// `start` or after `end`. With any array, no match comes before the position that was passed; so a loop over pages
/// ends. A call looks up at most three times the bytes to search, which begin before `next` by the length of the
/// longest pattern.
#[unsafe(no_mangle)]
pub extern "C" fn literal_find_overlapping_from_in(
    prepared: &[u32],
    haystack: &[u8],
    start: usize,
    end: usize,
    next: usize,
    pattern: usize,
    found: &mut [LiteralMatch],
    page: &mut LiteralPage,
) -> i32
    ensures status { IsOverlappingStatusBy prepared.now (IsValidSpan haystack.now (between start end)
        × (start ≤ next) × (next ≤ end) × (0 < length found.old)) (λ status. status ≡ LITERAL_OK) result }
    ensures page { ForOverlapping prepared.now (λ search. result ≡ LITERAL_OK → IsOverlappingPage
        (occurrences_from search haystack.now (between start end) next pattern) found.old found.new page.new) }
    ensures inside { result ≡ LITERAL_OK
        → MayBePage (between start end) (slice_index prepared.now 3) found.new page.new }
    ensures goes_on { result ≡ LITERAL_OK
        → All (λ it. IsFrom next pattern (match_of it)) (take page.new.written found.new) }
    ensures as_before { (result ≡ LITERAL_OK) ⊎ (page.new ≡ page.old) }
    ensures refused { result ≡ LITERAL_BAD_ARGUMENTS → found.new ≡ found.old }
{
    if start > end || end > haystack.len() || next < start || next > end || found.is_empty() {
        return LITERAL_BAD_ARGUMENTS;
    }
    let Ok(search) = PreparedOverlapping::new(prepared) else {
        return LITERAL_DAMAGED;
    };
    let from = start.max(next.saturating_sub(prepared[5] as usize));
    let matches = search.find_overlapping_in(haystack, Span { start: from, end });
    match write_overlapping(Resumed::new(matches, next, pattern), next, found) {
        Err(Damaged) => LITERAL_DAMAGED,
        Ok(written) => {
            *page = written;
            LITERAL_OK
        }
    }
}

/// Counts every occurrence in the bytes of the haystack from `start` up to `end`, which is not included, also those
/// that overlap others. If there are 2^64 - 1 or more, the count is 2^64 - 1. The statuses are those of
/// [`literal_find`](crate::literal_find), except [`LITERAL_NONE`]. Unless the status is [`LITERAL_OK`], the count is
/// unchanged.
#[unsafe(no_mangle)]
pub extern "C" fn literal_count_overlapping(
    alloc: Global,
    ignore_case: u32,
    patterns: &[u8],
    ends: &[usize],
    haystack: &[u8],
    start: usize,
    end: usize,
    count: &mut usize,
) -> i32
    ensures status { IsStatus (AreEnds (length patterns.now) 0 ends.now × IsValidSpan haystack.now (between start end))
        (pieces patterns.now 0 ends.now)
        (NeedTooManyStates (is_set ignore_case) (pieces patterns.now 0 ends.now)) result }
    ensures count { result ≡ LITERAL_OK → IsCountForC
        (overlapping_for (pieces patterns.now 0 ends.now) (is_set ignore_case)) haystack.now (between start end)
        count.new }
    ensures as_before { (result ≡ LITERAL_OK) ⊎ (count.new ≡ count.old) }
    ensures not_none { ¬ (result ≡ LITERAL_NONE) }
{
    if start > end || end > haystack.len() {
        return LITERAL_BAD_ARGUMENTS;
    }
    match search_for_all(alloc, ignore_case, patterns, ends) {
        Err(refusal) => refusal.status(),
        Ok(search) => {
            *count = count_for_c(search.count_overlapping_in(haystack, Span { start, end }));
            LITERAL_OK
        }
    }
}

/// Like [`literal_count_overlapping`], by a search that
/// [`literal_prepare_overlapping`](crate::literal_prepare_overlapping) wrote. [`LITERAL_BAD_ARGUMENTS`] and
/// [`LITERAL_DAMAGED`] come as from [`literal_find_in`](crate::literal_find_in).
#[unsafe(no_mangle)]
pub extern "C" fn literal_count_overlapping_in(
    prepared: &[u32],
    haystack: &[u8],
    start: usize,
    end: usize,
    count: &mut usize,
) -> i32
    ensures status { IsOverlappingStatusBy prepared.now (IsValidSpan haystack.now (between start end))
        (λ status. status ≡ LITERAL_OK) result }
    ensures count { ForOverlapping prepared.now (λ search. result ≡ LITERAL_OK
        → IsCountForC search haystack.now (between start end) count.new) }
    ensures as_before { (result ≡ LITERAL_OK) ⊎ (count.new ≡ count.old) }
{
    if start > end || end > haystack.len() {
        return LITERAL_BAD_ARGUMENTS;
    }
    let Ok(search) = PreparedOverlapping::new(prepared) else {
        return LITERAL_DAMAGED;
    };
    match search.count_overlapping_in(haystack, Span { start, end }) {
        Err(Damaged) => LITERAL_DAMAGED,
        Ok(number) => {
            *count = count_for_c(number);
            LITERAL_OK
        }
    }
}

/// A number, or the largest that C has if it is larger.
fn count_for_c(number: u128) -> usize
    ensures { result ≡ min number (2 ^ 64 - 1) }
{
    number.min(usize::MAX as u128) as usize
}
