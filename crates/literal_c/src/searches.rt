//! Exports that search for patterns that C passes with the call.
ghost use Rattle.std.specs.Prelude.{◌≡◌, ◌⊎◌, ◌↔◌, ◌-◌, ◌<◌, ◌≤◌, length};
ghost use Rattle.std.specs.List.{AllZip};
ghost use Rattle.literal_base.specs.Leftmost.{IsLeftmostMatch};
ghost use Rattle.literal_base.specs.Occurs.{IsValidSpan, NothingOccurs, between, rest_from};
ghost use Rattle.literal_search.specs.SearchValue.{CanBeKept};
ghost use Rattle.literal_c.specs.Answers.{IsAnswerForC, IsPage, match_of};
ghost use Rattle.literal_c.specs.Arguments.{Agree, IsStatus, NeedTooMany, argument_query, is_set};
ghost use Rattle.literal_c.specs.Pieces.{AreEnds, pieces};

use crate::answers::{answer_each, match_for_c, write_page};
use crate::arguments::{can_be_searched, search_for};
use crate::pieces::{Pieces, are_ends};
use crate::{
    LITERAL_BAD_ARGUMENTS, LITERAL_DAMAGED, LITERAL_NO_SEARCHER, LITERAL_NONE, LITERAL_OK,
    LiteralAnswer, LiteralMatch, LiteralPage,
};
use literal_search::{Damaged, Span};
use std::alloc::Global;

/// Returns whether the patterns can be searched for, with either match kind, and with case kept or ignored:
/// [`LITERAL_OK`] or [`LITERAL_NO_SEARCHER`]. Or [`LITERAL_BAD_ARGUMENTS`], if the ends decrease or exceed the buffer.
#[unsafe(no_mangle)]
pub extern "C" fn literal_can_search(patterns: &[u8], ends: &[usize]) -> i32
    ensures bad_arguments { (result ≡ LITERAL_BAD_ARGUMENTS) ↔ ¬ AreEnds (length patterns.now) 0 ends.now }
    ensures no_searcher { (result ≡ LITERAL_NO_SEARCHER)
        ↔ (AreEnds (length patterns.now) 0 ends.now × ¬ CanBeKept (pieces patterns.now 0 ends.now)) }
    ensures ok { (result ≡ LITERAL_OK)
        ↔ (AreEnds (length patterns.now) 0 ends.now × CanBeKept (pieces patterns.now 0 ends.now)) }
{
    if !are_ends(patterns.len(), ends) {
        LITERAL_BAD_ARGUMENTS
    } else if can_be_searched(patterns, ends) {
        LITERAL_OK
    } else {
        LITERAL_NO_SEARCHER
    }
}

/// Finds the leftmost match in the bytes of the haystack from `start` up to `end`, which is not included. With
/// [`LITERAL_OK`] the match is in `found`; [`LITERAL_NONE`] says that no pattern occurs there. A match lies whole in
/// these bytes, and its offsets are in the whole haystack. The status is [`LITERAL_BAD_ARGUMENTS`] if there is no such
/// match kind, if the ends decrease or exceed the buffer, if `start` is above `end`, or if `end` is above the
/// haystack's length; otherwise it is [`LITERAL_NO_SEARCHER`] if the patterns can't be searched for.
/// [`LITERAL_OUT_OF_MEMORY`](crate::LITERAL_OUT_OF_MEMORY) and [`LITERAL_TOO_LARGE`](crate::LITERAL_TOO_LARGE) come
/// only if they can be. Unless the status is [`LITERAL_OK`], lent memory is unchanged.
///
/// ```rust
/// let status = literal_find(alloc, kind, 0, WORDS, &ENDS, TEXT, 14, 51, &mut found);
/// assert!(rt; status == LITERAL_OK);
/// assert_match(&rt, &found, (0, 28, 33));
/// ```
#[unsafe(no_mangle)]
pub extern "C" fn literal_find(
    alloc: Global,
    kind: u32,
    ignore_case: u32,
    patterns: &[u8],
    ends: &[usize],
    haystack: &[u8],
    start: usize,
    end: usize,
    found: &mut LiteralMatch,
) -> i32
    ensures status { IsStatus (Agree kind patterns.now ends.now × IsValidSpan haystack.now (between start end))
        (pieces patterns.now 0 ends.now) (NeedTooMany ignore_case patterns.now ends.now) result }
    ensures found { result ≡ LITERAL_OK → IsLeftmostMatch (argument_query kind patterns.now ends.now)
        (is_set ignore_case) haystack.now (between start end) (match_of found.new) }
    ensures none { result ≡ LITERAL_NONE
        → NothingOccurs (pieces patterns.now 0 ends.now) (is_set ignore_case) haystack.now (between start end) }
    ensures as_before { (result ≡ LITERAL_OK) ⊎ (found.new ≡ found.old) }
{
    if start > end || end > haystack.len() {
        return LITERAL_BAD_ARGUMENTS;
    }
    match search_for(alloc, kind, ignore_case, patterns, ends) {
        Err(refusal) => refusal.status(),
        Ok(search) => match search.find_in(haystack, Span { start, end }) {
            None => LITERAL_NONE,
            Some(it) => {
                *found = match_for_c(&it);
                LITERAL_OK
            }
        },
    }
}

/// Finds all matches in the haystack from an offset on that do not overlap, as many as there is room for: first the
/// leftmost match from there on, then each time the leftmost match after the end of the previous one. The page says how
/// many were written, where the next call continues, and whether nothing is left. The rest of the array is unchanged.
/// A call looks up at most three times the bytes from that offset on, and once more for each whole 262,000 bytes of the
/// longest pattern. The status is [`LITERAL_BAD_ARGUMENTS`] if there is no such match kind, if the ends
/// decrease or exceed the buffer, if the offset is above the haystack's length, or if there is no room for a match;
/// else it is [`LITERAL_NO_SEARCHER`] if the patterns can't be searched for. Unless the status is [`LITERAL_OK`], lent
/// memory is unchanged.
#[unsafe(no_mangle)]
pub extern "C" fn literal_find_all(
    alloc: Global,
    kind: u32,
    ignore_case: u32,
    patterns: &[u8],
    ends: &[usize],
    haystack: &[u8],
    from: usize,
    found: &mut [LiteralMatch],
    page: &mut LiteralPage,
) -> i32
    ensures status { IsStatus (Agree kind patterns.now ends.now × (from ≤ length haystack.now) × (0 < length found.old))
        (pieces patterns.now 0 ends.now) (NeedTooMany ignore_case patterns.now ends.now) result }
    ensures page { result ≡ LITERAL_OK → IsPage (argument_query kind patterns.now ends.now) (is_set ignore_case)
        haystack.now (rest_from haystack.now from) found.old found.new page.new }
    ensures as_before { (result ≡ LITERAL_OK) ⊎ ((found.new ≡ found.old) × (page.new ≡ page.old)) }
    ensures not_none { ¬ (result ≡ LITERAL_NONE) }
{
    let end = haystack.len();
    if from > end || found.is_empty() {
        return LITERAL_BAD_ARGUMENTS;
    }
    match search_for(alloc, kind, ignore_case, patterns, ends) {
        Err(refusal) => refusal.status(),
        Ok(search) => {
            let matches = search.find_iter_in(haystack, Span { start: from, end });
            match write_page(matches, from, found) {
                Err(Damaged) => LITERAL_DAMAGED,
                Ok(written) => {
                    *page = written;
                    LITERAL_OK
                }
            }
        }
    }
}

/// Finds the leftmost match of each of many haystacks in one buffer, with offsets from the beginning of that haystack.
/// The status is [`LITERAL_BAD_ARGUMENTS`] if there is no such match kind, if the ends of patterns or haystacks
/// decrease or exceed their buffer, or if there are not as many answers as haystacks; else it is
/// [`LITERAL_NO_SEARCHER`] if the patterns can't be searched for. Unless the status is [`LITERAL_OK`], lent memory is
/// unchanged.
#[unsafe(no_mangle)]
pub extern "C" fn literal_find_each(
    alloc: Global,
    kind: u32,
    ignore_case: u32,
    patterns: &[u8],
    ends: &[usize],
    haystacks: &[u8],
    haystack_ends: &[usize],
    answers: &mut [LiteralAnswer],
) -> i32
    ensures status { IsStatus (Agree kind patterns.now ends.now × AreEnds (length haystacks.now) 0 haystack_ends.now
        × (length answers.old ≡ length haystack_ends.now)) (pieces patterns.now 0 ends.now)
        (NeedTooMany ignore_case patterns.now ends.now) result }
    ensures answers { result ≡ LITERAL_OK → AllZip
        (IsAnswerForC (argument_query kind patterns.now ends.now) (is_set ignore_case))
        (pieces haystacks.now 0 haystack_ends.now) answers.new }
    ensures as_before { (result ≡ LITERAL_OK) ⊎ (answers.new ≡ answers.old) }
    ensures not_none { ¬ (result ≡ LITERAL_NONE) }
{
    if answers.len() != haystack_ends.len() || !are_ends(haystacks.len(), haystack_ends) {
        return LITERAL_BAD_ARGUMENTS;
    }
    match search_for(alloc, kind, ignore_case, patterns, ends) {
        Err(refusal) => refusal.status(),
        Ok(search) => match answer_each(&search, Pieces::new(haystacks, haystack_ends), answers) {
            Err(Damaged) => LITERAL_DAMAGED,
            Ok(()) => LITERAL_OK,
        },
    }
}
