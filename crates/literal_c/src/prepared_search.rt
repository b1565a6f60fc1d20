//! Exports that search by an array, for leftmost matches.
ghost use Rattle.std.specs.Prelude.{◌≡◌, ◌⊎◌, ◌+◌, ◌-◌, ◌<◌, ◌≤◌, length, slice_index};
ghost use Rattle.std.specs.List.{AllZip};
ghost use Rattle.literal_base.specs.Leftmost.{IsLeftmostMatch};
ghost use Rattle.literal_base.specs.Occurs.{IsValidSpan, NothingOccurs, between};
ghost use Rattle.literal_search.specs.Prepared.{ForPrepared};
ghost use Rattle.literal_c.specs.Answers.{IsAnswerForC, IsCount, IsPage, MayBeAnswer, MayBeFound, MayBePage, match_of};
ghost use Rattle.literal_c.specs.Arguments.{IsStatusBy};
ghost use Rattle.literal_c.specs.Pieces.{AreEnds, pieces};

use crate::answers::{answer_each, count_in, match_for_c, page_in};
use crate::pieces::{Pieces, are_ends};
use crate::{
    LITERAL_BAD_ARGUMENTS, LITERAL_DAMAGED, LITERAL_NONE, LITERAL_OK, LiteralAnswer, LiteralMatch,
    LiteralPage,
};
use literal_search::{Damaged, Prepared, Span};

/// Like [`literal_find`](crate::literal_find), by a search that [`literal_prepare`](crate::literal_prepare) wrote. The
/// status is [`LITERAL_BAD_ARGUMENTS`] if `start` is above `end`, or `end` above the haystack's length; otherwise it is
/// [`LITERAL_DAMAGED`] if the array does not have the parts of a search. With an array that was changed otherwise, the
/// status may be [`LITERAL_DAMAGED`], or another match or none may be found. But a match lies in the searched bytes,
/// and names one of the patterns; the array's fourth number is their number. Unless the status is [`LITERAL_OK`], lent
/// memory is unchanged.
#[unsafe(no_mangle)]
pub extern "C" fn literal_find_in(
    prepared: &[u32],
    haystack: &[u8],
    start: usize,
    end: usize,
    found: &mut LiteralMatch,
) -> i32
    ensures status { IsStatusBy prepared.now (IsValidSpan haystack.now (between start end))
        (λ status. (status ≡ LITERAL_OK) ⊎ (status ≡ LITERAL_NONE)) result }
    ensures found { ForPrepared prepared.now (λ search. result ≡ LITERAL_OK
        → IsLeftmostMatch search.query search.ignore_case haystack.now (between start end) (match_of found.new)) }
    ensures none { ForPrepared prepared.now (λ search. result ≡ LITERAL_NONE
        → NothingOccurs search.query.patterns search.ignore_case haystack.now (between start end)) }
    ensures inside { result ≡ LITERAL_OK
        → MayBeFound (between start end) (slice_index prepared.now 3) (match_of found.new) }
    ensures as_before { (result ≡ LITERAL_OK) ⊎ (found.new ≡ found.old) }
{
    if start > end || end > haystack.len() {
        return LITERAL_BAD_ARGUMENTS;
    }
    let Ok(search) = Prepared::new(prepared) else {
        return LITERAL_DAMAGED;
    };
    match search.find_in(haystack, Span { start, end }) {
        Err(Damaged) => LITERAL_DAMAGED,
        Ok(None) => LITERAL_NONE,
        Ok(Some(it)) => {
            *found = match_for_c(&it);
            LITERAL_OK
        }
    }
}

/// Like [`literal_find_all`](crate::literal_find_all), by a search that [`literal_prepare`](crate::literal_prepare)
/// wrote, in the bytes of the haystack from `start` up to `end`, which is not included. [`LITERAL_BAD_ARGUMENTS`] and
/// [`LITERAL_DAMAGED`] come as from [`literal_find_in`], and the first also without room for a match. After any status
/// but [`LITERAL_OK`] the page is unchanged, and after [`LITERAL_BAD_ARGUMENTS`] the array of matches too; with a
/// damaged search some matches may be written. With any array, a page is the last one or full, and the next page begins
/// at least one byte later for each match. The bound on the bytes that it looks up holds too, by the length of the
/// longest pattern that the array gives.
#[unsafe(no_mangle)]
pub extern "C" fn literal_find_all_in(
    prepared: &[u32],
    haystack: &[u8],
    start: usize,
    end: usize,
    found: &mut [LiteralMatch],
    page: &mut LiteralPage,
) -> i32
    ensures status { IsStatusBy prepared.now (IsValidSpan haystack.now (between start end) × (0 < length found.old))
        (λ status. status ≡ LITERAL_OK) result }
    ensures page { ForPrepared prepared.now (λ search. result ≡ LITERAL_OK
        → IsPage search.query search.ignore_case haystack.now (between start end) found.old found.new page.new) }
    ensures inside { result ≡ LITERAL_OK
        → MayBePage (between start end) (slice_index prepared.now 3) found.new page.new }
    ensures goes_on { result ≡ LITERAL_OK → start + page.new.written ≤ page.new.next }
    ensures as_before { (result ≡ LITERAL_OK) ⊎ (page.new ≡ page.old) }
    ensures refused { result ≡ LITERAL_BAD_ARGUMENTS → found.new ≡ found.old }
{
    if start > end || end > haystack.len() || found.is_empty() {
        return LITERAL_BAD_ARGUMENTS;
    }
    let Ok(search) = Prepared::new(prepared) else {
        return LITERAL_DAMAGED;
    };
    match page_in(&search, haystack, Span { start, end }, found) {
        Err(Damaged) => LITERAL_DAMAGED,
        Ok(written) => {
            *page = written;
            LITERAL_OK
        }
    }
}

/// Like [`literal_find_each`](crate::literal_find_each), by a search that [`literal_prepare`](crate::literal_prepare)
/// wrote. The status is [`LITERAL_BAD_ARGUMENTS`] if the ends of haystacks decrease or exceed their buffer, or if the
/// number of answers is not that of haystacks; then the answers are unchanged. With [`LITERAL_DAMAGED`] some of them
/// may be written.
#[unsafe(no_mangle)]
pub extern "C" fn literal_find_each_in(
    prepared: &[u32],
    haystacks: &[u8],
    haystack_ends: &[usize],
    answers: &mut [LiteralAnswer],
) -> i32
    ensures status { IsStatusBy prepared.now (AreEnds (length haystacks.now) 0 haystack_ends.now
        × (length answers.old ≡ length haystack_ends.now)) (λ status. status ≡ LITERAL_OK) result }
    ensures answers { ForPrepared prepared.now (λ search. result ≡ LITERAL_OK
        → AllZip (IsAnswerForC search.query search.ignore_case) (pieces haystacks.now 0 haystack_ends.now)
        answers.new) }
    ensures inside { result ≡ LITERAL_OK → AllZip (MayBeAnswer (slice_index prepared.now 3))
        (pieces haystacks.now 0 haystack_ends.now) answers.new }
    ensures refused { result ≡ LITERAL_BAD_ARGUMENTS → answers.new ≡ answers.old }
{
    if answers.len() != haystack_ends.len() || !are_ends(haystacks.len(), haystack_ends) {
        return LITERAL_BAD_ARGUMENTS;
    }
    let Ok(search) = Prepared::new(prepared) else {
        return LITERAL_DAMAGED;
    };
    match answer_each(&search, Pieces::new(haystacks, haystack_ends), answers) {
        Err(Damaged) => LITERAL_DAMAGED,
        Ok(()) => LITERAL_OK,
    }
}

/// Counts the matches that [`literal_find_all_in`] finds, page after page: at most as many as there are bytes to
/// search. It looks up at most as many bytes as one long page. The statuses are the same. Unless the status is
/// [`LITERAL_OK`], the count is unchanged.
#[unsafe(no_mangle)]
pub extern "C" fn literal_count_in(
    prepared: &[u32],
    haystack: &[u8],
    start: usize,
    end: usize,
    count: &mut usize,
) -> i32
    ensures status { IsStatusBy prepared.now (IsValidSpan haystack.now (between start end))
        (λ status. status ≡ LITERAL_OK) result }
    ensures count { ForPrepared prepared.now (λ search. result ≡ LITERAL_OK
        → IsCount search.query search.ignore_case haystack.now (between start end) count.new) }
    ensures most { result ≡ LITERAL_OK → count.new ≤ end - start }
    ensures as_before { (result ≡ LITERAL_OK) ⊎ (count.new ≡ count.old) }
{
    if start > end || end > haystack.len() {
        return LITERAL_BAD_ARGUMENTS;
    }
    let Ok(search) = Prepared::new(prepared) else {
        return LITERAL_DAMAGED;
    };
    match count_in(&search, haystack, Span { start, end }) {
        Err(Damaged) => LITERAL_DAMAGED,
        Ok(matches) => {
            *count = matches;
            LITERAL_OK
        }
    }
}
