//! Exports that search by an array in texts that may continue.
ghost use Rattle.std.specs.Prelude.{◌≡◌, ◌⊎◌, ◌+◌, ◌-◌, ◌<◌, ◌≤◌, ◌++◌, Bool, IfOk, IfSome, List, MatchOption};
ghost use Rattle.std.specs.Prelude.{length, map, slice_index, take, ℕ};
ghost use Rattle.std.specs.Result.{IsOkAnd};
ghost use Rattle.literal_base.specs.Occurs.{between};
ghost use Rattle.literal_search.specs.Prepared.{ForPrepared, longest_in};
ghost use Rattle.literal_search.specs.SearchValue.{SearchValue, longest_of};
ghost use Rattle.literal_search.specs.Stream.{AnswersSoFar, MayBeKnown};
ghost use Rattle.literal_c.specs.Answers.{MayBePage, match_of};
ghost use Rattle.literal_c.specs.Arguments.{IsStatusBy, is_set};
ghost use Rattle.literal_c.specs.SoFar.{AreFirstSoFar, IsKnownPage, IsTold, IsToldBy, MayFollow, TellsSoFar};
ghost use Rattle.literal_c.specs.SoFar.{deciding_len};
ghost use Rattle.literal_c.specs.Inside.SoFar.{IsUnknown};

use crate::answers::match_for_c;
use crate::finder::LeftmostMatches;
use crate::{
    LITERAL_BAD_ARGUMENTS, LITERAL_DAMAGED, LITERAL_NONE, LITERAL_OK, LiteralMatch, LiteralPage,
};
use literal_search::{Damaged, Match, Prepared, SoFar, Span};

/// Finds the leftmost match from `start` on in a text that comes in pieces, by a search that
/// [`literal_prepare`](crate::literal_prepare) wrote. The haystack is the held part of the text; `more` says whether
/// anything may follow. [`LITERAL_OK`] says that `found` is the match, whatever follows, and `next` is its end.
/// [`LITERAL_NONE`] says that no match begins before `next`, whatever follows: the bytes before it are no longer
/// needed, and a search continues from there once more bytes have come, or the text has ended. With `more`, a match is
/// found once the longest pattern would fit between its start and the end of the haystack; and `next` is before that
/// end by one byte less than the longest pattern has, but at least `start`. Without `more`, `next` is that end. The
/// status is [`LITERAL_BAD_ARGUMENTS`] if `start` is above the haystack's length, and [`LITERAL_DAMAGED`] as for
/// [`literal_find_in`](crate::literal_find_in), which also says what holds for any array. After any status but these
/// two the lent memory is unchanged, and after [`LITERAL_NONE`] so is `found`.
#[unsafe(no_mangle)]
pub extern "C" fn literal_find_so_far_in(
    prepared: &[u32],
    haystack: &[u8],
    start: usize,
    more: u32,
    found: &mut LiteralMatch,
    next: &mut usize,
) -> i32
    ensures status { IsStatusBy prepared.now (start ≤ length haystack.now)
        (λ status. (status ≡ LITERAL_OK) ⊎ (status ≡ LITERAL_NONE)) result }
    ensures told { (result ≡ LITERAL_OK) ⊎ (result ≡ LITERAL_NONE)
        → TellsSoFar prepared.now haystack.now start (is_set more) result found.new next.new }
    ensures as_before { (result ≡ LITERAL_OK) ⊎ (found.new ≡ found.old) }
    ensures next_as_before { ((result ≡ LITERAL_OK) ⊎ (result ≡ LITERAL_NONE)) ⊎ (next.new ≡ next.old) }
{
    if start > haystack.len() {
        return LITERAL_BAD_ARGUMENTS;
    }
    let Ok(search) = Prepared::new(prepared) else {
        return LITERAL_DAMAGED;
    };
    match find_so_far(&search, haystack, start, more != 0) {
        Err(Damaged) => LITERAL_DAMAGED,
        Ok(answer) => tell_so_far(answer, found, next),
    }
}

/// What is known of the leftmost match from an offset on. The haystack begins a text, and is all of it if no more may
/// follow.
fn find_so_far(
    search: &Prepared<'_>,
    haystack: &[u8],
    start: usize,
    more: bool,
) -> Result<SoFar, Damaged>
    requires { start ≤ length haystack.now }
    ensures prepared { ForPrepared search.now (λ prepared. (behind : List ℕ) → MayFollow more behind
        → IsOkAnd result
        (AnswersSoFar prepared.query prepared.ignore_case (haystack.now ++ behind) start)) }
    ensures told { IfOk result (IsTold more (longest_in search.now) (length haystack.now) start) }
    ensures inside { IfOk result (MayBeKnown (slice_index search.now 3) start) }
{
    if more {
        return search.find_so_far(haystack, start);
    }
    let end = haystack.len();
    match search.find_in(haystack, Span { start, end })? {
        Some(found) => Ok(SoFar::Found(found)),
        None => Ok(SoFar::NoneBefore(end)),
    }
}

/// Writes what is known for C, and returns the status.
fn tell_so_far(answer: SoFar, found: &mut LiteralMatch, next: &mut usize) -> i32
    ensures told { IsToldBy answer result found.new next.new }
    ensures as_before { (result ≡ LITERAL_OK) ⊎ (found.new ≡ found.old) }
{
    match answer {
        SoFar::Found(it) => {
            *found = match_for_c(&it);
            *next = it.end();
            LITERAL_OK
        }
        SoFar::NoneBefore(place) => {
            *next = place;
            LITERAL_NONE
        }
    }
}

/// Finds all matches from `start` on that are known and do not overlap, in a text that comes in pieces, as many as
/// there is room for, by a search that [`literal_prepare`](crate::literal_prepare) wrote. The haystack is the held part
/// of the text; `more` says whether anything may follow. The matches are the first ones of the text from there on,
/// whatever follows. With `more`, a match is known once the longest pattern would fit between its start and the end of
/// the haystack; without, every match is. If the array of matches is full, `is_last` is 0, and `next` is the end of the
/// last match. Otherwise `is_last` is 1, and `next` is the first offset, not before that end, at which a match may
/// begin that is not known: without `more`, the end of the haystack. A search continues at `next`, and no longer needs
/// the bytes before it. All matches come from one iteration, which looks up as many bytes as
/// [`literal_find_all_in`](crate::literal_find_all_in) may. The status is [`LITERAL_BAD_ARGUMENTS`] if `start` is above
/// the haystack's length, or without room for a match. The other statuses, what is unchanged after each, and what holds
/// for any array, are as for that call.
#[unsafe(no_mangle)]
pub extern "C" fn literal_find_all_so_far_in(
    prepared: &[u32],
    haystack: &[u8],
    start: usize,
    more: u32,
    found: &mut [LiteralMatch],
    page: &mut LiteralPage,
) -> i32
    ensures status { IsStatusBy prepared.now ((start ≤ length haystack.now) × (0 < length found.old))
        (λ status. status ≡ LITERAL_OK) result }
    ensures matches { ForPrepared prepared.now (λ search. result ≡ LITERAL_OK
        → AreFirstSoFar search haystack.now start (is_set more) (map match_of (take page.new.written found.new))
        page.new.next) }
    ensures known { result ≡ LITERAL_OK → IsKnownPage (deciding_len (is_set more) (longest_in prepared.now))
        (length haystack.now) start found.old found.new page.new }
    ensures inside { result ≡ LITERAL_OK
        → MayBePage (between start (length haystack.now)) (slice_index prepared.now 3) found.new page.new }
    ensures goes_on { result ≡ LITERAL_OK → start + page.new.written ≤ page.new.next }
    ensures as_before { (result ≡ LITERAL_OK) ⊎ (page.new ≡ page.old) }
    ensures refused { result ≡ LITERAL_BAD_ARGUMENTS → found.new ≡ found.old }
{
    let end = haystack.len();
    if start > end || found.is_empty() {
        return LITERAL_BAD_ARGUMENTS;
    }
    let Ok(search) = Prepared::new(prepared) else {
        return LITERAL_DAMAGED;
    };
    let matches = search.find_iter_in(haystack, Span { start, end });
    let deciding = deciding_len_by(&search, more != 0);
    match write_known(matches, start, end, deciding, found) {
        Err(Damaged) => LITERAL_DAMAGED,
        Ok(written) => {
            *page = written;
            LITERAL_OK
        }
    }
}

/// How many bytes, from its first one on, decide whether a match is known: as many as the longest pattern has, if more
/// may follow.
fn deciding_len_by(search: &Prepared<'_>, more: bool) -> usize
    ensures { result ≡ deciding_len more (longest_in search.now) }
{
    if more { search.max_pattern_len() } else { 0 }
}

/// The match, if it is known: the bytes that decide about it lie before the end.
fn known(found: Option<Match>, end: usize, deciding: usize) -> Option<Match>
    requires { IfSome found (λ it. it.start ≤ end) }
    ensures { MatchOption result (IsUnknown found end deciding)
        (λ it. (found ≡ Some it) × (it.start + deciding ≤ end)) }
{
    let it = found?;
    if end - it.start() >= deciding {
        Some(it)
    } else {
        None
    }
}

/// Writes the known matches of an iteration that begins at an offset, as many as there is room for, and returns how
/// many these are and where a search continues.
fn write_known<M: LeftmostMatches + Drop>(
    mut matches: M,
    start: usize,
    end: usize,
    deciding: usize,
    found: &mut [LiteralMatch],
) -> Result<LiteralPage, Damaged>
    requires begins { (M.rest matches).span ≡ between start end }
    requires ordered { start ≤ end }
    requires whole { end ≡ length (M.rest matches).haystack }
    ensures matches { (search : SearchValue) (more : Bool) → M.is_for matches search
        → deciding ≡ deciding_len more (longest_of search.query.patterns) → IsOkAnd result (λ page.
        AreFirstSoFar search (M.rest matches).haystack start more (map match_of (take page.written found.new))
        page.next) }
    ensures known { IfOk result (IsKnownPage deciding end start found.old found.new) }
    ensures inside { IfOk result (MayBePage (M.rest matches).span (M.rest matches).patterns found.new) }
    ensures goes_on { IfOk result (λ page. start + page.written ≤ page.next) }
{
    let mut page = LiteralPage {
        written: 0,
        next: start,
        is_last: 0,
    };
    for place in found.iter_mut() {
        let Some(it) = known(matches.next_match()?, end, deciding) else {
            let open = end.saturating_sub(deciding.saturating_sub(1));
            page.next = page.next.max(open);
            page.is_last = 1;
            return Ok(page);
        };
        *place = match_for_c(&it);
        page.written += 1;
        page.next = it.end();
    }
    Ok(page)
}
