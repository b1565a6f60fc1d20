//! Answers in the form that C gets.
ghost use Rattle.std.specs.Prelude.{◌≡◌, ◌+◌, ◌-◌, ◌≤◌, Bool, IfOk, OnOk, length, slice_index};
ghost use Rattle.std.specs.List.{AllZip};
ghost use Rattle.std.specs.Result.{IsOkAnd};
ghost use Rattle.literal_base.specs.Occurs.{IsValidSpan};
ghost use Rattle.literal_base.specs.Query.{Query};
ghost use Rattle.literal_c.specs.Answers.{IsAnswerForC, IsCount, IsPage, MayBeAnswer, MayBePage};
ghost use Rattle.literal_c.specs.Answers.{answer_for_c as answer_value, match_for_c as match_value};
ghost use Rattle.literal_search.specs.OverlappingMatchesValue.{OverlappingMatchesValue};
ghost use Rattle.literal_search.specs.Prepared.{ForPrepared};
ghost use Rattle.literal_search.specs.SearchValue.{SearchValue};
ghost use Rattle.literal_c.specs.Inside.Given.{AreGiven};
ghost use Rattle.literal_c.specs.Overlapping.{IsOverlappingPage};

use crate::finder::{Finder, LeftmostMatches, Occurrences};
use crate::pieces::Pieces;
use crate::{LITERAL_NONE, LITERAL_OK, LiteralAnswer, LiteralMatch, LiteralPage};
use literal_search::{Damaged, Match, Prepared, SHORT_SPAN, Span};

/// A match for C.
pub fn match_for_c(found: &Match) -> LiteralMatch
    ensures { result ≡ match_value found.now }
{
    LiteralMatch {
        pattern: found.pattern().as_usize(),
        start: found.start(),
        end: found.end(),
    }
}

/// The answer of a search for C.
fn answer_for_c(found: Option<Match>) -> LiteralAnswer
    ensures { result ≡ answer_value found }
{
    match found {
        Some(found) => LiteralAnswer {
            status: LITERAL_OK,
            found: match_for_c(&found),
        },
        None => LiteralAnswer {
            status: LITERAL_NONE,
            found: LiteralMatch {
                pattern: 0,
                start: 0,
                end: 0,
            },
        },
    }
}

/// Writes the matches of an iteration that begins at an offset, as many as there is room for, and returns how many
/// these are and what is left.
pub fn write_page<M: LeftmostMatches + Drop>(
    mut matches: M,
    start: usize,
    found: &mut [LiteralMatch],
) -> Result<LiteralPage, Damaged>
    requires begins { (M.rest matches).span.start ≡ start }
    requires ordered { start ≤ (M.rest matches).span.end }
    ensures page { (search : SearchValue) → M.is_for matches search → IsOkAnd result
        (IsPage search.query search.ignore_case (M.rest matches).haystack (M.rest matches).span found.old found.new) }
    ensures inside { IfOk result (MayBePage (M.rest matches).span (M.rest matches).patterns found.new) }
    ensures goes_on { IfOk result (λ page. start + page.written ≤ page.next) }
{
    let mut page = LiteralPage {
        written: 0,
        next: start,
        is_last: 1,
    };
    for place in found.iter_mut() {
        let Some(it) = matches.next_match()? else {
            return Ok(page);
        };
        *place = match_for_c(&it);
        page.written += 1;
        page.next = it.end();
    }
    if let Some(it) = matches.next_match()? {
        page.next = it.start();
        page.is_last = 0;
        return Ok(page);
    }
    Ok(page)
}

/// Writes the matches in a span of a haystack. Before its first candidate it needs no iteration.
pub fn page_in(
    search: &Prepared<'_>,
    haystack: &[u8],
    span: Span,
    found: &mut [LiteralMatch],
) -> Result<LiteralPage, Damaged>
    requires { IsValidSpan haystack.now span }
    ensures page { ForPrepared search.now (λ whole. IsOkAnd result
        (IsPage whole.query whole.ignore_case haystack.now span found.old found.new)) }
    ensures inside { IfOk result (MayBePage span (slice_index search.now 3) found.new) }
    ensures goes_on { IfOk result (λ page. span.start + page.written ≤ page.next) }
{
    let nothing = LiteralPage {
        written: 0,
        next: span.start,
        is_last: 1,
    };
    let start = search.first_candidate_in(haystack, span);
    if start == span.end {
        return Ok(nothing);
    }
    let rest = Span {
        start,
        end: span.end,
    };
    let page = page_from(search, haystack, rest, found)?;
    if page.written == 0 && page.is_last == 1 {
        return Ok(nothing);
    }
    Ok(page)
}

/// The same by an iteration. A short span has one that clears less memory.
fn page_from(
    search: &Prepared<'_>,
    haystack: &[u8],
    span: Span,
    found: &mut [LiteralMatch],
) -> Result<LiteralPage, Damaged>
    requires { IsValidSpan haystack.now span }
    ensures page { ForPrepared search.now (λ whole. IsOkAnd result
        (IsPage whole.query whole.ignore_case haystack.now span found.old found.new)) }
    ensures inside { IfOk result (MayBePage span (slice_index search.now 3) found.new) }
    ensures goes_on { IfOk result (λ page. span.start + page.written ≤ page.next) }
{
    if span.end - span.start <= SHORT_SPAN {
        return write_page(search.find_iter_in_short(haystack, span), span.start, found);
    }
    write_page(search.find_iter_in(haystack, span), span.start, found)
}

/// Counts the matches in a span of a haystack, in the same way.
pub fn count_in(search: &Prepared<'_>, haystack: &[u8], span: Span) -> Result<usize, Damaged>
    requires { IsValidSpan haystack.now span }
    ensures count { ForPrepared search.now (λ whole. IsOkAnd result
        (IsCount whole.query whole.ignore_case haystack.now span)) }
    ensures most { IfOk result (λ count. count ≤ span.end - span.start) }
{
    let start = search.first_candidate_in(haystack, span);
    if start == span.end {
        return Ok(0);
    }
    let rest = Span {
        start,
        end: span.end,
    };
    if let Some(count) = search.count_of_byte_in(haystack, rest) {
        return Ok(count);
    }
    count_from(search, haystack, rest)
}

/// The same by an iteration.
fn count_from(search: &Prepared<'_>, haystack: &[u8], span: Span) -> Result<usize, Damaged>
    requires { IsValidSpan haystack.now span }
    ensures count { ForPrepared search.now (λ whole. IsOkAnd result
        (IsCount whole.query whole.ignore_case haystack.now span)) }
    ensures most { IfOk result (λ count. count ≤ span.end - span.start) }
{
    if span.end - span.start <= SHORT_SPAN {
        return count_matches(search.find_iter_in_short(haystack, span));
    }
    count_matches(search.find_iter_in(haystack, span))
}

/// Writes the occurrences of an iteration that begins at an offset, as many as there is room for, and returns how many
/// these are and what is left.
pub fn write_overlapping<M: Occurrences + Drop>(
    mut matches: M,
    start: usize,
    found: &mut [LiteralMatch],
) -> Result<LiteralPage, Damaged>
    ensures page { (m : OverlappingMatchesValue) → M.stands_at matches m → m.end ≡ start
        → IsOkAnd result (IsOverlappingPage m found.old found.new) }
    ensures inside { IfOk result (λ page. AreGiven (M.may_give matches) start found.new page) }
{
    let mut page = LiteralPage {
        written: 0,
        next: start,
        is_last: 1,
    };
    for place in found.iter_mut() {
        let Some(it) = matches.next_match()? else {
            return Ok(page);
        };
        *place = match_for_c(&it);
        page.written += 1;
        page.next = it.end();
    }
    if let Some(_) = matches.next_match()? {
        page.is_last = 0;
    }
    Ok(page)
}

/// Writes an answer for each haystack. There are as many answers as haystacks.
pub fn answer_each<F: Finder>(
    search: &F,
    haystacks: Pieces<'_, '_>,
    answers: &mut [LiteralAnswer],
) -> Result<(), Damaged>
    requires { length haystacks ≡ length answers.old }
    ensures answers { (query : Query) (ignore_case : Bool) → F.is_for search.now query ignore_case
        → IsOkAnd result (λ _. AllZip (IsAnswerForC query ignore_case) haystacks.entry answers.new) }
    ensures inside { OnOk result (AllZip (MayBeAnswer (F.patterns search.now)) haystacks.entry answers.new) }
{
    let mut i = 0;
    for haystack in haystacks {
        let end = haystack.len();
        answers[i] = answer_for_c(search.find_in(haystack, Span { start: 0, end })?);
        i += 1;
    }
    Ok(())
}

/// The number of matches that an iteration gives.
pub fn count_matches<M: LeftmostMatches + Drop>(mut matches: M) -> Result<usize, Damaged>
    ensures count { (search : SearchValue) → M.is_for matches search → IsOkAnd result
        (IsCount search.query search.ignore_case (M.rest matches).haystack (M.rest matches).span) }
    ensures most { IfOk result (λ count. count ≤ (M.rest matches).span.end - (M.rest matches).span.start) }
{
    let mut count = 0;
    while let Some(_) = matches.next_match()? {
        count += 1;
    }
    Ok(count)
}
