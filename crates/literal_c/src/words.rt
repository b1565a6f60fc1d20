//! Exports that search for whole words by an array, by the bytes of the haystack or by its sides.
ghost use Rattle.std.specs.Prelude.{◌≡◌, ◌⊎◌, ◌+◌, ◌-◌, ◌<◌, ◌≤◌, IfOk, MatchOption, MatchResult, length, slice_index};
ghost use Rattle.std.specs.Result.{IsOkAnd};
ghost use Rattle.literal_base.specs.Occurs.{IsValidSpan, between};
ghost use Rattle.literal_search.specs.PreparedWords.{FindsLentWord, ForWholeWords};
ghost use Rattle.literal_search.specs.WholeWords.{IsLeftmostAlone, IsLeftmostAloneBy, NothingAlone, NothingAloneBy};
ghost use Rattle.literal_c.specs.Answers.{MayBeFound, MayBePage, match_of};
ghost use Rattle.literal_c.specs.Arguments.{IsKind};
ghost use Rattle.literal_c.specs.Inside.Given.{AreWordsBy};
ghost use Rattle.literal_c.specs.Words.{AreSides, ForAsciiWords, HasWordParts, IsWordCount, IsWordCountBy, IsWordPage};
ghost use Rattle.literal_c.specs.Words.{IsWordPageBy, IsWordStatusBy, sides_by};

use crate::answers::match_for_c;
use crate::arguments::match_kind;
use crate::{
    LITERAL_BAD_ARGUMENTS, LITERAL_DAMAGED, LITERAL_NONE, LITERAL_OK, LiteralMatch, LiteralPage,
};
use literal_search::{Damaged, Match, MatchKind, Prepared, PreparedWords, Span, WholeWords};

/// Finds the leftmost whole word in the bytes of the haystack from `start` up to `end`, which is not included: a
/// pattern with no ASCII letter, digit or underscore right before it or right after it. The bytes of the haystack next
/// to these bytes count too. If several whole words begin at one offset, `kind` decides.
/// [`literal_prepare`](crate::literal_prepare) has to have written the array with
/// [`LITERAL_LEFTMOST_LONGEST`](crate::LITERAL_LEFTMOST_LONGEST), for either `kind`; an array of the other kind is like
/// one that was changed. [`LITERAL_BAD_ARGUMENTS`] comes also if there is no such `kind`. The rest is as for
/// [`literal_find_in`](crate::literal_find_in).
#[unsafe(no_mangle)]
pub extern "C" fn literal_find_word_in(
    kind: u32,
    prepared: &[u32],
    haystack: &[u8],
    start: usize,
    end: usize,
    found: &mut LiteralMatch,
) -> i32
    ensures status { IsWordStatusBy prepared.now (IsKind kind × IsValidSpan haystack.now (between start end))
        (λ status. (status ≡ LITERAL_OK) ⊎ (status ≡ LITERAL_NONE)) result }
    ensures found { result ≡ LITERAL_OK → ForAsciiWords prepared.now kind (λ words. IsLeftmostAlone words.search.query
        words.search.ignore_case words.word_bytes haystack.now (between start end) (match_of found.new)) }
    ensures none { result ≡ LITERAL_NONE
        → ForAsciiWords prepared.now kind (λ words. NothingAlone words haystack.now (between start end)) }
    ensures inside { result ≡ LITERAL_OK
        → MayBeFound (between start end) (slice_index prepared.now 3) (match_of found.new) }
    ensures as_before { (result ≡ LITERAL_OK) ⊎ (found.new ≡ found.old) }
{
    literal_find_word_by_sides_in(kind, prepared, haystack, &[], start, end, found)
}

/// Finds all whole words in the bytes of the haystack from `start` up to `end`, which is not included, that do not
/// overlap, as many as there is room for: first the one that [`literal_find_word_in`] finds, then each time the
/// leftmost one after the previous one. The kind, the array and the statuses are as for [`literal_find_word_in`], and
/// the page, the array of matches and its room as for [`literal_find_all_in`](crate::literal_find_all_in).
#[unsafe(no_mangle)]
pub extern "C" fn literal_find_all_words_in(
    kind: u32,
    prepared: &[u32],
    haystack: &[u8],
    start: usize,
    end: usize,
    found: &mut [LiteralMatch],
    page: &mut LiteralPage,
) -> i32
    ensures status { IsWordStatusBy prepared.now
        (IsKind kind × IsValidSpan haystack.now (between start end) × (0 < length found.old))
        (λ status. status ≡ LITERAL_OK) result }
    ensures page { result ≡ LITERAL_OK → ForAsciiWords prepared.now kind
        (λ words. IsWordPage words haystack.now (between start end) found.old found.new page.new) }
    ensures inside { result ≡ LITERAL_OK
        → MayBePage (between start end) (slice_index prepared.now 3) found.new page.new }
    ensures goes_on { result ≡ LITERAL_OK → start + page.new.written ≤ page.new.next }
    ensures as_before { (result ≡ LITERAL_OK) ⊎ (page.new ≡ page.old) }
    ensures refused { result ≡ LITERAL_BAD_ARGUMENTS → found.new ≡ found.old }
{
    literal_find_all_words_by_sides_in(kind, prepared, haystack, &[], start, end, found, page)
}

/// Counts the whole words that [`literal_find_all_words_in`] finds, page after page: at most as many as there are bytes
/// to search. The statuses are the same. Unless the status is [`LITERAL_OK`], the count is unchanged.
#[unsafe(no_mangle)]
pub extern "C" fn literal_count_words_in(
    kind: u32,
    prepared: &[u32],
    haystack: &[u8],
    start: usize,
    end: usize,
    count: &mut usize,
) -> i32
    ensures status { IsWordStatusBy prepared.now (IsKind kind × IsValidSpan haystack.now (between start end))
        (λ status. status ≡ LITERAL_OK) result }
    ensures count { result ≡ LITERAL_OK → ForAsciiWords prepared.now kind
        (λ words. IsWordCount words haystack.now (between start end) count.new) }
    ensures most { result ≡ LITERAL_OK → count.new ≤ end - start }
    ensures as_before { (result ≡ LITERAL_OK) ⊎ (count.new ≡ count.old) }
{
    literal_count_words_by_sides_in(kind, prepared, haystack, &[], start, end, count)
}

/// Like [`literal_find_word_in`], except that the sides are looked up next to an occurrence: as many bytes as the
/// haystack has, or none for the bytes of the haystack itself. A side is an ASCII letter, a digit or an underscore if
/// the haystack's byte at this offset belongs to a word character. Otherwise the status is [`LITERAL_BAD_ARGUMENTS`].
#[unsafe(no_mangle)]
pub extern "C" fn literal_find_word_by_sides_in(
    kind: u32,
    prepared: &[u32],
    haystack: &[u8],
    sides: &[u8],
    start: usize,
    end: usize,
    found: &mut LiteralMatch,
) -> i32
    ensures status { IsWordStatusBy prepared.now
        (IsKind kind × IsValidSpan haystack.now (between start end) × AreSides haystack.now sides.now)
        (λ status. (status ≡ LITERAL_OK) ⊎ (status ≡ LITERAL_NONE)) result }
    ensures found { result ≡ LITERAL_OK → ForAsciiWords prepared.now kind (λ words.
        IsLeftmostAloneBy words.search.query words.search.ignore_case words.word_bytes haystack.now
        (sides_by haystack.now sides.now) (between start end) (match_of found.new)) }
    ensures none { result ≡ LITERAL_NONE → ForAsciiWords prepared.now kind
        (λ words. NothingAloneBy words haystack.now (sides_by haystack.now sides.now) (between start end)) }
    ensures inside { result ≡ LITERAL_OK
        → MayBeFound (between start end) (slice_index prepared.now 3) (match_of found.new) }
    ensures as_before { (result ≡ LITERAL_OK) ⊎ (found.new ≡ found.old) }
{
    let Some(kind) = match_kind(kind) else {
        return LITERAL_BAD_ARGUMENTS;
    };
    if start > end || end > haystack.len() {
        return LITERAL_BAD_ARGUMENTS;
    }
    let Some(sides) = sides_for(haystack, sides) else {
        return LITERAL_BAD_ARGUMENTS;
    };
    let Ok(words) = words_in(kind, prepared) else {
        return LITERAL_DAMAGED;
    };
    match find_word(&words, haystack, sides, Span { start, end }) {
        Err(Damaged) => LITERAL_DAMAGED,
        Ok(None) => LITERAL_NONE,
        Ok(Some(it)) => {
            *found = match_for_c(&it);
            LITERAL_OK
        }
    }
}

/// Like [`literal_find_all_words_in`], by the sides of the haystack, as in [`literal_find_word_by_sides_in`].
#[unsafe(no_mangle)]
pub extern "C" fn literal_find_all_words_by_sides_in(
    kind: u32,
    prepared: &[u32],
    haystack: &[u8],
    sides: &[u8],
    start: usize,
    end: usize,
    found: &mut [LiteralMatch],
    page: &mut LiteralPage,
) -> i32
    ensures status { IsWordStatusBy prepared.now
        (IsKind kind × IsValidSpan haystack.now (between start end) × AreSides haystack.now sides.now
        × (0 < length found.old)) (λ status. status ≡ LITERAL_OK) result }
    ensures page { result ≡ LITERAL_OK → ForAsciiWords prepared.now kind (λ words. IsWordPageBy words haystack.now
        (sides_by haystack.now sides.now) (between start end) found.old found.new page.new) }
    ensures inside { result ≡ LITERAL_OK
        → MayBePage (between start end) (slice_index prepared.now 3) found.new page.new }
    ensures goes_on { result ≡ LITERAL_OK → start + page.new.written ≤ page.new.next }
    ensures as_before { (result ≡ LITERAL_OK) ⊎ (page.new ≡ page.old) }
    ensures refused { result ≡ LITERAL_BAD_ARGUMENTS → found.new ≡ found.old }
{
    let Some(kind) = match_kind(kind) else {
        return LITERAL_BAD_ARGUMENTS;
    };
    if start > end || end > haystack.len() || found.is_empty() {
        return LITERAL_BAD_ARGUMENTS;
    }
    let Some(sides) = sides_for(haystack, sides) else {
        return LITERAL_BAD_ARGUMENTS;
    };
    let Ok(words) = words_in(kind, prepared) else {
        return LITERAL_DAMAGED;
    };
    match write_words(&words, haystack, sides, Span { start, end }, found) {
        Err(Damaged) => LITERAL_DAMAGED,
        Ok(written) => {
            *page = written;
            LITERAL_OK
        }
    }
}

/// Like [`literal_count_words_in`], by the sides of the haystack, as in [`literal_find_word_by_sides_in`].
#[unsafe(no_mangle)]
pub extern "C" fn literal_count_words_by_sides_in(
    kind: u32,
    prepared: &[u32],
    haystack: &[u8],
    sides: &[u8],
    start: usize,
    end: usize,
    count: &mut usize,
) -> i32
    ensures status { IsWordStatusBy prepared.now
        (IsKind kind × IsValidSpan haystack.now (between start end) × AreSides haystack.now sides.now)
        (λ status. status ≡ LITERAL_OK) result }
    ensures count { result ≡ LITERAL_OK → ForAsciiWords prepared.now kind (λ words.
        IsWordCountBy words haystack.now (sides_by haystack.now sides.now) (between start end) count.new) }
    ensures most { result ≡ LITERAL_OK → count.new ≤ end - start }
    ensures as_before { (result ≡ LITERAL_OK) ⊎ (count.new ≡ count.old) }
{
    let Some(kind) = match_kind(kind) else {
        return LITERAL_BAD_ARGUMENTS;
    };
    if start > end || end > haystack.len() {
        return LITERAL_BAD_ARGUMENTS;
    }
    let Some(sides) = sides_for(haystack, sides) else {
        return LITERAL_BAD_ARGUMENTS;
    };
    let Ok(words) = words_in(kind, prepared) else {
        return LITERAL_DAMAGED;
    };
    match count_words(&words, haystack, sides, Span { start, end }) {
        Err(Damaged) => LITERAL_DAMAGED,
        Ok(matches) => {
            *count = matches;
            LITERAL_OK
        }
    }
}

/// The sides that C gives, or the haystack if it gives none. `None` if they are not as many as the haystack has bytes.
fn sides_for<'h>(haystack: &'h [u8], sides: &'h [u8]) -> Option<&'h [u8]>
    ensures { MatchOption result (¬ AreSides haystack.now sides.now) (λ taken. AreSides haystack.now sides.now
        × (taken.now ≡ sides_by haystack.now sides.now) × (length taken.now ≡ length haystack.now)) }
{
    if sides.is_empty() {
        Some(haystack)
    } else if sides.len() == haystack.len() {
        Some(sides)
    } else {
        None
    }
}

/// The search for whole words by an array, with a match kind and the ASCII word bytes.
fn words_in(kind: MatchKind, prepared: &[u32]) -> Result<PreparedWords<'_>, Damaged>
    ensures { MatchResult result (λ words. AreWordsBy kind prepared.now words × HasWordParts prepared.now)
        (λ _. ¬ HasWordParts prepared.now) }
{
    let prepared = Prepared::new(prepared)?;
    PreparedWords::new(prepared, kind, WholeWords::ascii_word_bytes())
}

/// The leftmost whole word in a span, by the sides of the haystack. Before its first candidate no memory for marks is
/// cleared; so it is here, and in the two functions below.
fn find_word(
    words: &PreparedWords<'_>,
    haystack: &[u8],
    sides: &[u8],
    span: Span,
) -> Result<Option<Match>, Damaged>
    requires valid { IsValidSpan haystack.now span }
    requires sides { length sides.now ≡ length haystack.now }
    ensures { FindsLentWord words.now haystack.now sides.now span result }
{
    if words.first_candidate_in(haystack, span) == span.end {
        return Ok(None);
    }
    words.find_in_by_sides(haystack, sides, span)
}

/// Writes the whole words of a span, by the sides of the haystack, as many as there is room for, and returns how many
/// these are and what is left.
fn write_words(
    words: &PreparedWords<'_>,
    haystack: &[u8],
    sides: &[u8],
    span: Span,
    found: &mut [LiteralMatch],
) -> Result<LiteralPage, Damaged>
    requires valid { IsValidSpan haystack.now span }
    requires sides { length sides.now ≡ length haystack.now }
    ensures page { ForWholeWords words.now (λ w. IsOkAnd result
        (IsWordPageBy w haystack.now sides.now span found.old found.new)) }
    ensures inside { IfOk result (MayBePage span (slice_index words.now.numbers 3) found.new) }
    ensures goes_on { IfOk result (λ page. span.start + page.written ≤ page.next) }
{
    let mut page = LiteralPage {
        written: 0,
        next: span.start,
        is_last: 1,
    };
    if words.first_candidate_in(haystack, span) == span.end {
        return Ok(page);
    }
    let mut matches = words.find_iter_in_by_sides(haystack, sides, span);
    for place in found.iter_mut() {
        let Some(it) = matches.next_match()? else {
            return Ok(page);
        };
        *place = match_for_c(&it);
        page.written += 1;
        page.next = it.end();
    }
    if let Some(it) = matches.next_match()? {
        page.next = it.start();
        page.is_last = 0;
        return Ok(page);
    }
    Ok(page)
}

/// The number of whole words in a span, by the sides of the haystack.
fn count_words(
    words: &PreparedWords<'_>,
    haystack: &[u8],
    sides: &[u8],
    span: Span,
) -> Result<usize, Damaged>
    requires valid { IsValidSpan haystack.now span }
    requires sides { length sides.now ≡ length haystack.now }
    ensures count { ForWholeWords words.now (λ w. IsOkAnd result (IsWordCountBy w haystack.now sides.now span)) }
    ensures most { IfOk result (λ count. count ≤ span.end - span.start) }
{
    if words.first_candidate_in(haystack, span) == span.end {
        return Ok(0);
    }
    let mut matches = words.find_iter_in_by_sides(haystack, sides, span);
    let mut count = 0;
    while let Some(_) = matches.next_match()? {
        count += 1;
    }
    Ok(count)
}
