//! The guarantees of the searches for any list of patterns, together.
//!
//! Unless memory or table space runs out, a `Search` is built for exactly the lists without an empty pattern, with an
//! identifier for each pattern. Its answer in every valid span is the leftmost whole occurrence under the tie rule.
//! `find_iter` is the greedy list of these, `find_all_in` lists the same matches, and `Overlapping` gives each
//! occurrence once. A search looks up at most three times the bytes of its span, for any patterns. So does a list or an
//! iteration, for any number of matches, if no pattern has 262,000 bytes; for each whole 262,000 bytes of the longest
//! pattern it may look up each byte once more. A search by an array into which the `Search` is written has the same
//! answers. So has `find_stream`, in any pieces; it looks up at most twice the bytes that a list may look up.
//!
//! The contract of [`search_any_list`] says all of this but for streams, that of [`stream_any_list`] the last sentence.
//! They are proved only from public contracts and laws. `test_calls::callers::any_list` runs them.
#![tactic(auto)]

ghost use Rattle.std.specs.Prelude.{◌≡◌, ◌+◌, ◌*◌, ◌<◌, ◌≤◌, ℕ, List, IfErr, IfOk, MatchResult, OnErr, Some, length};
ghost use Rattle.literal_base.specs.Greedy.{IsGreedy};
ghost use Rattle.literal_base.specs.Leftmost.{IsLeftmost};
ghost use Rattle.literal_base.specs.Occurs.{IsValidSpan};
ghost use Rattle.literal_search.specs.Earliest.{IsEarliestEnd};
ghost use Rattle.literal_search.specs.Overlapping.{IsOverlapping};
ghost use Rattle.literal_search.specs.Prepared.{RefusesToPrepare};
ghost use Rattle.literal_search.specs.SearchValue.{CanBeKept, ScansListAtMost, ScansWithin};
ghost use Rattle.search_promise.specs.AnyList.{IsKeptOrWritten, RefusesAnyList, searched_for};

use literal_base::laws::greedy_is_unique;
use literal_search::laws::{
    iterations_give_each_occurrence_once, iterations_scan_at_most, streams_are_greedy,
    streams_scan_at_most,
};
use literal_search::{
    ArrayTooShort, BuildError, Match, MatchKind, Overlapping, Prepared, Search, Span, Tally,
};
use std::alloc::{AllocError, Global};
use std::io::{self, Read};

/// Patterns, and how to search for them.
#[derive(Drop)]
pub struct AnySearch<'p> {
    /// Which occurrence is the match.
    pub kind: MatchKind,
    /// Whether ASCII case is ignored.
    pub ignore_case: bool,
    /// The patterns.
    pub patterns: &'p [&'p [u8]],
}

/// The answers of a [`Search`].
#[derive(Drop)]
pub struct Searched {
    /// By [`Search::find_in_counted`], in the span.
    pub found: Option<Match>,
    /// By [`Search::find_iter`], up to its first `None`.
    pub all: Vec<Match>,
    /// By [`Search::find_all_in_counted`], of the whole haystack.
    pub list: Vec<Match>,
}

/// The answers of an [`Overlapping`] in the span.
#[derive(Drop)]
pub struct Occurring {
    /// By [`Overlapping::earliest_end`].
    pub earliest: Option<usize>,
    /// By [`Overlapping::find_overlapping_in`], up to its first `None`.
    pub all: Vec<Match>,
}

/// The answers of all searches for a list.
#[derive(Drop)]
pub struct AnyFound {
    pub searched: Searched,
    pub occurring: Occurring,
    /// By [`Prepared::find_in`], in the span, if the array is long enough.
    pub by_array: Result<Option<Match>, ArrayTooShort>,
}

/// Searches for a list of patterns by a `Search` and an `Overlapping`, both built for it. The errors are theirs. Memory
/// is requested only if there is a pattern. The first tally is for the search of the span, the second for the
/// iteration, and the third for the list. The `Search` is written into the array.
pub fn search_any_list(
    alloc: Global,
    asked: &AnySearch<'_>,
    haystack: &[u8],
    span: Span,
    array: &mut [u32],
    once: &mut Tally,
    iterated: &mut Tally,
    listed: &mut Tally,
) -> Result<AnyFound, BuildError>
    requires { IsValidSpan haystack.now span }
    ensures built { IfOk result (λ _. CanBeKept (searched_for asked.now).query.patterns) }
    ensures refused { IfErr result (RefusesAnyList asked.now) }
    ensures leftmost { IfOk result (λ any. IsLeftmost (searched_for asked.now).query asked.now.ignore_case
        haystack.now span any.searched.found) }
    ensures earliest { IfOk result (λ any. IsEarliestEnd (searched_for asked.now).query.patterns asked.now.ignore_case
        haystack.now span any.occurring.earliest) }
    ensures scanned { IfOk result (λ any. ScansWithin (searched_for asked.now).query.patterns span any.searched.found
        once.old once.new) }
    ensures greedy { IfOk result (λ any. IsGreedy (searched_for asked.now).query asked.now.ignore_case
        haystack.now 0 any.searched.all.items) }
    ensures iteration { IfOk result (λ _. ScansListAtMost (searched_for asked.now).query.patterns
        (length haystack.now) iterated.old iterated.new) }
    ensures overlapping { IfOk result (λ any. IsOverlapping (searched_for asked.now).query.patterns
        asked.now.ignore_case haystack.now span any.occurring.all.items) }
    ensures same_list { IfOk result (λ any. any.searched.list.items ≡ any.searched.all.items) }
    ensures list { IfOk result (λ _. ScansListAtMost (searched_for asked.now).query.patterns (length haystack.now)
        listed.old listed.new) }
    ensures by_array { IfOk result (λ any. MatchResult any.by_array
        (IsLeftmost (searched_for asked.now).query asked.now.ignore_case haystack.now span)
        (RefusesToPrepare (searched_for asked.now) array.old)) }
    ensures array { IfOk result (λ any. IsKeptOrWritten (searched_for asked.now) array.old array.new any.by_array) }
    ensures array_as_before { OnErr result (array.new ≡ array.old) }
    ensures listed_each { IfOk result (λ _. listed.old.scanned + length haystack.now ≤ listed.new.scanned) }
    ensures iterated_each { IfOk result (λ _. iterated.old.scanned + length haystack.now ≤ iterated.new.scanned) }
{
    greedy_is_unique();
    let searched = search(alloc, asked, haystack, span, once, iterated, listed)?;
    let occurring = all_that_occurs(alloc, asked, haystack, span)?;
    let by_array = by_array(&search_for(alloc, asked)?, array, haystack, span);
    Ok(AnyFound {
        searched,
        occurring,
        by_array,
    })
}

/// Lists the matches in what a reader gives, by the `Search` for a list of patterns. The outer error is its, and the
/// inner one is the reader's, or memory is refused.
pub fn stream_any_list<R: Read + Drop>(
    alloc: Global,
    asked: &AnySearch<'_>,
    reader: R,
    streamed: &mut Tally,
) -> Result<io::Result<Vec<Match>>, BuildError>
    ensures refused { IfErr result (RefusesAnyList asked.now) }
    ensures greedy { IfOk result (λ answer. IfOk answer (λ all. (text : List ℕ) → R.remaining reader ≡ Some text
        → IsGreedy (searched_for asked.now).query asked.now.ignore_case text 0 all.items)) }
    ensures scanned { IfOk result (λ answer. IfOk answer (λ _. (text : List ℕ) → R.remaining reader ≡ Some text
        → ScansListAtMost (searched_for asked.now).query.patterns (2 * length text) streamed.old streamed.new)) }
{
    let search = search_for(alloc, asked)?;
    Ok(taken_from_stream(alloc, &search, reader, streamed))
}

fn search(
    alloc: Global,
    asked: &AnySearch<'_>,
    haystack: &[u8],
    span: Span,
    once: &mut Tally,
    iterated: &mut Tally,
    listed: &mut Tally,
) -> Result<Searched, BuildError>
    requires { IsValidSpan haystack.now span }
    ensures built { IfOk result (λ _. CanBeKept (searched_for asked.now).query.patterns) }
    ensures refused { IfErr result (RefusesAnyList asked.now) }
    ensures leftmost { IfOk result (λ searched. IsLeftmost (searched_for asked.now).query asked.now.ignore_case
        haystack.now span searched.found) }
    ensures scanned { IfOk result (λ searched. ScansWithin (searched_for asked.now).query.patterns span searched.found
        once.old once.new) }
    ensures greedy { IfOk result (λ searched. IsGreedy (searched_for asked.now).query asked.now.ignore_case
        haystack.now 0 searched.all.items) }
    ensures iteration { IfOk result (λ _. ScansListAtMost (searched_for asked.now).query.patterns
        (length haystack.now) iterated.old iterated.new) }
    ensures each { IfOk result (λ _. iterated.old.scanned + length haystack.now ≤ iterated.new.scanned) }
    ensures greedy_list { IfOk result (λ searched. IsGreedy (searched_for asked.now).query asked.now.ignore_case
        haystack.now 0 searched.list.items) }
    ensures list { IfOk result (λ _. ScansListAtMost (searched_for asked.now).query.patterns (length haystack.now)
        listed.old listed.new) }
    ensures listed_each { IfOk result (λ _. listed.old.scanned + length haystack.now ≤ listed.new.scanned) }
{
    let search = search_for(alloc, asked)?;
    let found = search.find_in_counted(haystack, span, once);
    let all = taken_in_turn(alloc, &search, haystack, iterated)?;
    let end = haystack.len();
    let list = search.find_all_in_counted(haystack, Span { start: 0, end }, listed)?;
    Ok(Searched { found, all, list })
}

fn search_for(alloc: Global, asked: &AnySearch<'_>) -> Result<Search, BuildError>
    ensures same { IfOk result (λ search. search ≡ searched_for asked.now) }
    ensures kept { IfOk result (λ _. CanBeKept (searched_for asked.now).query.patterns) }
    ensures refused { IfErr result (RefusesAnyList asked.now) }
{
    let search = Search::new(
        alloc,
        asked.kind,
        asked.ignore_case,
        asked.patterns.iter().copied(),
    )?;
    let _ = search.patterns_len(); // (its contract says that they can be kept)
    Ok(search)
}

/// The matches that an iteration gives.
fn taken_in_turn(
    alloc: Global,
    search: &Search,
    haystack: &[u8],
    iterated: &mut Tally,
) -> Result<Vec<Match>, AllocError>
    ensures greedy { IfOk result (λ taken. IsGreedy search.now.query search.now.ignore_case haystack.now 0
        taken.items) }
    ensures bounded { IfOk result (λ _. ScansListAtMost search.now.query.patterns (length haystack.now) iterated.old
        iterated.new) }
    ensures each { IfOk result (λ _. iterated.old.scanned + length haystack.now ≤ iterated.new.scanned) }
    ensures no_memory { OnErr result (0 < length search.now.query.patterns) }
{
    iterations_scan_at_most();
    let mut matches = Vec::new(alloc);
    let mut iteration = search.find_iter(haystack);
    while let Some(found) = iteration.next_counted(iterated) {
        matches.push(found)?;
    }
    Ok(matches)
}

/// The matches that an iteration over a stream gives.
fn taken_from_stream<R: Read + Drop>(
    alloc: Global,
    search: &Search,
    reader: R,
    streamed: &mut Tally,
) -> io::Result<Vec<Match>>
    ensures greedy { IfOk result (λ taken. (text : List ℕ) → R.remaining reader ≡ Some text
        → IsGreedy search.now.query search.now.ignore_case text 0 taken.items) }
    ensures bounded { IfOk result (λ _. (text : List ℕ) → R.remaining reader ≡ Some text
        → ScansListAtMost search.now.query.patterns (2 * length text) streamed.old streamed.new) }
{
    streams_are_greedy();
    streams_scan_at_most();
    let mut matches = Vec::new(alloc);
    let mut iteration = search.find_stream(alloc, reader)?;
    while let Some(found) = iteration.next_counted(streamed) {
        matches.push(found?)?;
    }
    Ok(matches)
}

/// The leftmost match in a span by an array, into which the search is written.
fn by_array(
    search: &Search,
    array: &mut [u32],
    haystack: &[u8],
    span: Span,
) -> Result<Option<Match>, ArrayTooShort>
    requires { IsValidSpan haystack.now span }
    ensures found { MatchResult result (IsLeftmost search.now.query search.now.ignore_case haystack.now span)
        (RefusesToPrepare search.now array.old) }
    ensures array { IsKeptOrWritten search.now array.old array.new result }
{
    let places = search.prepare(array)?;
    let Ok(prepared) = Prepared::new(&array[..places]) else {
        unreachable!()
    };
    let Ok(found) = prepared.find_in(haystack, span) else {
        unreachable!()
    };
    Ok(found)
}

fn all_that_occurs(
    alloc: Global,
    asked: &AnySearch<'_>,
    haystack: &[u8],
    span: Span,
) -> Result<Occurring, BuildError>
    requires { IsValidSpan haystack.now span }
    ensures refused { IfErr result (RefusesAnyList asked.now) }
    ensures earliest { IfOk result (λ occurring. IsEarliestEnd (searched_for asked.now).query.patterns
        asked.now.ignore_case haystack.now span occurring.earliest) }
    ensures overlapping { IfOk result (λ occurring. IsOverlapping (searched_for asked.now).query.patterns
        asked.now.ignore_case haystack.now span occurring.all.items) }
{
    let patterns = asked.patterns.iter().copied();
    let search = Overlapping::new(alloc, asked.ignore_case, patterns)?;
    let earliest = search.earliest_end(haystack, span);
    let all = taken_overlapping(alloc, &search, haystack, span)?;
    Ok(Occurring { earliest, all })
}

/// The matches that an iteration over every occurrence gives.
fn taken_overlapping(
    alloc: Global,
    search: &Overlapping,
    haystack: &[u8],
    span: Span,
) -> Result<Vec<Match>, AllocError>
    requires { IsValidSpan haystack.now span }
    ensures overlapping { IfOk result (λ all. IsOverlapping search.now.patterns search.now.ignore_case haystack.now span
        all.items) }
    ensures no_memory { OnErr result (0 < length search.now.patterns) }
{
    iterations_give_each_occurrence_once();
    let mut all = Vec::new(alloc);
    for found in search.find_overlapping_in(haystack, span) {
        all.push(found)?;
    }
    Ok(all)
}
