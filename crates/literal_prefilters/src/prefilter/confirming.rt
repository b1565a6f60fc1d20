//! The confirming search: a prefilter proposes offsets, and the patterns are compared there.
ghost use Rattle.std.specs.Prelude.{◌≡◌, ◌+◌, ◌-◌, ◌*◌, ◌≤◌, length, take, is_some, slice_index, Some};
ghost use Rattle.std.specs.Prelude.{IfOk, OnErr, IfSome, IsTrue, MatchOption, option_map, None, ◌++◌, ◌∷◌, []};
ghost use Rattle.std.specs.List.{All};
ghost use Rattle.literal_base.specs.Greedy.{IsGreedy, RefusesList};
ghost use Rattle.literal_base.specs.Leftmost.{IsLeftmost};
ghost use Rattle.literal_base.specs.Occurs.{IsValidSpan, NoneIsEmpty};
ghost use Rattle.literal_packed.specs.Inside.Place.{IsBestAt, NoneStandsAt};
ghost use Rattle.literal_packed.specs.PatternsValue.{IsInOrder, query_of};
ghost use Rattle.literal_prefilters.specs.Confirming.{SpendsConfirming, answer_end, compared_at};
ghost use Rattle.literal_prefilters.specs.Confirming.{answers_of, counts_after_answers};
ghost use Rattle.literal_prefilters.specs.Confirming.{counts_after_confirming, counts_after_tries};
ghost use Rattle.literal_prefilters.specs.PrefilterValue.{CoveredBy, by_table, prefilter_table};
ghost use Rattle.literal_base.specs.Given.{CanBeTaken};
ghost use Rattle.literal_prefilters.specs.Choice.{IsBuiltFor, pick};
ghost use Rattle.literal_base.specs.Kinds.{root_kind_of};
ghost use Rattle.literal_prefilters.specs.ConfirmingValue.{BuildsConfirming, RefusesConfirming};
ghost use Rattle.literal_prefilters.specs.ConfirmingValue.{confirming_by, confirming_of};
ghost use Rattle.literal_prefilters.specs.Inside.Confirming.{IsReady, IsKept, read_to, value_of_strategy};
ghost use Rattle.literal_prefilters.specs.Table.{Covers, distance_of, first_place};

use super::byte_table::TableByte;
use crate::prefilter::{Builder, ByteTable, Candidate, Finder, Memmem, Prefilter, PrefilterI};
use literal_base::count::Tally;
use literal_base::packed;
use literal_base::search::{Match, MatchKind, Span};
use literal_ids::PatternID;
use literal_packed::Searcher;
use literal_packed::pattern::Patterns;
use std::alloc::{AllocError, Global};
use std::marker::Model;

/// The first pattern in match order that occurs at an offset and ends in the span. The offset is in the span, or is its
/// end.
fn best_at(
    patterns: &Patterns,
    ignore_case: bool,
    haystack: &[u8],
    span: Span,
    at: usize,
    tally: &mut Tally,
) -> Option<PatternID>
    requires in_order { IsInOrder patterns.now }
    requires valid { IsValidSpan haystack.now span }
    requires in_span { at ≤ span.end }
    ensures best { MatchOption result
        (NoneStandsAt patterns.now.patterns ignore_case (take span.end haystack.now) at)
        (IsBestAt (query_of patterns.now) ignore_case (take span.end haystack.now) at) }
    ensures exact { tally.new ≡ record tally.old
        { compared = tally.old.compared + compared_at (query_of patterns.now) result } }
{
    // An occurrence that runs past the end of the span is none.
    let haystack = &haystack[..span.end];
    for (id, _) in patterns.iter() {
        if patterns.matches_at(id, haystack, at, ignore_case, tally) {
            return Some(id);
        }
    }
    None
}

/// The leftmost match in the span, by a prefilter of any kind. The prefilter is asked for a candidate, and the patterns
/// are compared at the offset that it proposes. If none is there, it is asked again from the next offset on. The span
/// has to be a valid span of the haystack. The patterns have to be in match order, as after
/// [`Patterns::set_match_kind`]. The prefilter has to cover them for their match kind, with ASCII case ignored or kept.
///
/// At most as many offsets are tried as the span has bytes. At most as many bytes are scanned as the span has, plus,
/// for each offset tried, as many as the prefilter may read after it.
///
/// ```rust
/// let mut builder = prefilter::Builder::new(alloc, MatchKind::LeftmostFirst);
/// builder.add(b"lockjaw")?;
/// let pre = builder.build()?.ok_or("no prefilter for these patterns")?;
/// let mut patterns = Patterns::new(alloc);
/// patterns.add(b"lockjaw")?;
/// let (haystack, span) = (b"I am lockjaw", Span { start: 0, end: 12 });
/// let found = confirm(&pre, &patterns, false, haystack, span, tally);
/// assert!(rt; found.map(|it| it.range()) == Some(5..12));
/// ```
pub fn confirm<P: PrefilterI>(
    pre: &P,
    patterns: &Patterns,
    ignore_case: bool,
    haystack: &[u8],
    span: Span,
    tally: &mut Tally,
) -> Option<Match>
    requires in_order { IsInOrder patterns.now }
    requires covered { P.covers pre.now (query_of patterns.now) ignore_case }
    requires valid { IsValidSpan haystack.now span }
    ensures leftmost { IsLeftmost (query_of patterns.now) ignore_case haystack.now span result }
    ensures grows { tally.old.tried ≤ tally.new.tried }
    ensures tried { tally.new.tried ≤ tally.old.tried + (span.end - span.start) }
    ensures scanned { tally.new.scanned ≤ tally.old.scanned + (span.end - span.start)
        + P.reach pre.now * (tally.new.tried - tally.old.tried) }
{
    let mut from = span.start;
    loop {
        let rest = Span {
            start: from,
            end: span.end,
        };
        match pre.find_in(haystack, rest, tally) {
            Candidate::None => return None,
            Candidate::Match(found) => return Some(found),
            Candidate::PossibleStartOfMatch(start) => {
                tally.tick_tried();
                if let Some(id) = best_at(patterns, ignore_case, haystack, span, start, tally) {
                    let end = start + patterns.get(id).len();
                    return Some(Match::new(id, Span { start, end }));
                }
                from = start + 1;
            }
        }
    }
}

/// The first table byte in the rest of a span that begins at `start`: the kept one, if it is there. Bytes that were
/// read before it are not read again.
fn next_byte(
    table: &ByteTable,
    haystack: &[u8],
    start: usize,
    rest: Span,
    kept: Option<TableByte>,
    tally: &mut Tally,
) -> Option<TableByte>
    requires valid { IsValidSpan haystack.now rest }
    requires kept { IsKept table.now haystack.now start rest.start rest.end kept }
    ensures place { option_map (λ f. f.place) result ≡ first_place table.now haystack.now rest }
    ensures distance { IfSome result (λ f. distance_of table.now (slice_index haystack.now f.place) ≡ Some f.distance) }
    ensures exact { tally.new ≡ record tally.old
        { scanned = tally.old.scanned + (read_to rest.end result - read_to start kept) } }
{
    match kept {
        Some(found) if rest.start <= found.place => kept,
        _ => table.find(haystack, rest, tally),
    }
}

/// The leftmost match in the span, by a table that covers the patterns. Each byte is scanned at most once, and only
/// offsets near a table byte are tried.
fn confirm_by_table(
    table: &ByteTable,
    patterns: &Patterns,
    ignore_case: bool,
    haystack: &[u8],
    span: Span,
    tally: &mut Tally,
) -> Option<Match>
    requires in_order { IsInOrder patterns.now }
    requires covered { All (Covers table.now ignore_case) patterns.now.patterns }
    requires valid { IsValidSpan haystack.now span }
    ensures leftmost { IsLeftmost (query_of patterns.now) ignore_case haystack.now span result }
    ensures exact { tally.new
        ≡ counts_after_tries tally.old table.now (query_of patterns.now) haystack.now span result }

    // Consequences for the counts, for functions that add up searches.
    ensures within { tally.new.scanned ≤ tally.old.scanned + (answer_end span result - span.start) }
    ensures compared { tally.new.compared ≤ tally.old.compared
        + (tally.new.tried - tally.old.tried) * length patterns.now.patterns }
{
    let mut at = span.start;
    let mut kept = None;
    while let Some(found) = next_byte(
        table,
        haystack,
        span.start,
        Span {
            start: at,
            end: span.end,
        },
        kept,
        tally,
    ) {
        kept = Some(found);
        let start = at.max(found.place.saturating_sub(found.distance as usize));
        tally.tick_tried();
        if let Some(id) = best_at(patterns, ignore_case, haystack, span, start, tally) {
            let end = start + patterns.get(id).len();
            return Some(Match::new(id, Span { start, end }));
        }
        at = start + 1; // (past the place that was tried)
    }
    None
}

/// Searches for patterns by the prefilter that suits them. Contracts see the patterns, whether case is ignored, and how
/// the prefilter searches.
///
/// ```rust
/// let (kind, words) = (packed::MatchKind::LeftmostFirst, [b"watson".as_slice()]);
/// let built = ConfirmingSearch::build(alloc, kind, true, words)?;
/// let search = built.ok_or("no prefilter for these patterns")?;
/// let found = search.find_in(b"Dr. WATSON", Span { start: 0, end: 10 });
/// assert!(rt; found.map(|it| it.range()) == Some(4..10));
/// ```
#[derive(Drop)]
pub struct ConfirmingSearch {
    alloc: Global,
    strategy: Strategy,
}

/// The strategy of a confirming search. An exact prefilter itself answers with the match, and has the patterns.
#[derive(Drop)]
enum Strategy {
    /// By one pattern. The match kind makes no difference, and only contracts see it.
    Memmem(Memmem, packed::MatchKind),
    Packed(Searcher),
    Table(TableSearch),
}

/// A table, and the patterns that are tried where it proposes an offset.
#[derive(Drop)]
struct TableSearch {
    table: ByteTable,
    patterns: Patterns,
    ignore_case: bool,
}

impl Model for ConfirmingSearch {
    ghost use Rattle.literal_prefilters.specs.ConfirmingValue.{ConfirmingValue};

    ghost Value = { ConfirmingValue };

    ghost use Rattle.literal_prefilters.specs.Inside.Confirming.{IsReady, value_of_strategy};

    ghost view = { λ s. value_of_strategy s.strategy };

    ghost invariant = { λ s. IsReady s.strategy };
}

impl Strategy {
    /// The strategy of a search by the prefilter of a builder. The builder is for the match kind with the same name.
    fn of(
        prefilter: Prefilter,
        builder: Builder,
        kind: packed::MatchKind,
    ) -> Result<Strategy, AllocError>
        requires kind { builder.kind ≡ root_kind_of kind }
        requires built { IsBuiltFor builder prefilter }
        ensures value { IfOk result (λ strategy. value_of_strategy strategy ≡ confirming_by kind builder prefilter) }
        ensures keeps { IfOk result IsReady }
    {
        match prefilter.finder {
            Finder::Memmem(memmem) => Ok(Strategy::Memmem(memmem, kind)),
            Finder::Packed(packed) => Ok(Strategy::Packed(packed.searcher)),
            Finder::StartBytesOne(pre) => Strategy::by_table(pre.0, builder, kind),
            Finder::StartBytesTwo(pre) => Strategy::by_table(pre.0, builder, kind),
            Finder::StartBytesThree(pre) => Strategy::by_table(pre.0, builder, kind),
            Finder::RareBytesOne(pre) => Strategy::by_table(pre.0, builder, kind),
            Finder::RareBytesTwo(pre) => Strategy::by_table(pre.0, builder, kind),
            Finder::RareBytesThree(pre) => Strategy::by_table(pre.0, builder, kind),
        }
    }

    /// By a table, and by the patterns of the builder in match order.
    fn by_table(
        table: ByteTable,
        builder: Builder,
        kind: packed::MatchKind,
    ) -> Result<Strategy, AllocError>
        requires kind { builder.kind ≡ root_kind_of kind }
        requires built { IsBuiltFor builder (by_table table) }
        ensures value { IfOk result (λ strategy. value_of_strategy strategy
            ≡ confirming_by kind builder (by_table table)) }
        ensures keeps { IfOk result IsReady }
    {
        let ignore_case = builder.ascii_case_insensitive;
        let patterns = builder.into_patterns(kind)?;
        Ok(Strategy::Table(TableSearch {
            table,
            patterns,
            ignore_case,
        }))
    }
}

impl ConfirmingSearch {
    /// The search for the patterns that an iterator gives, with this match kind, and with ASCII case ignored or kept.
    /// It is `None` exactly if [`Builder::build`] has no prefilter for them. With case ignored most lists of several
    /// words have none, since a letter takes two of the three bytes of a table; `literal_search::Search` searches for
    /// any list. The iterator has to end. Memory is requested only for a pattern that [`Builder::add`] keeps, and after
    /// the last one only if there is a prefilter.
    pub fn build<'a, I: IntoIterator<Item = &'a [u8]>>(
        alloc: Global,
        kind: packed::MatchKind,
        ignore_case: bool,
        patterns: I,
    ) -> Result<Option<ConfirmingSearch>, AllocError>
        requires { CanBeTaken I.into_iter_gives I.IntoIter.can_next I.IntoIter.remaining patterns }
        ensures ok { IfOk result
            (BuildsConfirming I.into_iter_gives I.IntoIter.next_gives kind ignore_case patterns) }
        ensures no_memory { OnErr result
            (RefusesConfirming I.into_iter_gives I.IntoIter.next_gives kind ignore_case patterns) }
    {
        let mut builder = Builder::new(alloc, kind.into()).ascii_case_insensitive(ignore_case);
        for bytes in patterns {
            builder.add(bytes)?;
        }
        ConfirmingSearch::of_builder(builder, kind)
    }

    /// The search for the patterns of a builder, which is for the match kind with the same name.
    fn of_builder(
        builder: Builder,
        kind: packed::MatchKind,
    ) -> Result<Option<ConfirmingSearch>, AllocError>
        requires { builder.kind ≡ root_kind_of kind }
        ensures ok { IfOk result (λ built. built ≡ confirming_of kind builder) }
        ensures no_memory { OnErr result (IsTrue (is_some (pick builder))) }
    {
        let Some(prefilter) = builder.build()? else {
            return Ok(None);
        };
        let alloc = builder.alloc;
        let strategy = Strategy::of(prefilter, builder, kind)?;
        Ok(Some(ConfirmingSearch { alloc, strategy }))
    }

    /// The leftmost match in a span, which has to be a valid span of the haystack, as
    /// [`Searcher::find_in`](literal_packed::Searcher::find_in) finds it, and with ASCII case ignored if this was set.
    pub fn find_in(&self, haystack: &[u8], span: Span) -> Option<Match>
        requires { IsValidSpan haystack.now span }
        ensures { IsLeftmost self.now.query self.now.ignore_case haystack.now span result }
    {
        self.find_in_counted(haystack, span, &mut Tally::new())
    }

    /// Like [`ConfirmingSearch::find_in`], and adds its steps to a tally. By a table it scans at most the bytes from
    /// the span's start up to the match's end, or those of the span if there is no match. It tries only offsets near a
    /// table byte, and at each of them it compares the patterns in match order, up to the match's own. By an exact
    /// prefilter it counts as one search.
    pub fn find_in_counted(&self, haystack: &[u8], span: Span, tally: &mut Tally) -> Option<Match>
        requires { IsValidSpan haystack.now span }
        ensures leftmost { IsLeftmost self.now.query self.now.ignore_case haystack.now span result }
        ensures exact { tally.new ≡ counts_after_confirming tally.old self.now.prefilter self.now.query haystack.now
            span result }
        ensures compared { IfSome (prefilter_table self.now.prefilter) (λ _. tally.new.compared ≤ tally.old.compared
            + (tally.new.tried - tally.old.tried) * length self.now.query.patterns) }
        ensures within { tally.new.scanned ≤ tally.old.scanned + (answer_end span result - span.start) }
    {
        match &self.strategy {
            Strategy::Memmem(memmem, _) => memmem.find(haystack, span, tally),
            Strategy::Packed(searcher) => searcher.find_in_counted(haystack, span, tally),
            Strategy::Table(search) => {
                let (patterns, ignore_case) = (&search.patterns, search.ignore_case);
                confirm_by_table(&search.table, patterns, ignore_case, haystack, span, tally)
            }
        }
    }

    /// All matches in the haystack that do not overlap: first the leftmost match, then each time the leftmost match
    /// after the end of the previous one. The steps are added to a tally, also those before memory was refused. By a
    /// table it scans at most the bytes of the haystack, and tries only offsets near a table byte; by an exact
    /// prefilter it counts at most what [`Searcher::find_all`](literal_packed::Searcher::find_all) may count. Memory is
    /// refused only for a match that was found, and the search then stops.
    pub fn find_all(&self, haystack: &[u8], tally: &mut Tally) -> Result<Vec<Match>, AllocError>
        ensures greedy { IfOk result
            (λ all. IsGreedy self.now.query self.now.ignore_case haystack.now 0 all.items) }
        ensures exact { IfOk result (λ all. tally.new ≡ counts_after_answers tally.old self.now.prefilter self.now.query
            haystack.now 0 (answers_of all.items ++ None ∷ [])) }
        ensures no_memory { OnErr result (RefusesList self.now.query self.now.ignore_case haystack.now (λ found.
            tally.new ≡ counts_after_answers tally.old self.now.prefilter self.now.query haystack.now 0
            (answers_of found))) }
        ensures bounded { SpendsConfirming self.now.prefilter self.now.query.patterns haystack.now
            tally.old tally.new }
    {
        self.covers_its_patterns(); // (only for the proof)
        let mut all = Vec::new(self.alloc);
        let mut rest = Span {
            start: 0,
            end: haystack.len(),
        };
        while let Some(found) = self.find_in_counted(haystack, rest, tally) {
            all.push(found)?;
            rest.start = found.end();
        }
        Ok(all)
    }

    /// The invariant of every value, for proofs and for the law that states it: the prefilter covers the patterns, and
    /// none is empty.
    pub(crate) fn covers_its_patterns(&self)
        ensures covered { CoveredBy self.now.prefilter self.now.query self.now.ignore_case }
        ensures not_empty { NoneIsEmpty self.now.query.patterns }
    {
        let _ = &self.strategy; // (a read, which gives the proof the invariant of the fields)
    }
}
