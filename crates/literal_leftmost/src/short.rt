//! The searches by a single pattern of at most 16 bytes. The haystack is compared with it at candidates, or everywhere
//! if it is one byte.
ghost use Rattle.std.specs.Prelude.{◌≡◌, ◌+◌, ◌-◌, ◌*◌, ◌≤◌, IfOk, IfSome, MatchOption};
ghost use Rattle.std.specs.Result.{IsOkAnd};
ghost use Rattle.literal_base.specs.Leftmost.{IsLeftmost, IsLeftmostMatch};
ghost use Rattle.literal_leftmost.specs.SearchValue.{LooksFor};
ghost use Rattle.literal_base.specs.Occurs.{IsValidSpan, between};
ghost use Rattle.literal_leftmost.specs.Counted.{IsGreedyCount, IsOnlyByte};
ghost use Rattle.literal_leftmost.specs.Inside.Backward.{ForBackward, IsMatchBy, IsOnlyOf, IsSafe, NoneBeginsAt};

use crate::backward::Backward;
use crate::leftmost::Progress;
use literal_base::count::Tally;
use literal_base::{Match, Span};
use literal_fingerprints::{ShortPattern, count_byte, find_byte};
use literal_rows::array::{SCAN_LEN, SHORT_AT, pair_scan_in, short_by};
use literal_rows::damaged::Damaged;

/// A short pattern is compared if at least this many bytes of the span are left, which is the most that it has.
const SHORTEST_REST: usize = 16;

/// A list compares if a scan passed over at least this many bytes. They pay for those that the scan read ahead, and for
/// those that are compared.
const FAR: usize = 25;

impl<'t> Backward<'t> {
    /// The only pattern, if it is short.
    #[inline(always)]
    pub(crate) fn short(&self) -> Option<ShortPattern>
        requires { IsSafe self.now }
        ensures { IfSome result (IsOnlyOf self.now) }
    {
        if self.prints[0] == 0 || self.lens.is_empty() {
            return None;
        }
        let short = short_by(&self.prints[SHORT_AT..SCAN_LEN])?;
        let len = short.len as usize;
        if len == 0 || len > SHORTEST_REST || len != self.table.longest {
            return None;
        }
        Some(short)
    }

    /// The only pattern, if it is short, and if a list compares it at an offset up to which a scan passed from another
    /// one.
    #[inline(always)]
    pub(crate) fn short_at(&self, span: Span, from: usize, at: usize) -> Option<ShortPattern>
        requires safe { IsSafe self.now }
        requires ordered { from ≤ at }
        requires inside { at ≤ span.end }
        ensures only { IfSome result (IsOnlyOf self.now) }
        ensures far { IfSome result (λ _. from + 25 ≤ at) }
        ensures rest { IfSome result (λ _. at + 16 ≤ span.end) }
    {
        if at - from < FAR || span.end - at < SHORTEST_REST {
            return None;
        }
        self.short()
    }

    /// The match at an offset, if the haystack has the only pattern there.
    #[inline(always)]
    pub(crate) fn compare_at(
        &self,
        short: &ShortPattern,
        haystack: &[u8],
        span: Span,
        at: usize,
        tally: &mut Tally,
    ) -> Option<Match>
        requires only { IsOnlyOf self.now short.now }
        requires valid { IsValidSpan haystack.now span }
        requires after { span.start ≤ at }
        requires rest { at + 16 ≤ span.end }
        ensures leftmost { ForBackward self.now (λ tables. MatchOption result
            (NoneBeginsAt tables haystack.now span.end at)
            (IsLeftmostMatch tables.search.query tables.search.ignore_case haystack.now (between at span.end))) }
        ensures lies { IfSome result (λ found. IsMatchBy self.now span at found × (found.start ≡ at)) }
        ensures ticks { tally.new ≡ record tally.old { scanned = tally.old.scanned + 16 } }
    {
        if !short.is_at(haystack, at, tally) {
            return None;
        }
        let end = at + short.len as usize;
        Some(Match::must(0, Span { start: at, end }))
    }

    /// The leftmost match of a span by the only pattern, which is short. At a candidate the haystack is compared with
    /// it, if the scan passed over enough bytes. If it passed over few, walks look for it from there on.
    #[inline(always)]
    pub(crate) fn find_short(
        &self,
        short: &ShortPattern,
        haystack: &[u8],
        span: Span,
        tally: &mut Tally,
    ) -> Result<Option<Match>, Damaged>
        requires safe { IsSafe self.now }
        requires only { IsOnlyOf self.now short.now }
        requires valid { IsValidSpan haystack.now span }
        ensures leftmost { ForBackward self.now (λ tables. IsOkAnd result
            (IsLeftmost tables.search.query tables.search.ignore_case haystack.now span)) }
        ensures lies { IfOk result (λ answer. IfSome answer (IsMatchBy self.now span span.start)) }
        ensures others { tally.new ≡ record tally.old { scanned = tally.new.scanned } }
        ensures most { tally.new.scanned ≤ tally.old.scanned + 3 * (span.end - span.start) }
        ensures counted { IfOk result (λ answer.
            LooksFor self.now.table.longest span answer tally.old.scanned tally.new.scanned) }
    {
        let scan = &pair_scan_in(self.prints);
        let begin = self.begin_at(span);
        let mut progress = self.pass_on(scan, haystack, span, begin, tally);
        while progress.credit >= SHORTEST_REST && span.end - progress.at >= SHORTEST_REST {
            if let Some(found) = self.compare_at(short, haystack, span, progress.at, tally) {
                return Ok(Some(found));
            }
            let next = Progress {
                at: progress.at + 1,
                credit: progress.credit - SHORTEST_REST,
                part: progress.part,
            };
            progress = self.pass_on(scan, haystack, span, next, tally);
        }
        if progress.at == span.end {
            return Ok(None);
        }
        let Some(begun) = self.first_after(haystack, span, progress, tally)? else {
            return Ok(None);
        };
        let found = self.match_at(haystack, span, begun.at, begun.code)?;
        Ok(Some(found))
    }

    /// The leftmost match of a span by the only pattern, which is one byte.
    #[inline(always)]
    pub(crate) fn find_byte(
        &self,
        short: &ShortPattern,
        haystack: &[u8],
        span: Span,
        tally: &mut Tally,
    ) -> Option<Match>
        requires only { IsOnlyOf self.now short.now }
        requires one { short.now.len ≡ 1 }
        requires valid { IsValidSpan haystack.now span }
        ensures leftmost { ForBackward self.now (λ tables.
            IsLeftmost tables.search.query tables.search.ignore_case haystack.now span result) }
        ensures lies { IfSome result (IsMatchBy self.now span span.start) }
        ensures others { tally.new ≡ record tally.old { scanned = tally.new.scanned } }
        ensures most { tally.new.scanned ≤ tally.old.scanned + (span.end - span.start) }
        ensures counted { LooksFor self.now.table.longest span result tally.old.scanned tally.new.scanned }
    {
        let start = find_byte(haystack, span, short.bytes[0], tally);
        if start == span.end {
            return None;
        }
        let end = start + 1;
        Some(Match::must(0, Span { start, end }))
    }

    /// The only pattern's byte, if it is one byte, and case is kept.
    #[inline(always)]
    fn only_byte(&self) -> Option<u8>
        requires { IsSafe self.now }
        ensures { IfSome result (λ byte. ForBackward self.now
            (λ tables. IsOnlyByte byte tables.search.ignore_case tables.search.query.patterns)) }
    {
        let short = self.short()?;
        if short.len != 1 {
            return None;
        }
        Some(short.bytes[0])
    }

    /// The number of matches in a span, if the only pattern is one byte, and case is kept. Each byte of the span is
    /// compared with it.
    pub(crate) fn count_of_byte(
        &self,
        haystack: &[u8],
        span: Span,
        tally: &mut Tally,
    ) -> Option<usize>
        requires safe { IsSafe self.now }
        requires valid { IsValidSpan haystack.now span }
        ensures count { IfSome result (λ count. ForBackward self.now (λ tables.
            IsGreedyCount tables.search.query tables.search.ignore_case haystack.now span count)) }
        ensures most { IfSome result (λ count. count ≤ span.end - span.start) }
        ensures ticks { MatchOption result (tally.new ≡ tally.old) (λ _. tally.new
            ≡ record tally.old { scanned = tally.old.scanned + (span.end - span.start) }) }
    {
        let byte = self.only_byte()?;
        Some(count_byte(haystack, span, byte, tally))
    }
}
