//! The leftmost match of a span. If matches are likely to be near each other, the search first walks through short
//! pieces at the start of the span, one after another. A walk over a piece has to begin some bytes after it, except if
//! the next byte is in no pattern. So a piece ends before such a byte if there is one nearby.
ghost use Rattle.std.specs.Prelude.{◌≡◌, ◌+◌, ◌-◌, ◌*◌, ◌<◌, ◌≤◌, ℕ};
ghost use Rattle.std.specs.Prelude.{IfOk, IfSome, IsNone, MatchOption, Some, min, true};
ghost use Rattle.std.specs.Result.{IsOkAnd};
ghost use Rattle.literal_base.specs.Leftmost.{IsLeftmost};
ghost use Rattle.literal_base.specs.Occurs.{IsValidSpan, between};
ghost use Rattle.literal_leftmost.specs.At.{IsMatchIn};
ghost use Rattle.literal_leftmost.specs.Inside.Backward.{ForBackward, IsMatchBy, IsSafe};
ghost use Rattle.literal_leftmost.specs.Inside.Leftmost.{AreFor, HasBytes, IsFirstStart, IsLimit, IsProgress};
ghost use Rattle.literal_leftmost.specs.Inside.Leftmost.{LiesInPart};
ghost use Rattle.literal_leftmost.specs.Inside.Leftmost.{ReadsFor, owed_by};
ghost use Rattle.literal_leftmost.specs.Inside.Near.{IsFirstLook, IsGap, IsPiece, ReadsFirstLook};
ghost use Rattle.literal_leftmost.specs.SearchValue.{LooksFor};

use crate::backward::{Backward, PatternStart};
use crate::leftmost::{FIRST, PRICE, Progress, StepResult};
use literal_base::count::Tally;
use literal_base::{Match, Span};
use literal_fingerprints::CandidateScan;
use literal_rows::classes::CLASSES_LEN;
use literal_rows::damaged::Damaged;
use literal_rows::walk::class_by;

// No answer depends on these constants, only the time.

/// The least length of a piece, in bytes, except at the end of the span.
const PIECE: usize = 10;

/// How many bytes longer than the first part of a block a piece is if it does not end before a byte of no pattern.
const MORE: usize = 8;

/// The last piece begins less than this many bytes after the start of the span.
const NEAR: usize = 64;

/// The most states for every two patterns with which a search that has no scan begins by pieces.
const FEW_STATES: usize = 9;

/// The most states for every two patterns with which a search that has a scan walks over a piece at a candidate.
const FEW_STATES_TO_SCAN: usize = 15;

/// A piece of a span.
#[derive(Clone, Copy)]
pub struct Piece {
    /// Its end.
    pub end: usize,
    /// An occurrence that begins in the piece, and lies in the span, ends at this offset or before it.
    pub reach: usize,
}

/// The answer of a search by pieces.
#[derive(Clone, Copy)]
pub struct FirstLook {
    pub found: Option<Match>,
    /// If nothing was found: no occurrence begins before this offset.
    pub at: usize,
}

impl<'t> Backward<'t> {
    /// Whether the automaton has at most `most` states for every two patterns. Frequent words are short and share
    /// suffixes, so they need few states. The answers of a search do not depend on it, only its time.
    #[inline(always)]
    fn has_few_states(&self, most: usize) -> bool
        requires safe { IsSafe self.now }
        requires bounded { most ≤ 256 }
        ensures { result ≡ true → self.now.table.width < 256 }
    {
        let width = self.table.width;
        width < 256
            && self.table.rows.len() - CLASSES_LEN <= self.lens.len() * (width + 1) * most / 2
    }

    /// The first offset of a span whose byte is in no pattern.
    #[inline(always)]
    fn gap_in(
        &self,
        classes: &[u8; 256],
        haystack: &[u8],
        span: Span,
        tally: &mut Tally,
    ) -> Option<usize>
        requires valid { IsValidSpan haystack.now span }
        requires few { self.now.table.width < 256 }
        ensures inside { IfSome result (λ at. (span.start ≤ at) × (at < span.end)) }
        ensures gap { IfSome result (IsGap classes.now self.now.table.width haystack.now) }
        ensures others { tally.new ≡ record tally.old { scanned = tally.new.scanned } }
        ensures grows { tally.old.scanned ≤ tally.new.scanned }
        ensures most { MatchOption result (tally.new.scanned + span.start ≤ tally.old.scanned + span.end)
            (λ at. tally.new.scanned + span.start ≤ tally.old.scanned + at + 1) }
    {
        for at in span.start..span.end {
            if class_by(classes, haystack, at, tally) + 1 == self.table.width {
                return Some(at);
            }
        }
        None
    }

    /// The piece that begins at an offset.
    #[inline(always)]
    fn piece_at(
        &self,
        classes: &[u8; 256],
        haystack: &[u8],
        span: Span,
        at: usize,
        tally: &mut Tally,
    ) -> Piece
        requires valid { IsValidSpan haystack.now span }
        requires same { HasBytes self.now classes.now }
        requires few { self.now.table.width < 256 }
        requires after { span.start ≤ at }
        requires before { at < span.end }
        ensures piece { IsPiece self.now haystack.now span at result }
        ensures others { tally.new ≡ record tally.old { scanned = tally.new.scanned } }
        ensures grows { tally.old.scanned ≤ tally.new.scanned }
        ensures most { tally.new.scanned + min (result.end + (self.now.table.longest - 1)) result.reach + 2 * at
            ≤ tally.old.scanned + 3 * result.end }
    {
        let lead = self.table.longest.saturating_sub(1);
        let part = FIRST.max(self.table.longest / 2 + 3) + MORE;
        let start = at + PIECE.min(span.end - at);
        // (if there is no gap, what is read for it, the lead and the piece are at most three times the piece)
        let most = lead.min(part.saturating_mul(2).saturating_sub(lead));
        let end = start + most.min(span.end - start);
        match self.gap_in(classes, haystack, Span { start, end }, tally) {
            Some(end) => Piece { end, reach: end },
            None => Piece {
                end: at + part.min(span.end - at),
                reach: span.end,
            },
        }
    }

    /// The first occurrence that begins in the piece at an offset.
    fn look_near(
        &self,
        classes: &[u8; 256],
        haystack: &[u8],
        span: Span,
        at: usize,
        limit: usize,
        tally: &mut Tally,
    ) -> Result<FirstLook, Damaged>
        requires safe { IsSafe self.now }
        requires same { HasBytes self.now classes.now }
        requires limit { IsLimit self.now limit }
        requires valid { IsValidSpan haystack.now span }
        requires few { self.now.table.width < 256 }
        requires after { span.start ≤ at }
        requires before { at < span.end }
        ensures found { ForBackward self.now (λ tables. IsOkAnd result
            (IsFirstLook tables haystack.now (between at span.end))) }
        ensures lies { IfOk result (λ near. IfSome near.found (IsMatchBy self.now span at)) }
        ensures inside { IfOk result (λ near. (at < near.at) × (near.at ≤ span.end)) }
        ensures others { tally.new ≡ record tally.old { scanned = tally.new.scanned } }
        ensures most { tally.new.scanned + 3 * at ≤ tally.old.scanned + 3 * span.end }
        ensures counted { IfOk result (ReadsFirstLook self.now.table.longest (between at span.end) tally.old.scanned
            tally.new.scanned) }
    {
        let Piece { end, reach } = self.piece_at(classes, haystack, span, at, tally);
        let span = Span {
            start: at,
            end: reach,
        };
        let part = Span { start: at, end };
        let Some(begun) = self.begun_in(classes, haystack, span, part, limit, tally)? else {
            return Ok(FirstLook {
                found: None,
                at: end,
            });
        };
        let found = self.match_at(haystack, span, begun.at, begun.code)?;
        Ok(FirstLook {
            found: Some(found),
            at: end,
        })
    }

    /// The leftmost match near the start of a span, by one piece after another.
    #[inline(never)]
    fn find_by_pieces(
        &self,
        haystack: &[u8],
        span: Span,
        tally: &mut Tally,
    ) -> Result<FirstLook, Damaged>
        requires safe { IsSafe self.now }
        requires few { self.now.table.width < 256 }
        requires valid { IsValidSpan haystack.now span }
        ensures found { ForBackward self.now (λ tables. IsOkAnd result (IsFirstLook tables haystack.now span)) }
        ensures lies { IfOk result (λ near. IfSome near.found (IsMatchBy self.now span span.start)) }
        ensures inside { IfOk result (λ near. (span.start ≤ near.at) × (near.at ≤ span.end)) }
        ensures others { tally.new ≡ record tally.old { scanned = tally.new.scanned } }
        ensures most { tally.new.scanned ≤ tally.old.scanned + 3 * (span.end - span.start) }
        ensures counted { IfOk result
            (ReadsFirstLook self.now.table.longest span tally.old.scanned tally.new.scanned) }
    {
        let (limit, bytes) = (self.table.limit()?, self.table.class_bytes());
        let classes = &bytes;
        let end = span.start + NEAR.min(span.end - span.start);
        let mut at = span.start;
        while at < end {
            let near = self.look_near(classes, haystack, span, at, limit, tally)?;
            if near.found.is_some() {
                return Ok(near);
            }
            at = near.at;
        }
        Ok(FirstLook { found: None, at })
    }

    /// The same if patterns are likely to begin at many offsets; otherwise it looks at nothing.
    #[inline(always)]
    fn find_near(
        &self,
        haystack: &[u8],
        span: Span,
        tally: &mut Tally,
    ) -> Result<FirstLook, Damaged>
        requires safe { IsSafe self.now }
        requires valid { IsValidSpan haystack.now span }
        ensures found { ForBackward self.now (λ tables. IsOkAnd result (IsFirstLook tables haystack.now span)) }
        ensures lies { IfOk result (λ near. IfSome near.found (IsMatchBy self.now span span.start)) }
        ensures inside { IfOk result (λ near. (span.start ≤ near.at) × (near.at ≤ span.end)) }
        ensures others { tally.new ≡ record tally.old { scanned = tally.new.scanned } }
        ensures most { tally.new.scanned ≤ tally.old.scanned + 3 * (span.end - span.start) }
        ensures counted { IfOk result
            (ReadsFirstLook self.now.table.longest span tally.old.scanned tally.new.scanned) }
    {
        if self.prints[0] == 0 && self.has_few_states(FEW_STATES) {
            return self.find_by_pieces(haystack, span, tally);
        }
        Ok(FirstLook {
            found: None,
            at: span.start,
        })
    }

    /// Looks at the first candidate alone, and then walks over one short piece from there on, before whole blocks are
    /// walked over. It does nothing if there is no scan for candidates, if the scan passed over many bytes, or if
    /// several patterns have many states.
    #[inline(always)]
    pub(crate) fn look_first(
        &self,
        scan: &Option<CandidateScan>,
        classes: &[u8; 256],
        haystack: &[u8],
        span: Span,
        progress: Progress,
        limit: usize,
        tally: &mut Tally,
    ) -> Result<StepResult, Damaged>
        requires safe { IsSafe self.now }
        requires same { HasBytes self.now classes.now }
        requires limit { IsLimit self.now limit }
        requires valid { IsValidSpan haystack.now span }
        requires after { span.start ≤ progress.at }
        requires inside { progress.at < span.end }
        requires for_patterns { AreFor self.now scan.now }
        ensures first { ForBackward self.now (λ tables. IsOkAnd result (λ looked.
            IsFirstStart tables haystack.now span.end (between progress.at looked.progress.at) looked.first)) }
        ensures inside { IfOk result (λ looked. LiesInPart progress.at span.end looked.first) }
        ensures later { IfOk result (λ looked. (progress.at ≤ looked.progress.at) × (looked.progress.at ≤ span.end)) }
        ensures progress { (base : ℕ) → IsProgress self.now span (owed_by scan.now) base tally.old.scanned progress
            → IfOk result (λ looked. IsNone looked.first
            → IsProgress self.now span (owed_by scan.now) base tally.new.scanned looked.progress) }
        ensures found { (base : ℕ) → IsProgress self.now span (owed_by scan.now) base tally.old.scanned progress
            → IfOk result (λ looked. IfSome looked.first
            (λ begun. ReadsFor self.now.table.longest span base tally.new.scanned (Some begun))) }
        ensures most { (base : ℕ) → IsProgress self.now span (owed_by scan.now) base tally.old.scanned progress
            → tally.new.scanned + 3 * span.start ≤ base + 3 * span.end }
        ensures others { tally.new ≡ record tally.old { scanned = tally.new.scanned } }
    {
        let is_likely = self.lens.len() == 1 || self.has_few_states(FEW_STATES_TO_SCAN);
        if scan.is_none() || progress.credit >= PRICE || !is_likely {
            return Ok(StepResult {
                first: None,
                progress,
            });
        }
        let start = progress.at;
        let here = self.begun_at(classes, haystack, span, start, limit, tally)?;
        if here.is_some() {
            let progress = Progress {
                at: start + 1,
                ..progress
            };
            return Ok(StepResult {
                first: here,
                progress,
            });
        }
        // (long enough to pay for the walk at the candidate too)
        let len = self.table.longest.saturating_add(PIECE);
        let end = start + len.min(span.end - start);
        let part = Span { start, end };
        let progress = Progress {
            at: end,
            ..progress
        };
        if let Some(begun) = self.begun_in(classes, haystack, span, part, limit, tally)? {
            let first = Some(begun);
            return Ok(StepResult { first, progress });
        }
        let progress = self.pass_on(scan, haystack, span, progress, tally);
        Ok(StepResult {
            first: None,
            progress,
        })
    }

    /// The first offset in a span at which a pattern begins. A scan for candidates passes over bytes. At a candidate,
    /// one walk looks at this offset if the scan passed over enough; otherwise four walks go backward through a block.
    /// Each block is twice as long as the previous one, up to a limit.
    pub(crate) fn first_begun(
        &self,
        haystack: &[u8],
        span: Span,
        tally: &mut Tally,
    ) -> Result<Option<PatternStart>, Damaged>
        requires safe { IsSafe self.now }
        requires valid { IsValidSpan haystack.now span }
        ensures first { ForBackward self.now (λ tables. IsOkAnd result
            (IsFirstStart tables haystack.now span.end span)) }
        ensures lies { IfOk result (LiesInPart span.start span.end) }
        ensures others { tally.new ≡ record tally.old { scanned = tally.new.scanned } }
        ensures most { tally.new.scanned ≤ tally.old.scanned + 3 * (span.end - span.start) }
        ensures counted { IfOk result
            (ReadsFor self.now.table.longest span tally.old.scanned tally.new.scanned) }
    {
        let progress = self.pass_first(haystack, span, tally);
        if progress.at == span.end {
            return Ok(None);
        }
        self.first_after(haystack, span, progress, tally)
    }

    /// The leftmost match of a span.
    #[inline(always)]
    pub fn find_in(
        &self,
        haystack: &[u8],
        span: Span,
        tally: &mut Tally,
    ) -> Result<Option<Match>, Damaged>
        requires safe { IsSafe self.now }
        requires valid { IsValidSpan haystack.now span }
        ensures leftmost { ForBackward self.now (λ tables. IsOkAnd result
            (IsLeftmost tables.search.query tables.search.ignore_case haystack.now span)) }
        ensures lies { IfOk result (λ answer. IfSome answer (IsMatchBy self.now span span.start)) }
        ensures others { tally.new ≡ record tally.old { scanned = tally.new.scanned } }
        ensures most { tally.new.scanned ≤ tally.old.scanned + 3 * (span.end - span.start) }
        ensures counted { IfOk result (λ answer.
            LooksFor self.now.table.longest span answer tally.old.scanned tally.new.scanned) }
    {
        if span.start == span.end {
            return Ok(None);
        }
        if let Some(short) = self.short() {
            if short.len == 1 {
                return Ok(self.find_byte(&short, haystack, span, tally));
            }
            return self.find_short(&short, haystack, span, tally);
        }
        let near = self.find_near(haystack, span, tally)?;
        if near.found.is_some() {
            return Ok(near.found);
        }
        let rest = Span {
            start: near.at,
            end: span.end,
        };
        let Some(begun) = self.first_begun(haystack, rest, tally)? else {
            return Ok(None);
        };
        let found = self.match_at(haystack, rest, begun.at, begun.code)?;
        Ok(Some(found))
    }

    /// The match at the start of a span, by one walk, which begins far enough after the start for the longest pattern.
    pub fn find_at(
        &self,
        haystack: &[u8],
        span: Span,
        tally: &mut Tally,
    ) -> Result<Option<Match>, Damaged>
        requires safe { IsSafe self.now }
        requires valid { IsValidSpan haystack.now span }
        ensures at { ForBackward self.now (λ tables. IsOkAnd result
            (IsMatchIn tables.search.query tables.search.ignore_case haystack.now span)) }
        ensures lies { IfOk result (λ answer. IfSome answer (IsMatchBy self.now span span.start)) }
        ensures here { IfOk result (λ answer. IfSome answer (λ found. found.start ≡ span.start)) }
        ensures others { tally.new ≡ record tally.old { scanned = tally.new.scanned } }
        ensures most { tally.new.scanned ≤ tally.old.scanned + self.now.table.longest }
        ensures within { IfOk result (λ _. tally.new.scanned ≤ tally.old.scanned + (span.end - span.start)) }
        ensures least { IfOk result (λ answer. MatchOption answer (tally.old.scanned ≤ tally.new.scanned)
            (λ found. tally.old.scanned + found.end ≤ tally.new.scanned + span.start)) }
    {
        let (limit, bytes) = (self.table.limit()?, self.table.class_bytes());
        let classes = &bytes;
        if span.start == span.end || self.table.longest == 0 {
            return Ok(None);
        }
        if let Some(begun) = self.begun_at(classes, haystack, span, span.start, limit, tally)? {
            let found = self.match_at(haystack, span, begun.at, begun.code)?;
            return Ok(Some(found));
        }
        Ok(None)
    }
}
