//! Backward walks through a span, by an automaton of the reversed patterns. Lent numbers may be wrong: if one points
//! outside the rows, the answer is `Damaged`.
ghost use Rattle.literal_base.specs.Leftmost.{IsLeftmost, IsLeftmostMatch};
ghost use Rattle.literal_base.specs.Occurs.{IsValidSpan, between};
ghost use Rattle.literal_leftmost.specs.Inside.Backward.{AreListed, AreMarked, AreMarks, ForBackward, HasLookedAhead};
ghost use Rattle.literal_leftmost.specs.Inside.Backward.{IsBlock, IsBlockMarked, IsMark, IsMatchBy, IsPlaced, IsSafe};
ghost use Rattle.literal_leftmost.specs.Inside.Backward.{NoneFrom, named_by, offset_by, room_for};
ghost use Rattle.literal_leftmost.specs.Inside.Leftmost.{HasBytes, IsLimit, IsPart};
ghost use Rattle.literal_leftmost.specs.SearchValue.{ScansThrice, looked_by};
ghost use Rattle.literal_leftmost.specs.declared.lanes.TheConstants.{OVERLAP};
ghost use Rattle.literal_leftmost.specs.declared.backward.Continuation.{Continuation};
ghost use Rattle.literal_leftmost.specs.declared.backward.TheConstants.{MARKED};
ghost use Rattle.std.specs.Prelude.{◌*◌, ◌+◌, ◌-◌, ◌<◌, ◌^◌, ◌≡◌, ◌≤◌, IfOk, IfSome, List, MatchOption, None, length};
ghost use Rattle.std.specs.Prelude.{max, min, slice_index, ℕ};
ghost use Rattle.std.specs.Result.{IsOkAnd};

use crate::unmarked::pass_unmarked;
use literal_base::count::Tally;
use literal_base::{Match, Span};
use literal_rows::array::scan_in;
use literal_rows::damaged::Damaged;
use literal_rows::walk::{ENDS, Table};

/// The least length of a block, unless the span is shorter.
pub const LEAST: usize = 1024;

/// The largest length of the four parts of a marked block. Parts double up to it while blocks follow one another.
pub const MARKED: usize = LEAST / 4;

/// The first length of a part after a gap between blocks; it doubles from there. At a span's end parts are shorter.
const FIRST_MARKED: usize = 16;

/// In a list, one walk looks at a candidate alone if the scan passed over enough bytes before it: this many plus half
/// the length of the longest pattern, and at least that length.
pub const FAR: usize = 18;

/// The least length of the four parts of a marked block.
const LEAST_MARKED: usize = 6;

/// The parts of a search that a backward walk reads.
#[derive(Clone, Copy)]
pub struct Backward<'t> {
    /// The numbers of the automaton of the reversed patterns.
    pub table: Table<'t>,
    /// The length of each pattern.
    pub lens: &'t [u32],
    /// The number of the longest pattern that is shorter than a pattern and a prefix of it, for each.
    pub links: &'t [u32],
    /// The numbers of the scan for candidates, if there is one.
    pub prints: &'t [u32],
}

/// An offset at which a pattern begins, and the number that a walk read there.
#[derive(Clone, Copy)]
pub struct PatternStart {
    pub at: usize,
    pub code: u32,
}

/// Which numbers of a list are marks: number i is the mark of offset `first` + i, for offsets before `upto`. From
/// `upto` up to `known` no pattern begins.
#[derive(Clone, Copy)]
pub struct Marks {
    pub first: usize,
    pub upto: usize,
    pub known: usize,
    /// The length of each of the four parts of the block, or 0 if it was not marked in four parts.
    pub part: usize,
}

/// The result of a look ahead.
#[derive(Clone, Copy)]
pub struct Looked {
    /// The next match, if the look ahead found it.
    pub found: Option<Match>,
    /// The offset where the search goes on: one byte after the start of the match. If there is none, no pattern begins
    /// before this offset.
    pub at: usize,
}

/// Where a list continues after a match: at its end, or one byte after its start, so that matches may overlap.
#[derive(Clone, Copy)]
pub enum Continuation {
    AtEnd,
    AfterStart,
}

impl<'t> Backward<'t> {
    /// The block that begins at an offset: at least as long as the longest pattern, unless less of the span is left.
    fn block_at(&self, span: Span, at: usize) -> Span
        requires after { span.start ≤ at }
        requires inside { at < span.end }
        ensures block { IsBlock self.now.table.longest span result }
        ensures start { result.start ≡ at }
        ensures len { result.end ≡ at + min (max self.now.table.longest LEAST) (span.end - at) }
    {
        let len = self.table.longest.max(LEAST).min(span.end - at);
        Span {
            start: at,
            end: at + len,
        }
    }

    /// The leftmost match of the rest of a span, from an offset on. The numbers hold marks, with room for a block.
    pub fn next_match(
        &self,
        haystack: &[u8],
        span: Span,
        at: usize,
        numbers: &mut [u32],
        marks: &mut Marks,
        tally: &mut Tally,
    ) -> Result<Option<Match>, Damaged>
        requires safe { IsSafe self.now }
        requires valid { IsValidSpan haystack.now span }
        requires room { room_for self.now.table.longest span ≤ length numbers.old }
        requires placed { IsPlaced self.now.table.longest span at marks.old }
        ensures leftmost { ForBackward self.now (λ tables. AreMarked tables haystack.now span at numbers.old marks.old
            → IsOkAnd result (IsLeftmost tables.search.query tables.search.ignore_case haystack.now
            (between at span.end))) }
        ensures marked { ForBackward self.now (λ tables. AreMarked tables haystack.now span at numbers.old marks.old
            → (on : Continuation) → IfOk result (λ answer. AreMarked tables haystack.now span (offset_by on span answer)
            numbers.new marks.new)) }
        ensures lies { IfOk result (λ answer. IfSome answer (IsMatchBy self.now span at)) }
        ensures placed { (on : Continuation) → IfOk result
            (λ answer. IsPlaced self.now.table.longest span (offset_by on span answer) marks.new) }
        ensures further { (marks.old.known ≤ marks.new.known) × (marks.new.known ≤ span.end) }
        ensures bounded { ScansThrice (between marks.old.known marks.new.known) tally.old tally.new }
        ensures least { IfOk result (λ _. tally.old.scanned + looked_by self.now.table.longest span marks.new.known
            ≤ tally.new.scanned + looked_by self.now.table.longest span marks.old.known) }
        ensures ended { at ≡ span.end → IsOkAnd result (λ answer. answer ≡ None) }
    {
        let mut from = at;
        while from < span.end {
            let looked = self.mark_from(haystack, span, from, numbers, marks, tally)?;
            if looked.found.is_some() {
                return Ok(looked.found);
            }
            let found = self.next_marked(haystack, span, looked.at, numbers, *marks)?;
            if found.is_some() {
                return Ok(found);
            }
            from = marks.known;
        }
        Ok(None)
    }

    /// Marks further offsets from one on, unless it is known what begins there.
    #[inline(always)]
    fn mark_from(
        &self,
        haystack: &[u8],
        span: Span,
        from: usize,
        numbers: &mut [u32],
        marks: &mut Marks,
        tally: &mut Tally,
    ) -> Result<Looked, Damaged>
        requires safe { IsSafe self.now }
        requires valid { IsValidSpan haystack.now span }
        requires more { from < span.end }
        requires room { room_for self.now.table.longest span ≤ length numbers.old }
        requires placed { IsPlaced self.now.table.longest span from marks.old }
        ensures { HasLookedAhead self.now haystack.now span from numbers.old numbers.new marks.old marks.new tally.old
            tally.new result }
    {
        if from < marks.known {
            return Ok(nothing_before(from));
        }
        self.mark_ahead(haystack, span, from, numbers, marks, tally)
    }

    /// The same if it is not known. A scan passes over bytes up to a candidate. If it passed over enough, the haystack
    /// is compared there with the only pattern, if that is short; otherwise this offset is marked alone. If it passed
    /// over few bytes, a block is marked. It is not inlined, so that a match in a marked block costs little.
    #[tactic(auto, using(crate::proofs::lemmas::Leftmost::ahead_few))]
    #[inline(never)]
    fn mark_ahead(
        &self,
        haystack: &[u8],
        span: Span,
        from: usize,
        numbers: &mut [u32],
        marks: &mut Marks,
        tally: &mut Tally,
    ) -> Result<Looked, Damaged>
        requires safe { IsSafe self.now }
        requires valid { IsValidSpan haystack.now span }
        requires more { from < span.end }
        requires unknown { marks.old.known ≤ from }
        requires room { room_for self.now.table.longest span ≤ length numbers.old }
        requires placed { IsPlaced self.now.table.longest span from marks.old }
        ensures { HasLookedAhead self.now haystack.now span from numbers.old numbers.new marks.old marks.new tally.old
            tally.new result }
    {
        let scan = &scan_in(self.prints);
        let rest = Span {
            start: from,
            end: span.end,
        };
        let at = self.pass_over(scan, haystack, rest, tally);
        if at == span.end {
            *marks = no_marks(at);
            return Ok(nothing_before(at));
        }
        if let Some(short) = self.short_at(span, from, at) {
            *marks = no_marks(at + 1);
            let found = self.compare_at(&short, haystack, span, at, tally);
            return Ok(Looked { found, at: at + 1 });
        }
        let part = self.part_after(marks.part, at - from);
        *marks = no_marks(span.end);
        let longest = self.table.longest;
        *marks = if at - from >= longest.max(longest / 2 + FAR) {
            self.mark_offset(haystack, span, at, numbers, tally)?
        } else {
            self.mark_block(haystack, span, at, part, numbers, tally)?
        };
        Ok(nothing_before(at))
    }

    /// Marks one offset, if a pattern begins there.
    pub(crate) fn mark_offset(
        &self,
        haystack: &[u8],
        span: Span,
        at: usize,
        numbers: &mut [u32],
        tally: &mut Tally,
    ) -> Result<Marks, Damaged>
        requires safe { IsSafe self.now }
        requires valid { IsValidSpan haystack.now span }
        requires after { span.start ≤ at }
        requires inside { at < span.end }
        requires room { 0 < length numbers.old }
        ensures marked { ForBackward self.now (λ tables. IsOkAnd result
            (AreMarked tables haystack.now span at numbers.new)) }
        ensures placed { IfOk result (λ m. (m.first ≡ at) × (m.upto ≤ m.known) × (m.known ≡ at + 1)) }
        ensures others { tally.new ≡ record tally.old { scanned = tally.new.scanned } }
        ensures most { tally.new.scanned ≤ tally.old.scanned + max self.now.table.longest 1 }
        ensures least { IfOk result (λ _. tally.old.scanned + min (at + max self.now.table.longest 1) span.end
            ≤ tally.new.scanned + at) }
    {
        let (limit, bytes) = (self.table.limit()?, self.table.class_bytes());
        let known = at + 1;
        let Some(begun) = self.begun_at(&bytes, haystack, span, at, limit, tally)? else {
            return Ok(Marks {
                first: at,
                upto: at,
                known,
                part: 0,
            });
        };
        numbers[0] = begun.code;
        Ok(Marks {
            first: at,
            upto: known,
            known,
            part: 0,
        })
    }

    /// Marks the block that begins at an offset, by four walks through parts of at most this length, if possible.
    fn mark_block(
        &self,
        haystack: &[u8],
        span: Span,
        from: usize,
        part: usize,
        numbers: &mut [u32],
        tally: &mut Tally,
    ) -> Result<Marks, Damaged>
        requires safe { IsSafe self.now }
        requires valid { IsValidSpan haystack.now span }
        requires after { span.start ≤ from }
        requires inside { from < span.end }
        requires short { part ≤ MARKED }
        requires room { room_for self.now.table.longest span ≤ length numbers.old }
        ensures marked { ForBackward self.now (λ tables. IsOkAnd result
            (AreMarked tables haystack.now span from numbers.new)) }
        ensures placed { IfOk result (IsBlockMarked self.now.table.longest span from) }
        ensures others { tally.new ≡ record tally.old { scanned = tally.new.scanned } }
        ensures most { IfOk result (λ m. tally.new.scanned + min OVERLAP (span.end - from) + 3 * from
            ≤ tally.old.scanned + 3 * m.known) }
        ensures far { tally.new.scanned + min OVERLAP (span.end - from) + 3 * from
            ≤ tally.old.scanned + 3 * span.end }
        ensures least { IfOk result (λ m. tally.old.scanned
            + min (m.known + (self.now.table.longest - 1)) span.end ≤ tally.new.scanned + from) }
    {
        if let Some(part) = self.part_for_marks(span.end - from, part) {
            return self.mark_four_parts(haystack, span, from, part, numbers, tally);
        }
        let (limit, bytes) = (self.table.limit()?, self.table.class_bytes());
        let block = self.block_at(span, from);
        self.mark_alone(&bytes, haystack, span, block, limit, numbers, tally)?;
        Ok(Marks {
            first: from,
            upto: block.end,
            known: block.end,
            part: 0,
        })
    }

    /// Marks each offset of a block, by one walk.
    fn mark_alone(
        &self,
        classes: &[u8; 256],
        haystack: &[u8],
        span: Span,
        block: Span,
        limit: usize,
        numbers: &mut [u32],
        tally: &mut Tally,
    ) -> Result<(), Damaged>
        requires safe { IsSafe self.now }
        requires same { HasBytes self.now classes.now }
        requires limit { IsLimit self.now limit }
        requires valid { IsValidSpan haystack.now span }
        requires block { IsPart span block }
        requires room { block.end - block.start ≤ length numbers.old }
        ensures marks { ForBackward self.now (λ tables. IsOkAnd result
            (λ _. AreMarks tables haystack.now span.end numbers.new block.start block.start block.end)) }
        ensures others { tally.new ≡ record tally.old { scanned = tally.new.scanned } }
        ensures most { tally.new.scanned + block.start
            ≤ tally.old.scanned + min (block.end + (self.now.table.longest - 1)) span.end }
        ensures all { IfOk result (λ _. tally.new.scanned + block.start
            ≡ tally.old.scanned + min (block.end + (self.now.table.longest - 1)) span.end) }
    {
        let mut row = self.walk_back(classes, haystack, span, block.end, limit, tally)?;
        for at in (block.start..block.end).rev() {
            let code = self.step(classes, row, haystack, at, limit, tally)?;
            numbers[at - block.start] = code;
            row = (code % ENDS) as usize; // (without the bit that says that a pattern begins)
        }
        Ok(())
    }

    /// The largest length of each part of the next block: twice the length in the previous block, or the least one if
    /// at least as many bytes were passed over as that block has.
    fn part_after(&self, before: usize, passed: usize) -> usize
        ensures { result ≤ MARKED }
    {
        let part = if passed / 4 < before {
            before.saturating_mul(2)
        } else {
            FIRST_MARKED
        };
        part.max(self.table.longest.saturating_add(4)).min(MARKED)
    }

    /// The length of four parts that are marked at once, at most `most`, if `left` bytes are left. There is none if a
    /// part would be shorter than the least length, or than the longest pattern plus four bytes.
    pub(crate) fn part_for_marks(&self, left: usize, most: usize) -> Option<usize>
        requires { most ≤ MARKED }
        ensures inside { IfSome result (λ part. 4 * part + self.now.table.longest ≤ left) }
        ensures long { IfSome result (λ part. (self.now.table.longest + 4 ≤ part) × (OVERLAP ≤ 4 * part)) }
        ensures short { IfSome result (λ part. 4 * part ≤ LEAST) }
    {
        let part = (left.saturating_sub(self.table.longest) / 4).min(most);
        if part < LEAST_MARKED || part < self.table.longest.saturating_add(4) {
            return None;
        }
        Some(part)
    }

    /// The match at the first offset, from one on, whose mark says that a pattern begins.
    pub(crate) fn next_marked(
        &self,
        haystack: &[u8],
        span: Span,
        from: usize,
        numbers: &[u32],
        marks: Marks,
    ) -> Result<Option<Match>, Damaged>
        requires safe { IsSafe self.now }
        requires valid { IsValidSpan haystack.now span }
        requires listed { AreListed span from (length numbers.now) marks }
        ensures found { ForBackward self.now (λ tables. AreMarked tables haystack.now span from numbers.now marks
            → IsOkAnd result (λ answer. MatchOption answer
            (NoneFrom tables haystack.now span.end from marks.known)
            (IsLeftmostMatch tables.search.query tables.search.ignore_case haystack.now (between from span.end)))) }
        ensures lies { IfOk result (λ answer. IfSome answer (IsMatchBy self.now span from)) }
        ensures known { IfOk result (λ answer. IfSome answer (λ found. found.start < marks.known)) }
    {
        let upto = marks.upto.max(from);
        for at in pass_unmarked(numbers, marks.first, from, upto)..upto {
            let code = numbers[at - marks.first];
            if code >= ENDS {
                return Ok(Some(self.match_at(haystack, span, at, code)?));
            }
        }
        Ok(None)
    }

    /// The match that begins at a marked offset.
    pub(crate) fn match_at(
        &self,
        haystack: &[u8],
        span: Span,
        at: usize,
        code: u32,
    ) -> Result<Match, Damaged>
        requires safe { IsSafe self.now }
        requires valid { IsValidSpan haystack.now span }
        requires inside { at < span.end }
        requires ends { 2 ^ 31 ≤ code }
        ensures leftmost { ForBackward self.now (λ tables. IsMark tables haystack.now span.end at code
            → IsOkAnd result (IsLeftmostMatch tables.search.query tables.search.ignore_case haystack.now
            (between at span.end))) }
        ensures lies { IfOk result (IsMatchBy self.now span at) }
        ensures here { IfOk result (λ found. found.start ≡ at) }
    {
        prove!(span.end <= haystack.len());
        let (pattern, len) = self.named_by(code)?;
        if len == 0 || len > self.table.longest || len > span.end - at {
            return Err(Damaged);
        }
        let end = at + len;
        Ok(Match::must(pattern, Span { start: at, end }))
    }

    /// The number of the pattern that a mark names, and its length. If there is one pattern, they are known without the
    /// rows: so where the search goes on does not wait for the mark.
    #[inline(always)]
    fn named_by(&self, code: u32) -> Result<(usize, usize), Damaged>
        requires ends { 2 ^ 31 ≤ code }
        ensures named { ForBackward self.now (λ tables. (haystack : List ℕ) (end at : ℕ)
            → IsMark tables haystack end at code → IsOkAnd result (λ named. (named.0 ≡ named_by tables code)
            × (named.1 ≡ slice_index self.now.lens.now named.0))) }
        ensures pattern { IfOk result (λ named. named.0 < length self.now.lens.now) }
    {
        if self.lens.len() == 1 {
            return Ok((0, self.table.longest));
        }
        let pattern = self.table.ending_at((code - ENDS) as usize)? as usize;
        let len = *self.lens.get(pattern).ok_or(Damaged)?;
        Ok((pattern, len as usize))
    }
}

/// Nothing was found, and nothing begins before an offset.
fn nothing_before(at: usize) -> Looked
    ensures { result ≡ record { found = None; at = at } }
{
    Looked { found: None, at }
}

/// No marks: nothing is known from an offset on.
pub fn no_marks(at: usize) -> Marks
    ensures { result ≡ record { first = at; upto = at; known = at; part = 0 } }
{
    Marks {
        first: at,
        upto: at,
        known: at,
        part: 0,
    }
}

/// The offset from which a list continues after an answer.
pub fn offset_after(on: Continuation, span: Span, answer: &Option<Match>) -> usize
    requires { IfSome answer.now (λ found. (found.start < found.end) × (found.end ≤ span.end)) }
    ensures { result ≡ offset_by on span answer.now }
{
    match (on, answer) {
        (_, None) => span.end,
        (Continuation::AtEnd, Some(found)) => found.end(),
        (Continuation::AfterStart, Some(found)) => found.start() + 1,
    }
}
