//! The search in a text that is read in pieces.
ghost use Rattle.std.specs.Prelude.{◌≡◌, ◌+◌, ◌-◌, ◌*◌, ◌<◌, ◌≤◌, ◌++◌, [], ℕ, List, length, false, true, IfOk};
ghost use Rattle.std.specs.Prelude.{IfSome, MatchOption, MatchResult, max};
ghost use Rattle.std.specs.Io.KnownBytes.{Consumes};
ghost use Rattle.literal_base.specs.Occurs.{NoneIsEmpty};
ghost use Rattle.literal_pieces.specs.Stream.{EndsFailed, EndsWhole, GivesAhead, GoesBehind};
ghost use Rattle.literal_pieces.specs.Stream.{ScansStreamedBy};
ghost use Rattle.literal_pieces.specs.Stream.{bytes_read, stream_of, told_to, ScansMore};
ghost use Rattle.literal_pieces.specs.Inside.Sought.{Answers, AnswersAhead, AreTablesOf, Begins, IsFirst, margin_of};
ghost use Rattle.literal_pieces.specs.Inside.Sought.{most_in_block, reach_of, search_of};
ghost use Rattle.literal_pieces.specs.Inside.Stream.{AreHeldFrom, GoesOn, GoesOnAfter, HasReadOn, IsFirstKnown, IsOpen};
ghost use Rattle.literal_pieces.specs.Inside.Stream.{IsSearchIn, IsSoundStream, IsThrough, held, done_to};
ghost use Rattle.literal_pieces.specs.Inside.Stream.{looked_in_block, looked_so_far, stream_value};

use crate::reading::Reading;
use crate::sought::{BlockSearch, Seeks, Sought};
use crate::window::Window;
use literal_base::count::Tally;
use literal_base::{Match, Span};
use literal_leftmost::so_far::{SoFar, so_far};
use std::alloc::{AllocError, Global};
use std::io::{self, Read};

/// A text that is read in pieces, and the offset at which a search continues in it.
#[derive(Drop)]
pub struct Stream<'s, R: Read + Drop> {
    pub reader: R,
    pub reading: Reading,
    pub window: Window,
    pub at: usize,
    pub ahead: BlockSearch<'s>,
    pub is_over: bool,
}

impl<'s, R: Read + Drop> Stream<'s, R> {
    /// The start of a text, with room for a search.
    pub fn new<S: Seeks>(
        alloc: Global,
        sought: &Sought<'s, S>,
        reader: R,
    ) -> Result<Stream<'s, R>, AllocError>
        ensures goes_on { IfOk result (λ s. GoesOn sought.now s.window s.at s.ahead s.reading (R.remaining s.reader)
            s.is_over) }
        ensures first { IfOk result (λ s.
            stream_value sought.now s.window s.at s.ahead s.reading (R.remaining s.reader) s.is_over
            ≡ stream_of (search_of sought.now) (R.remaining reader)) }
    {
        let window = Window::new(alloc, sought.reach().saturating_mul(2))?;
        Ok(Stream {
            reader,
            reading: Reading::new(),
            window,
            at: 0,
            ahead: BlockSearch::new(sought),
            is_over: false,
        })
    }

    /// The answer of an iterator: the leftmost match ahead, or `None`. The error is the reader's.
    pub fn next<S: Seeks>(
        &mut self,
        sought: &Sought<'_, S>,
        tally: &mut Tally,
    ) -> Option<io::Result<Match>>
        requires { GoesOn sought.now self.old.window self.old.at self.old.ahead self.old.reading
            (R.remaining self.old.reader) self.old.is_over }
        ensures goes_on { GoesOn sought.now self.new.window self.new.at self.new.ahead self.new.reading
            (R.remaining self.new.reader) self.new.is_over }
        ensures gives { GivesAhead (IsFirst sought.now) (Begins sought.now) (margin_of sought.now)
            (stream_value sought.now self.old.window self.old.at self.old.ahead self.old.reading
            (R.remaining self.old.reader) self.old.is_over) result
            (stream_value sought.now self.new.window self.new.at self.new.ahead self.new.reading
            (R.remaining self.new.reader) self.new.is_over) }
        ensures scans { ScansStreamedBy (most_in_block sought.now) (margin_of sought.now)
            (stream_value sought.now self.old.window self.old.at self.old.ahead self.old.reading
            (R.remaining self.old.reader) self.old.is_over)
            (stream_value sought.now self.new.window self.new.at self.new.ahead self.new.reading
            (R.remaining self.new.reader) self.new.is_over) tally.old tally.new }
    {
        if self.is_over {
            return None;
        }
        let next = next_match(
            sought,
            &mut self.window,
            &mut self.at,
            &mut self.ahead,
            &mut self.reader,
            &mut self.reading,
            tally,
        );
        self.is_over = !matches!(next, Ok(Some(_)));
        next.transpose()
    }
}

/// The leftmost match ahead, by its offsets in the text; the search then continues at its end. If no match is known
/// from the bytes read and reading failed, the answer is that error.
fn next_match<S: Seeks, R: Read>(
    sought: &Sought<'_, S>,
    window: &mut Window,
    at: &mut usize,
    ahead: &mut BlockSearch<'_>,
    reader: &mut R,
    reading: &mut Reading,
    tally: &mut Tally,
) -> io::Result<Option<Match>>
    requires sound { IsSoundStream (reach_of sought.now) window.old reading.old (R.remaining reader.old) }
    requires held { AreHeldFrom (margin_of sought.now) at.old window.old }
    requires search { IsSearchIn sought.now window.old reading.old at.old ahead.old }
    ensures sound { IfOk result (λ answer. IfSome answer (λ _. IsSoundStream (reach_of sought.now)
        window.new reading.new (R.remaining reader.new) × AreHeldFrom (margin_of sought.now) at.new window.new
        × IsSearchIn sought.now window.new reading.new at.new ahead.new)) }
    ensures gives { MatchResult result (λ answer. MatchOption answer
        (EndsWhole (IsFirst sought.now) (Begins sought.now) (margin_of sought.now)
        (stream_value sought.now window.old at.old ahead.old reading.old (R.remaining reader.old) false)
        (stream_value sought.now window.new at.new ahead.new reading.new (R.remaining reader.new) true))
        (λ found. GoesBehind (IsFirst sought.now) (Begins sought.now) (margin_of sought.now)
        (stream_value sought.now window.old at.old ahead.old reading.old (R.remaining reader.old) false) found
        (stream_value sought.now window.new at.new ahead.new reading.new (R.remaining reader.new) false)))
        (λ error. EndsFailed (IsFirst sought.now) (Begins sought.now) (margin_of sought.now)
        (stream_value sought.now window.old at.old ahead.old reading.old (R.remaining reader.old) false) error
        (stream_value sought.now window.new at.new ahead.new reading.new (R.remaining reader.new) true)) }
    ensures scans { ScansMore (looked_so_far sought.now window.old at.old ahead.old)
        (looked_so_far sought.now window.new at.new ahead.new) tally.old tally.new }
    ensures few { looked_so_far sought.now window.new at.new ahead.new
        ≤ 2 * most_in_block sought.now (bytes_read (margin_of sought.now) at.new (held window.new)) }
{
    loop {
        match next_known(sought, window, *at, ahead, reader, reading, tally) {
            SoFar::Found(found) => {
                *at = found.end();
                window.hold_from(*at, sought.margin());
                return Ok(Some(found));
            }
            SoFar::NoneBefore(offset) if reading.is_open() => {
                *at = offset;
                window.hold_from(*at, sought.margin());
            }
            SoFar::NoneBefore(_) => {
                window.pass(window.held().len());
                *at = window.offset;
                return match reading.take_error() {
                    Some(error) => Err(error),
                    None => Ok(None),
                };
            }
        }
    }
}

/// Goes on with the search of the block, or begins the next one. Returns what is known of the leftmost match from an
/// offset on, by its offsets in the text.
pub fn next_known<S: Seeks, R: Read>(
    sought: &Sought<'_, S>,
    window: &mut Window,
    at: usize,
    ahead: &mut BlockSearch<'_>,
    reader: &mut R,
    reading: &mut Reading,
    tally: &mut Tally,
) -> SoFar
    requires sound { IsSoundStream (reach_of sought.now) window.old reading.old (R.remaining reader.old) }
    requires held { AreHeldFrom (margin_of sought.now) at window.old }
    requires search { IsSearchIn sought.now window.old reading.old at ahead.old }
    ensures sound { IsSoundStream (reach_of sought.now) window.new reading.new (R.remaining reader.new) }
    ensures held { AreHeldFrom (margin_of sought.now) at window.new }
    ensures offset { window.new.offset ≡ window.old.offset }
    ensures read { (piece : List ℕ) × Consumes (R.remaining reader.old) (R.remaining reader.new) piece
        × (held window.new ≡ held window.old ++ piece) × HasReadOn reading.old piece reading.new }
    ensures answers { (more : List ℕ) → (reading.new.is_whole ≡ true → more ≡ [])
        → AnswersAhead sought.now at (held window.new ++ more) result }
    ensures known { IsFirstKnown (reach_of sought.now) reading.new.is_whole at
        (window.new.offset + length (held window.new)) result }
    ensures further { IsOpen reading.new → at < told_to result }
    ensures search { IsSearchIn sought.now window.new reading.new (told_to result) ahead.new }
    ensures scans { ScansMore (looked_so_far sought.now window.old at ahead.old)
        (looked_so_far sought.now window.new (done_to window.new reading.new result) ahead.new)
        tally.old tally.new }
    ensures not_empty { NoneIsEmpty (search_of sought.now).query.patterns }
{
    go_on(sought, window, at, ahead, reader, reading);
    let (base, is_whole) = (window.block_offset(), reading.is_whole());
    match first_known(
        sought,
        window.block(),
        at - base,
        ahead,
        sought.reach(),
        is_whole,
        tally,
    ) {
        SoFar::Found(found) => SoFar::Found(found.offset(base)),
        SoFar::NoneBefore(offset) => {
            ahead.end();
            SoFar::NoneBefore(offset + base)
        }
    }
}

/// Begins the next block, unless the search of the one before may still give a match that is known. It has all that can
/// be read, or twice the bytes that decide about a match.
fn go_on<S: Seeks, R: Read>(
    sought: &Sought<'_, S>,
    window: &mut Window,
    at: usize,
    ahead: &mut BlockSearch<'_>,
    reader: &mut R,
    reading: &mut Reading,
)
    requires sound { IsSoundStream (reach_of sought.now) window.old reading.old (R.remaining reader.old) }
    requires held { AreHeldFrom (margin_of sought.now) at window.old }
    requires search { IsSearchIn sought.now window.old reading.old at ahead.old }
    ensures sound { IsSoundStream (reach_of sought.now) window.new reading.new (R.remaining reader.new) }
    ensures offset { window.new.offset ≡ window.old.offset }
    ensures read { (piece : List ℕ) × Consumes (R.remaining reader.old) (R.remaining reader.new) piece
        × (held window.new ≡ held window.old ++ piece) × HasReadOn reading.old piece reading.new }
    ensures search { IsSearchIn sought.now window.new reading.new at ahead.new }
    ensures begun { ahead.new.is_begun ≡ true }
    ensures enough { IsOpen reading.new
        → at + max (reach_of sought.now) 1 ≤ window.new.offset + length (held window.new) }
    ensures paid { looked_so_far sought.now window.old at ahead.old
        ≤ looked_so_far sought.now window.new at ahead.new }
{
    let reach = sought.reach();
    let known = window.offset + window.held().len();
    if ahead.is_begun() && (known - at >= reach.max(1) || !reading.is_open()) {
        return;
    }
    window.fill(reader, reading, (2 * reach).max(1));
    ahead.begin(Span {
        start: at - window.offset,
        end: window.held().len(),
    });
}

/// What is known of the leftmost match from an offset on in a block of the text, which is its rest or a part of it.
fn first_known<S: Seeks>(
    sought: &Sought<'_, S>,
    haystack: &[u8],
    from: usize,
    ahead: &mut BlockSearch<'_>,
    reach: usize,
    is_whole: bool,
    tally: &mut Tally,
) -> SoFar
    requires within { from ≤ length haystack.now }
    requires reach { reach ≡ reach_of sought.now }
    requires tables { AreTablesOf sought.now ahead.old.words }
    requires through { IsThrough sought.now haystack.now from ahead.old }
    ensures answers { (more : List ℕ) → (is_whole ≡ true → more ≡ [])
        → Answers sought.now (haystack.now ++ more) from result }
    ensures known { IsFirstKnown (reach_of sought.now) is_whole from (length haystack.now) result }
    ensures same { ahead.new ≡ record ahead.old { cursor = ahead.new.cursor } }
    ensures through { GoesOnAfter sought.now haystack.now ahead.new result }
    ensures scans { ScansMore (looked_in_block sought.now ahead.old) (looked_in_block sought.now ahead.new)
        tally.old tally.new }
    ensures few { looked_in_block sought.now ahead.new
        ≤ most_in_block sought.now (ahead.new.span.end - ahead.new.span.start) }
{
    let end = haystack.len();
    let found = ahead.next_in(sought, haystack, from, tally);
    if !is_whole {
        return so_far(haystack, from, reach, found);
    }
    match found {
        Some(found) => SoFar::Found(found),
        None => SoFar::NoneBefore(end),
    }
}
