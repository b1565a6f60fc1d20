//! The search for every occurrence in a text that is read in pieces.
ghost use Rattle.std.specs.Prelude.{◌≡◌, ◌⊎◌, ◌+◌, ◌<◌, ◌≤◌, ◌++◌, [], ℕ, List, IfOk, IfSome, MatchOption};
ghost use Rattle.std.specs.Prelude.{MatchResult, false, length, slice_index, take, true};
ghost use Rattle.literal_base.specs.Occurs.{pattern_at};
ghost use Rattle.literal_occurrences.specs.Automaton.{EndsText, IsStateAfter};
ghost use Rattle.literal_occurrences.specs.PreparedOverlapping.{overlapping_value};
ghost use Rattle.literal_pieces.specs.OverlappingStream.{BeginsStream, EndsAfterAll, FailsAfterAll, GivesInStream};
ghost use Rattle.literal_pieces.specs.OverlappingStream.{GoesToEnd, ScansOnce};
ghost use Rattle.literal_pieces.specs.Stream.{ReadsOn};
ghost use Rattle.literal_pieces.specs.Inside.OverlappingStream.{HasCome, IsSoundPlace, overlapping_stream};
ghost use Rattle.literal_pieces.specs.Inside.Stream.{IsOpen, IsSoundStream, held};

use crate::reading::Reading;
use crate::window::Window;
use literal_base::count::Tally;
use literal_base::{Match, Span};
use literal_occurrences::automaton::{Automaton, State};
use std::alloc::{AllocError, Global};
use std::io::{self, Read};
use std::marker::Model;

/// An iterator over every occurrence in the text that a reader gives.
pub fn begin<'s, R: Read + Drop>(
    automaton: Automaton<'s>,
    alloc: Global,
    reader: R,
) -> Result<OverlappingStreamMatches<'s, R>, AllocError>
    ensures { IfOk result (BeginsStream (overlapping_value automaton.entry) (R.remaining reader)) }
{
    let window = Window::new(alloc, 0)?;
    let place = Place::at(&automaton, automaton.start_state());
    Ok(OverlappingStreamMatches {
        automaton,
        reader,
        reading: Reading::new(),
        window,
        place,
        is_over: false,
    })
}

/// The position of a search after the bytes that it has looked up.
#[derive(Clone, Copy, Drop)]
pub struct Place<'s> {
    state: State,
    /// The numbers of the patterns that end there, in ascending order.
    ending: &'s [u32],
    /// How many of these were given.
    given: usize,
}

impl<'s> Place<'s> {
    /// Before all occurrences that end where the automaton is in this state.
    fn at(automaton: &Automaton<'s>, state: State) -> Place<'s>
        ensures state { result.state ≡ state }
        ensures given { result.given ≡ 0 }
        ensures sound { (text : List ℕ) → IsStateAfter automaton.now text state
            → IsSoundPlace automaton.now (length text) result }
    {
        Place {
            state,
            ending: automaton.matches(state),
            given: 0,
        }
    }
}

/// The iterator of `Overlapping::find_overlapping_stream`. Contracts see the automaton, its state, the offset up to
/// which bytes were looked up, the pattern number from which occurrences that end there are still to come, the bytes
/// ahead that were read, the bytes still to be read if they are known, the kind of the error if reading failed, and
/// whether the iterator has ended. After its first `None` or error it is past all bytes read, always answers `None`,
/// and stays unchanged.
#[derive(Drop)]
pub struct OverlappingStreamMatches<'s, R: Read + Drop> {
    automaton: Automaton<'s>,
    reader: R,
    reading: Reading,
    window: Window,
    place: Place<'s>,
    is_over: bool,
}

impl<'s, R: Read + Drop> Model for OverlappingStreamMatches<'s, R> {
    ghost use Rattle.std.specs.Prelude.{◌≡◌, false};
    ghost use Rattle.literal_pieces.specs.OverlappingStream.{OverlappingStreamValue};
    ghost use Rattle.literal_pieces.specs.Stream.{ReadsOn};
    ghost use Rattle.literal_pieces.specs.Inside.OverlappingStream.{IsSoundPlace, overlapping_stream};
    ghost use Rattle.literal_pieces.specs.Inside.Stream.{IsSoundStream};

    ghost Value = { OverlappingStreamValue };

    ghost view = { λ m. overlapping_stream m.automaton m.place m.window m.reading (R.remaining m.reader) m.is_over };

    ghost invariant = { λ m. m.is_over ≡ false → IsSoundStream 0 m.window m.reading (R.remaining m.reader)
        × IsSoundPlace m.automaton m.window.offset m.place };
}

impl<'s, R: Read + Drop> OverlappingStreamMatches<'s, R> {
    /// Like `next`, and counts each looked-up byte in the tally, as scanned. It looks up each byte of the text once.
    pub fn next_counted(&mut self, tally: &mut Tally) -> Option<io::Result<Match>>
        ensures gives { GivesInStream self.old result self.new }
        ensures counted { ScansOnce self.old.offset self.new.offset tally.old tally.new }
    {
        if self.is_over {
            return None;
        }
        let next = next_occurrence(
            &self.automaton,
            &mut self.place,
            &mut self.window,
            &mut self.reader,
            &mut self.reading,
            tally,
        );
        self.is_over = !matches!(next, Ok(Some(_)));
        next.transpose()
    }
}

impl<'s, R: Read + Drop> Iterator for OverlappingStreamMatches<'s, R> {
    ghost use Rattle.literal_pieces.specs.OverlappingStream.{GivesInStream, most_in_stream};

    type Item = io::Result<Match>;

    ghost next_gives = { GivesInStream };

    ghost remaining = { most_in_stream };

    /// An error comes only after every occurrence that ends in the bytes read. It is the error of the reader, or
    /// [`io::ErrorKind::FileTooLarge`] if a `usize` cannot count more of the text.
    fn next(&mut self) -> Option<io::Result<Match>> {
        self.next_counted(&mut Tally::new())
    }
}

/// The next occurrence, by its offsets in the text. If none ends in the bytes read and reading failed, the answer is
/// that error.
fn next_occurrence<'s, R: Read>(
    automaton: &Automaton<'s>,
    place: &mut Place<'s>,
    window: &mut Window,
    reader: &mut R,
    reading: &mut Reading,
    tally: &mut Tally,
) -> io::Result<Option<Match>>
    requires stream { IsSoundStream 0 window.old reading.old (R.remaining reader.old) }
    requires place { IsSoundPlace automaton.now window.old.offset place.old }
    ensures sound { IfOk result (λ answer. IfSome answer (λ _. IsSoundStream 0 window.new reading.new
        (R.remaining reader.new) × IsSoundPlace automaton.now window.new.offset place.new)) }
    ensures gives { MatchResult result (λ answer. MatchOption answer
        (EndsAfterAll (overlapping_stream automaton.now place.old window.old reading.old (R.remaining reader.old) false)
        (overlapping_stream automaton.now place.new window.new reading.new (R.remaining reader.new) true))
        (λ found. GoesToEnd
        (overlapping_stream automaton.now place.old window.old reading.old (R.remaining reader.old) false) found
        (overlapping_stream automaton.now place.new window.new reading.new (R.remaining reader.new) false)))
        (λ error. FailsAfterAll
        (overlapping_stream automaton.now place.old window.old reading.old (R.remaining reader.old) false) error
        (overlapping_stream automaton.now place.new window.new reading.new (R.remaining reader.new) true)) }
    ensures counted { ScansOnce window.old.offset window.new.offset tally.old tally.new }
{
    loop {
        if let Some(found) = next_ending(automaton, place, window.offset) {
            return Ok(Some(found));
        }
        if !go_on(automaton, place, window, reader, reading, tally) {
            return match reading.take_error() {
                Some(error) => Err(error),
                None => Ok(None),
            };
        }
    }
}

/// The next of the occurrences that end at a place.
fn next_ending<'s>(automaton: &Automaton<'s>, place: &mut Place<'s>, end: usize) -> Option<Match>
    requires { IsSoundPlace automaton.now end place.old }
    ensures sound { IsSoundPlace automaton.now end place.new }
    ensures same { (place.new.state ≡ place.old.state) × (place.new.ending ≡ place.old.ending) }
    ensures found { MatchOption result
        ((place.new.given ≡ place.old.given) × (place.old.given ≡ length place.old.ending.now))
        (λ found. (place.new.given ≡ place.old.given + 1) × (place.old.given < length place.old.ending.now)
        × (found.pattern ≡ slice_index place.old.ending.now place.old.given) × (found.end ≡ end)
        × (found.start + length (pattern_at automaton.now.patterns found.pattern) ≡ end)) }
{
    let pattern = *place.ending.get(place.given)? as usize;
    place.given += 1;
    let start = end - automaton.pattern_len(pattern);
    Some(Match::must(pattern, Span { start, end }))
}

/// Goes on to the next end of an occurrence in the held bytes, or past all of them. If none are held, it reads before.
/// Returns false if nothing is held and nothing can be read.
fn go_on<'s, R: Read>(
    automaton: &Automaton<'s>,
    place: &mut Place<'s>,
    window: &mut Window,
    reader: &mut R,
    reading: &mut Reading,
    tally: &mut Tally,
) -> bool
    requires stream { IsSoundStream 0 window.old reading.old (R.remaining reader.old) }
    requires place { IsSoundPlace automaton.now window.old.offset place.old }
    requires all_given { place.old.given ≡ length place.old.ending.now }
    ensures stream { IsSoundStream 0 window.new reading.new (R.remaining reader.new) }
    ensures place { IsSoundPlace automaton.now window.new.offset place.new }
    ensures come { HasCome
        (overlapping_stream automaton.now place.old window.old reading.old (R.remaining reader.old) false)
        (overlapping_stream automaton.now place.new window.new reading.new (R.remaining reader.new) false) }
    ensures further { result ≡ true → window.old.offset < window.new.offset }
    ensures over { result ≡ false → (held window.new ≡ []) × ¬ IsOpen reading.new
        × (place.new.given ≡ length place.new.ending.now) }
    ensures counted { ScansOnce window.old.offset window.new.offset tally.old tally.new }
{
    hold_some(window, reader, reading);
    if window.held().is_empty() {
        return false;
    }
    let (state, count) = walk(automaton, place.state, window.held(), tally);
    *place = Place::at(automaton, state);
    window.pass(count);
    true
}

/// Reads if no bytes are held. Then some are, unless nothing can be read.
fn hold_some<R: Read>(window: &mut Window, reader: &mut R, reading: &mut Reading)
    requires { IsSoundStream 0 window.old reading.old (R.remaining reader.old) }
    ensures stream { IsSoundStream 0 window.new reading.new (R.remaining reader.new) }
    ensures offset { window.new.offset ≡ window.old.offset }
    ensures read { (piece : List ℕ) × ReadsOn (R.remaining reader.old) reading.old.failure piece
        (R.remaining reader.new) reading.new.failure × (held window.new ≡ held window.old ++ piece)
        × ((piece ≡ []) ⊎ (held window.old ≡ [])) }
    ensures some { held window.new ≡ [] → ¬ IsOpen reading.new }
{
    if window.held().is_empty() {
        window.fill(reader, reading, 1);
    }
}

/// Walks from a state to the first end of an occurrence in some bytes, or to their end. Returns the state there, and
/// the number of bytes up to there.
fn walk(automaton: &Automaton, from: State, haystack: &[u8], tally: &mut Tally) -> (State, usize)
    requires some { 0 < length haystack.now }
    requires after { (text : List ℕ) × IsStateAfter automaton.now text from }
    ensures further { 0 < result.1 }
    ensures within { result.1 ≤ length haystack.now }
    ensures leads { (text : List ℕ) → IsStateAfter automaton.now text from
        → IsStateAfter automaton.now (text ++ take result.1 haystack.now) result.0 }
    ensures none_before { (text : List ℕ) → IsStateAfter automaton.now text from → (k : ℕ) → 0 < k → k < result.1
        → (i : ℕ) → ¬ EndsText automaton.now (text ++ take k haystack.now) i }
    ensures counted { ScansOnce 0 result.1 tally.old tally.new }
{
    let mut state = from;
    for at in 0..haystack.len() {
        state = automaton.next_at(state, haystack, at, tally);
        if automaton.is_match(state) {
            return (state, at + 1);
        }
    }
    (state, haystack.len())
}
