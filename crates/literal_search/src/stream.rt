//! Searches in texts that may continue, and in texts that are read in pieces.
ghost use Rattle.std.specs.Prelude.{◌≡◌, ◌≤◌, ◌++◌, ℕ, List, length, IfOk};
ghost use Rattle.literal_search.specs.SearchValue.{longest_of};
ghost use Rattle.literal_search.specs.Stream.{AnswersSoFar, GivesStreamed, IsKnownSoFar, ScansSoFar, ScansStreamed};
ghost use Rattle.literal_search.specs.Stream.{stream_of};

use crate::{Search, SoFar};
use literal_base::count::Tally;
use literal_base::{Match, Span};
use literal_leftmost::so_far::so_far;
use literal_pieces::sought::Sought;
use literal_pieces::stream::Stream;
use std::alloc::{AllocError, Global};
use std::io::{self, Read};
use std::marker::Model;

impl Search {
    /// Returns what is known of the leftmost match from an offset on, where the haystack is the beginning of a text and
    /// anything may follow. A match is known once the longest pattern would fit between its start and the haystack's
    /// end. Otherwise it returns the first offset at which a match may still begin. From there to the end are one byte
    /// less than the longest pattern has, or all bytes from `at` on if these are fewer. The search continues there once
    /// more of the text is known, and no longer needs the bytes before. `at` has to be at most the haystack's length.
    pub fn find_so_far(&self, haystack: &[u8], at: usize) -> SoFar
        requires { at ≤ length haystack.now }
        ensures whatever_follows { (more : List ℕ)
            → AnswersSoFar self.now.query self.now.ignore_case (haystack.now ++ more) at result }
        ensures known { IsKnownSoFar self.now.query.patterns (length haystack.now) at result }
    {
        let end = haystack.len();
        let found = self.find_in(haystack, Span { start: at, end });
        so_far(haystack, at, self.max_pattern_len(), found)
    }

    /// Like [`Search::find_so_far`], and counts each looked-up byte in the tally, as scanned. These are at least the
    /// bytes from `at` up to the match's end, or up to the returned offset. They are at most three times the bytes from
    /// `at` on, and with a match also at most what [`Search::find_in_counted`] may look up.
    pub fn find_so_far_counted(&self, haystack: &[u8], at: usize, tally: &mut Tally) -> SoFar
        requires { at ≤ length haystack.now }
        ensures whatever_follows { (more : List ℕ)
            → AnswersSoFar self.now.query self.now.ignore_case (haystack.now ++ more) at result }
        ensures known { IsKnownSoFar self.now.query.patterns (length haystack.now) at result }
        ensures bounded { ScansSoFar (longest_of self.now.query.patterns) (length haystack.now) at result tally.old
            tally.new }
    {
        let end = haystack.len();
        let found = self.find_in_counted(haystack, Span { start: at, end }, tally);
        so_far(haystack, at, self.max_pattern_len(), found)
    }

    /// Returns an iterator over all matches in the text that a reader gives. They are those of [`Search::find_iter`] in
    /// the whole text, with offsets in the whole text, whatever pieces it comes in. The buffer has twice the longest
    /// pattern's length, plus 64 KiB or that length, whichever is more. A match is given once twice the longest
    /// pattern's length is read from where the search continues, or the text has ended. If reading fails, all matches
    /// that are known from the bytes read come before the error. An interrupted read is an error too.
    ///
    /// ```rust
    /// let words = [b"password".as_slice(), b"secret"];
    /// let search = Search::new(alloc, MatchKind::LeftmostFirst, true, words)?;
    /// let mut matches = search.find_stream(alloc, b"My Secret.".as_slice())?;
    /// let found = matches.next().ok_or("nothing is found")??;
    /// assert!(rt; found.pattern().as_usize() == 1 && found.range() == (3..9));
    /// ```
    pub fn find_stream<R: Read + Drop>(
        &self,
        alloc: Global,
        reader: R,
    ) -> Result<StreamMatches<'_, R>, AllocError>
        ensures { IfOk result (λ m. m ≡ stream_of self.now (R.remaining reader)) }
    {
        let stream = Stream::new(alloc, &Sought::by(self), reader)?;
        Ok(StreamMatches {
            search: self,
            stream,
        })
    }
}

/// The iterator of [`Search::find_stream`]. Contracts see the search, the bytes ahead that were read, the bytes still
/// to be read if they are known, the offset at which the bytes ahead begin, the kind of the error if reading failed,
/// whether the iterator has ended, and an upper bound on the bytes that it has looked up. After its first `None` or
/// error it is past all bytes read, always answers `None`, and stays unchanged.
#[derive(Drop)]
pub struct StreamMatches<'s, R: Read + Drop> {
    search: &'s Search,
    stream: Stream<'s, R>,
}

impl<'s, R: Read + Drop> Model for StreamMatches<'s, R> {
    ghost use Rattle.literal_search.specs.Stream.{StreamValue};
    ghost use Rattle.literal_pieces.specs.Inside.Sought.{by_matches};
    ghost use Rattle.literal_pieces.specs.Inside.Stream.{GoesOn, stream_value};

    ghost Value = { StreamValue };

    ghost view = { λ m. stream_value (by_matches m.search.now) m.stream.window m.stream.at m.stream.ahead
        m.stream.reading (R.remaining m.stream.reader) m.stream.is_over };

    ghost invariant = { λ m. GoesOn (by_matches m.search.now) m.stream.window m.stream.at m.stream.ahead
        m.stream.reading (R.remaining m.stream.reader) m.stream.is_over };
}

impl<'s, R: Read + Drop> StreamMatches<'s, R> {
    /// Like `next`, and counts each looked-up byte in the tally, as scanned. In all these are at most six times the
    /// bytes that were read, and two times more for each whole 262,000 bytes of the longest pattern, for any number of
    /// matches.
    pub fn next_counted(&mut self, tally: &mut Tally) -> Option<io::Result<Match>>
        ensures gives { GivesStreamed self.old result self.new }
        ensures scans { ScansStreamed self.old self.new tally.old tally.new }
    {
        self.stream.next(&Sought::by(self.search), tally)
    }
}

impl<'s, R: Read + Drop> Iterator for StreamMatches<'s, R> {
    ghost use Rattle.literal_search.specs.Stream.{GivesStreamed, most_streamed};

    type Item = io::Result<Match>;

    ghost next_gives = { GivesStreamed };

    ghost remaining = { most_streamed };

    /// An error comes only after every match that is known from the bytes read. It is the error of the reader, or
    /// [`io::ErrorKind::FileTooLarge`] if a `usize` cannot count more of the text.
    fn next(&mut self) -> Option<io::Result<Match>> {
        self.next_counted(&mut Tally::new())
    }
}
