//! Whole words in texts that are read in pieces.
ghost use Rattle.std.specs.Prelude.{◌≡◌, IfOk};
ghost use Rattle.literal_search.specs.Stream.{GivesWordStreamed, ScansWordsStreamed, word_stream_of};

use crate::WholeWords;
use literal_base::Match;
use literal_base::count::Tally;
use literal_pieces::sought::Sought;
use literal_pieces::stream::Stream;
use std::alloc::{AllocError, Global};
use std::io::{self, Read};
use std::marker::Model;

impl WholeWords {
    /// Returns an iterator over all whole words in the text that a reader gives. They are those of
    /// [`WholeWords::find_iter`] in the whole text, with offsets in the whole text, whatever pieces it comes in. The
    /// buffer has at most three bytes more than that of [`Search::find_stream`](crate::Search::find_stream). A word is
    /// given once twice the longest pattern's length and at most two bytes more are read from where the search
    /// continues, or the text has ended. If reading fails, all words that are known from the bytes read come before the
    /// error: all but those that begin in the last bytes read, no more than the longest pattern has.
    ///
    /// ```rust
    /// let words = [b"new york".as_slice(), b"york"];
    /// let set = WholeWords::ascii_word_bytes();
    /// let search = WholeWords::new(alloc, MatchKind::LeftmostFirst, true, set, words)?;
    /// let mut matches = search.find_stream(alloc, b"Yorkers, York".as_slice())?;
    /// let found = matches.next().ok_or("nothing is found")??;
    /// assert!(rt; found.pattern().as_usize() == 1 && found.range() == (9..13));
    /// ```
    pub fn find_stream<R: Read + Drop>(
        &self,
        alloc: Global,
        reader: R,
    ) -> Result<WholeWordStreamMatches<'_, R>, AllocError>
        ensures { IfOk result (λ m. m ≡ word_stream_of self.now (R.remaining reader)) }
    {
        let stream = Stream::new(alloc, &Sought::by(self), reader)?;
        Ok(WholeWordStreamMatches {
            words: self,
            stream,
        })
    }
}

/// The iterator of [`WholeWords::find_stream`]. Contracts see what they see of a
/// [`StreamMatches`](crate::StreamMatches), and the word bytes. After its first `None` or error it is past all bytes
/// read, always answers `None`, and stays unchanged.
#[derive(Drop)]
pub struct WholeWordStreamMatches<'s, R: Read + Drop> {
    words: &'s WholeWords,
    stream: Stream<'s, R>,
}

impl<'s, R: Read + Drop> Model for WholeWordStreamMatches<'s, R> {
    ghost use Rattle.literal_search.specs.Stream.{WordStreamValue};
    ghost use Rattle.literal_pieces.specs.Inside.Sought.{by_words};
    ghost use Rattle.literal_pieces.specs.Inside.Stream.{GoesOn, stream_value};

    ghost Value = { WordStreamValue };

    ghost view = { λ m. record {
      stream = stream_value (by_words m.words.now) m.stream.window m.stream.at m.stream.ahead m.stream.reading
          (R.remaining m.stream.reader) m.stream.is_over;
      word_bytes = m.words.now.word_bytes;
    } };

    ghost invariant = { λ m. GoesOn (by_words m.words.now) m.stream.window m.stream.at m.stream.ahead
        m.stream.reading (R.remaining m.stream.reader) m.stream.is_over };
}

impl<'s, R: Read + Drop> WholeWordStreamMatches<'s, R> {
    /// Like `next`, and counts each looked-up byte in the tally, as scanned. In all these are at most those of
    /// [`StreamMatches::next_counted`](crate::StreamMatches::next_counted), and twice n + 1 for each byte that was
    /// read, with n the longest pattern's length.
    pub fn next_counted(&mut self, tally: &mut Tally) -> Option<io::Result<Match>>
        ensures gives { GivesWordStreamed self.old result self.new }
        ensures scans { ScansWordsStreamed self.old self.new tally.old tally.new }
    {
        self.stream.next(&Sought::by(self.words), tally)
    }
}

impl<'s, R: Read + Drop> Iterator for WholeWordStreamMatches<'s, R> {
    ghost use Rattle.literal_search.specs.Stream.{GivesWordStreamed, most_words_streamed};

    type Item = io::Result<Match>;

    ghost next_gives = { GivesWordStreamed };

    ghost remaining = { most_words_streamed };

    /// An error comes only after every whole word that is known from the bytes read. It is the error of the reader, or
    /// [`io::ErrorKind::FileTooLarge`] if a `usize` cannot count more of the text.
    fn next(&mut self) -> Option<io::Result<Match>> {
        self.next_counted(&mut Tally::new())
    }
}
