//! Replaces each match in a text that is read in pieces, and writes the result as far as it is known.
ghost use Rattle.std.specs.Prelude.{IfErr, OnOk, map};
ghost use Rattle.literal_search.specs.Replaced.{RewritesAll, RewritesWords, StopsRewriting, StopsRewritingWords};
ghost use Rattle.literal_search.specs.ReplacedStream.{RewritesAllBy, RewritesWordsBy, StopsRewritingBy};
ghost use Rattle.literal_search.specs.ReplacedStream.{StopsRewritingWordsBy};

use crate::{Match, Search, WholeWords};
use literal_base::count::Tally;
use literal_pieces::reading::Reading;
use literal_pieces::replace_stream::{ReplaceStreamError, replace_each, replace_with};
use literal_pieces::sought::Sought;
use std::alloc::Global;
use std::io::{self, Read, Write};

impl Search {
    /// Reads a text to its end, and writes it with each match replaced by the replacement of its pattern. It writes
    /// what [`Search::replace_all`] returns for the whole text, whatever pieces it comes in. There has to be one
    /// replacement for each pattern, in the order of their numbers. The buffer has twice the longest pattern's length,
    /// plus 64 KiB or that length, whichever is more. The writer is not flushed.
    ///
    /// If reading fails, the part of the result that is known is written before the error is returned. It covers the
    /// bytes that were read, except at most the last ones, fewer than the longest pattern has. The result for the whole
    /// text begins with this part, whatever follows. If a write fails, it is not known how many of its bytes were
    /// written.
    ///
    /// ```rust
    /// let words = [b"apple".as_slice(), b"maple"];
    /// let search = Search::new(alloc, MatchKind::LeftmostFirst, true, words)?;
    /// let (mut text, mut written) = (b"Maple or apple?".as_slice(), Vec::new(alloc));
    /// search.replace_stream(alloc, &mut text, &mut written, &[b"pear", b"oak"])?;
    /// assert!(rt; written.as_slice() == b"oak or pear?".as_slice());
    /// ```
    pub fn replace_stream<R: Read, W: Write>(
        &self,
        alloc: Global,
        reader: &mut R,
        writer: &mut W,
        replacements: &[&[u8]],
    ) -> Result<(), ReplaceStreamError>
        ensures ok { OnOk result (RewritesAll self.now (map (λ r. r.now) replacements.now)
            (R.remaining reader.old) (R.remaining reader.new) (W.contents writer.old) (W.contents writer.new)) }
        ensures error { IfErr result (StopsRewriting self.now (map (λ r. r.now) replacements.now)
            (R.remaining reader.old) (R.remaining reader.new) (W.contents writer.old) (W.contents writer.new)) }
    {
        let (reading, failure) = (&mut Reading::new(), &mut None);
        replace_each(
            &Sought::by(self),
            alloc,
            reader,
            reading,
            writer,
            failure,
            replacements,
            &mut Tally::new(),
        )
    }

    /// Reads a text to its end, and writes it with each match replaced by what a function writes for it. The function
    /// is called for one match after another, with the match, its bytes, and the writer, which holds all that was
    /// written so far. It has to accept any such arguments. The matches are those of [`Search::find_iter`] in the whole
    /// text, with offsets in the whole text, whatever pieces it comes in. Errors come as in
    /// [`Search::replace_stream`], and an error of the function is [`ReplaceStreamError::WriteFailed`].
    ///
    /// ```rust
    /// let search = Search::builder().build(alloc, [b"apple".as_slice(), b"maple"])?;
    /// let (mut text, mut written) = (b"apple, maple".as_slice(), Vec::new(alloc));
    /// search.replace_stream_with(alloc, &mut text, &mut written, |_, bytes, writer| {
    ///     writer.write_all(b"<")?;
    ///     writer.write_all(bytes)?;
    ///     writer.write_all(b">")
    /// })?;
    /// assert!(rt; written.as_slice() == b"<apple>, <maple>".as_slice());
    /// ```
    pub fn replace_stream_with<R: Read, W: Write, F: FnMut(Match, &[u8], &mut W) -> io::Result<()>>(
        &self,
        alloc: Global,
        reader: &mut R,
        writer: &mut W,
        replace: F,
    ) -> Result<(), ReplaceStreamError>
        requires { F.IsAlwaysCallable replace }
        ensures ok { OnOk result (RewritesAllBy W.contents F.step self.now replace (R.remaining reader.old)
            (R.remaining reader.new) (W.contents writer.old) (W.contents writer.new)) }
        ensures error { IfErr result (StopsRewritingBy W.contents F.step self.now replace (R.remaining reader.old)
            (R.remaining reader.new) (W.contents writer.old) (W.contents writer.new)) }
    {
        let (reading, failure) = (&mut Reading::new(), &mut None);
        replace_with(
            &Sought::by(self),
            alloc,
            reader,
            reading,
            writer,
            failure,
            replace,
            &mut Tally::new(),
        )
    }
}

impl WholeWords {
    /// Reads a text to its end, and writes it with each whole word replaced by the replacement of its pattern. It
    /// writes what [`WholeWords::replace_all`] returns for the whole text, whatever pieces it comes in. There has to be
    /// one replacement for each pattern, in the order of their numbers. The buffer is that of
    /// [`WholeWords::find_stream`]. The writer is not flushed.
    ///
    /// If reading fails, the part of the result that is known is written before the error is returned. It covers the
    /// bytes that were read, except at most the last ones, no more than the longest pattern has. The result for the
    /// whole text begins with this part, whatever follows. If a write fails, it is not known how many of its bytes were
    /// written.
    ///
    /// ```rust
    /// let words = [b"apple".as_slice(), b"maple"];
    /// let set = WholeWords::ascii_word_bytes();
    /// let search = WholeWords::new(alloc, MatchKind::LeftmostFirst, true, set, words)?;
    /// let (mut text, mut written) = (b"Maple or apples?".as_slice(), Vec::new(alloc));
    /// search.replace_stream(alloc, &mut text, &mut written, &[b"pear", b"oak"])?;
    /// assert!(rt; written.as_slice() == b"oak or apples?".as_slice());
    /// ```
    pub fn replace_stream<R: Read, W: Write>(
        &self,
        alloc: Global,
        reader: &mut R,
        writer: &mut W,
        replacements: &[&[u8]],
    ) -> Result<(), ReplaceStreamError>
        ensures ok { OnOk result (RewritesWords self.now (map (λ r. r.now) replacements.now)
            (R.remaining reader.old) (R.remaining reader.new) (W.contents writer.old) (W.contents writer.new)) }
        ensures error { IfErr result (StopsRewritingWords self.now (map (λ r. r.now) replacements.now)
            (R.remaining reader.old) (R.remaining reader.new) (W.contents writer.old) (W.contents writer.new)) }
    {
        let (reading, failure) = (&mut Reading::new(), &mut None);
        replace_each(
            &Sought::by(self),
            alloc,
            reader,
            reading,
            writer,
            failure,
            replacements,
            &mut Tally::new(),
        )
    }

    /// Reads a text to its end, and writes it with each whole word replaced by what a function writes for it, called as
    /// in [`Search::replace_stream_with`]. The words are those of [`WholeWords::find_iter`] in the whole text, with
    /// offsets in the whole text, whatever pieces it comes in. Errors come as in [`WholeWords::replace_stream`], and an
    /// error of the function is [`ReplaceStreamError::WriteFailed`].
    pub fn replace_stream_with<R: Read, W: Write, F: FnMut(Match, &[u8], &mut W) -> io::Result<()>>(
        &self,
        alloc: Global,
        reader: &mut R,
        writer: &mut W,
        replace: F,
    ) -> Result<(), ReplaceStreamError>
        requires { F.IsAlwaysCallable replace }
        ensures ok { OnOk result (RewritesWordsBy W.contents F.step self.now replace (R.remaining reader.old)
            (R.remaining reader.new) (W.contents writer.old) (W.contents writer.new)) }
        ensures error { IfErr result (StopsRewritingWordsBy W.contents F.step self.now replace
            (R.remaining reader.old) (R.remaining reader.new) (W.contents writer.old) (W.contents writer.new)) }
    {
        let (reading, failure) = (&mut Reading::new(), &mut None);
        replace_with(
            &Sought::by(self),
            alloc,
            reader,
            reading,
            writer,
            failure,
            replace,
            &mut Tally::new(),
        )
    }
}
