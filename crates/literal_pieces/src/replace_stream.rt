//! Replaces each match in a text that is read in pieces, and writes the result as far as it is known.
ghost use Rattle.std.specs.Prelude.{◌≡◌, [], Err, IfErr, MatchResult, None, Ok, OnOk, length, map};
ghost use Rattle.std.specs.Io.KnownBytes.{Appends};
ghost use Rattle.literal_base.specs.Occurs.{pattern_at};
ghost use Rattle.literal_pieces.specs.Replaced.{ReplacesAll, StopsReplacing};
ghost use Rattle.literal_pieces.specs.ReplacedStream.{RewritesAllOf};
ghost use Rattle.literal_pieces.specs.ReplacedStream.{StopsRewritingOf};
ghost use Rattle.literal_pieces.specs.declared.replace_stream.ReplaceStreamError.TheVariants.{WriteFailed};
ghost use Rattle.literal_pieces.specs.Inside.Rewriting.{IsOfFailure, MayBeOfFailure};
ghost use Rattle.literal_pieces.specs.Inside.Sought.{AreMatches, reach_of, search_of};
ghost use Rattle.literal_pieces.specs.Inside.Stream.{IsSoundStream, held};

use crate::reading::Reading;
use crate::sought::{BlockSearch, Seeks, Sought};
use crate::stream::next_known;
use crate::window::Window;
use literal_base::Match;
use literal_base::count::Tally;
use literal_leftmost::so_far::SoFar;
use std::alloc::{AllocError, Global};
use std::error::Error;
use std::fmt;
use std::io::{self, ErrorKind, Read, Write};

/// Why a text was not read to its end and written with its matches replaced.
#[derive(Debug, Drop)]
pub enum ReplaceStreamError {
    /// The number of replacements is not the number of patterns. Nothing was read or written.
    NotOneForEach,
    /// Memory was refused. Nothing was read or written.
    OutOfMemory,
    /// The reader failed, or a `usize` cannot count more of the text ([`io::ErrorKind::FileTooLarge`]).
    ReadFailed(io::Error),
    /// The writer failed, or accepted no more bytes, or a function that replaces a match failed.
    WriteFailed(io::Error),
}

/// A short message.
impl fmt::Display for ReplaceStreamError {
    ghost use Rattle.std.specs.Prelude.{Some};
    ghost use Rattle.literal_pieces.specs.ErrorText.{replace_stream_error_text};

    ghost output = { λ error. Some (replace_stream_error_text error) };

    fn fmt<W: fmt::Write>(&self, f: &mut fmt::Formatter<W>) -> fmt::Result {
        match self {
            ReplaceStreamError::NotOneForEach => write!(
                f,
                "there is not one replacement for each pattern"
            ),
            ReplaceStreamError::OutOfMemory => write!(f, "out of memory"),
            ReplaceStreamError::ReadFailed(_) => write!(f, "the text could not be read"),
            ReplaceStreamError::WriteFailed(_) => write!(f, "the text could not be written"),
        }
    }
}

impl Error for ReplaceStreamError {}

/// [`ReplaceStreamError::OutOfMemory`].
impl From<AllocError> for ReplaceStreamError {
    ghost use Rattle.std.specs.Prelude.{◌≡◌};
    ghost use Rattle.literal_pieces.specs.declared.replace_stream.ReplaceStreamError.TheVariants.{OutOfMemory};

    ghost from_gives = { λ _ error. error ≡ OutOfMemory };

    fn from(_: AllocError) -> ReplaceStreamError {
        ReplaceStreamError::OutOfMemory
    }
}

/// Writes a text with each match replaced by the replacement of its pattern. It tells the progress of reading, and the
/// kind of the error if writing fails.
pub fn replace_each<S: Seeks, R: Read, W: Write>(
    sought: &Sought<'_, S>,
    alloc: Global,
    reader: &mut R,
    reading: &mut Reading,
    writer: &mut W,
    failure: &mut Option<ErrorKind>,
    replacements: &[&[u8]],
    tally: &mut Tally,
) -> Result<(), ReplaceStreamError>
    ensures ok { OnOk result (ReplacesAll (AreMatches sought.now) (length (search_of sought.now).query.patterns)
        (reach_of sought.now) (map (λ r. r.now) replacements.now) (R.remaining reader.old) (R.remaining reader.new)
        (W.contents writer.old) (W.contents writer.new)) }
    ensures error { IfErr result (StopsReplacing (AreMatches sought.now)
        (length (search_of sought.now).query.patterns) (reach_of sought.now) (map (λ r. r.now) replacements.now)
        (R.remaining reader.old) (R.remaining reader.new) (W.contents writer.old) (W.contents writer.new)) }
    ensures cause { IfErr result (MayBeOfFailure reading.new.failure failure.new) }
{
    if replacements.len() != sought.patterns_len() {
        return Err(ReplaceStreamError::NotOneForEach);
    }
    replace_with(
        sought,
        alloc,
        reader,
        reading,
        writer,
        failure,
        |found: Match, _bytes: &[u8], writer: &mut W| put_replacement(replacements, found, writer),
        tally,
    )
}

/// Writes a text with each match replaced by what a function writes for it. It tells the progress of reading, and the
/// kind of the error if writing fails.
pub fn replace_with<S: Seeks, R: Read, W: Write, F: FnMut(Match, &[u8], &mut W) -> io::Result<()>>(
    sought: &Sought<'_, S>,
    alloc: Global,
    reader: &mut R,
    reading: &mut Reading,
    writer: &mut W,
    failure: &mut Option<ErrorKind>,
    replace: F,
    tally: &mut Tally,
) -> Result<(), ReplaceStreamError>
    requires { F.IsAlwaysCallable replace }
    ensures ok { OnOk result (RewritesAllOf W.contents F.step (AreMatches sought.now) (reach_of sought.now) replace
        (R.remaining reader.old) (R.remaining reader.new) (W.contents writer.old) (W.contents writer.new)) }
    ensures error { IfErr result (StopsRewritingOf W.contents F.step (AreMatches sought.now)
        (reach_of sought.now) replace (R.remaining reader.old) (R.remaining reader.new) (W.contents writer.old)
        (W.contents writer.new)) }
    ensures cause { IfErr result (MayBeOfFailure reading.new.failure failure.new) }
{
    let mut window = Window::new(alloc, sought.reach().saturating_mul(2))?;
    *reading = Reading::new();
    *failure = None;
    rewrite(
        sought,
        &mut window,
        reader,
        reading,
        writer,
        failure,
        replace,
        tally,
    )
}

/// Writes the replacement of a match, or nothing if there is none.
fn put_replacement<W: Write>(replacements: &[&[u8]], found: Match, writer: &mut W) -> io::Result<()>
    ensures { OnOk result (Appends (W.contents writer.old) (W.contents writer.new)
        (pattern_at (map (λ r. r.now) replacements.now) found.pattern)) }
{
    match replacements.get(found.pattern().as_usize()) {
        Some(replacement) => writer.write_all(replacement),
        None => Ok(()),
    }
}

/// Reads a text through an empty window, and writes it with its matches replaced. If writing fails, `failure` is the
/// kind of the error.
fn rewrite<S: Seeks, R: Read, W: Write, F: FnMut(Match, &[u8], &mut W) -> io::Result<()>>(
    sought: &Sought<'_, S>,
    window: &mut Window,
    reader: &mut R,
    reading: &mut Reading,
    writer: &mut W,
    failure: &mut Option<ErrorKind>,
    mut replace: F,
    tally: &mut Tally,
) -> Result<(), ReplaceStreamError>
    requires sound { IsSoundStream (reach_of sought.now) window.old reading.old (R.remaining reader.old) }
    requires empty { held window.old ≡ [] }
    requires first { window.old.offset ≡ 0 }
    requires callable { F.IsAlwaysCallable replace }
    ensures ok { OnOk result (RewritesAllOf W.contents F.step (AreMatches sought.now) (reach_of sought.now) replace
        (R.remaining reader.old) (R.remaining reader.new) (W.contents writer.old) (W.contents writer.new)) }
    ensures error { IfErr result (StopsRewritingOf W.contents F.step (AreMatches sought.now)
        (reach_of sought.now) replace (R.remaining reader.old) (R.remaining reader.new) (W.contents writer.old)
        (W.contents writer.new)) }
    ensures cause { IfErr result (IsOfFailure reading.new.failure failure.new) }
{
    let (mut at, mut is_over) = (0, false);
    let mut ahead = BlockSearch::new(sought);
    while !is_over {
        let to = match next_known(sought, window, at, &mut ahead, reader, reading, tally) {
            SoFar::Found(found) => {
                put(window.between(at, found.start()), writer, failure)?;
                let bytes = window.between(found.start(), found.end());
                let answer = replace(found, bytes, writer);
                after_write(answer, failure)?;
                found.end()
            }
            SoFar::NoneBefore(offset) => {
                put(window.between(at, offset), writer, failure)?;
                offset
            }
        };
        window.hold_from(to, sought.margin());
        is_over = to == at;
        at = to;
    }
    match reading.take_error() {
        Some(error) => Err(ReplaceStreamError::ReadFailed(error)),
        None => Ok(()),
    }
}

/// Writes bytes.
fn put<W: Write>(
    bytes: &[u8],
    writer: &mut W,
    failure: &mut Option<ErrorKind>,
) -> Result<(), ReplaceStreamError>
    ensures written { OnOk result (Appends (W.contents writer.old) (W.contents writer.new) bytes.now) }
    ensures error { IfErr result (IsOfFailure None failure.new) }
{
    let answer = writer.write_all(bytes);
    after_write(answer, failure)
}

/// The answer after a write with this result.
fn after_write(
    answer: io::Result<()>,
    failure: &mut Option<ErrorKind>,
) -> Result<(), ReplaceStreamError>
    ensures told { MatchResult answer (λ done. result ≡ Ok done) (λ error. result ≡ Err (WriteFailed error)) }
    ensures error { IfErr result (IsOfFailure None failure.new) }
{
    match answer {
        Ok(()) => Ok(()),
        Err(error) => {
            *failure = Some(error.kind());
            Err(ReplaceStreamError::WriteFailed(error))
        }
    }
}
