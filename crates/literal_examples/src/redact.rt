//! Makes every match unreadable.
ghost use Rattle.std.specs.Prelude.{◌≡◌, ◌<◌, List, IfErr, IfOk, OnErr, OnOk, length, replicate};
ghost use Rattle.std.specs.Io.KnownBytes.{Appends};
ghost use Rattle.literal_base.specs.Greedy.{IsGreedy};
ghost use Rattle.literal_base.specs.MatchValue.{MatchValue};
ghost use Rattle.literal_examples.specs.Redacted.{Redacts, StopsRedacting, redacted};

use literal_search::{Match, ReplaceStreamError, Search};
use std::alloc::{AllocError, Global};
use std::io::{self, Read, Write};

/// The haystack with each byte of a match replaced by an asterisk, for the matches from the left that do not overlap.
/// Its length is unchanged. Memory is requested only if the haystack is not empty.
pub fn redact(alloc: Global, search: &Search, haystack: &[u8]) -> Result<Vec<u8>, AllocError>
    ensures redacted { IfOk result (λ text. (all : List MatchValue)
        × IsGreedy search.now.query search.now.ignore_case haystack.now 0 all
        × (text.items ≡ redacted haystack.now 0 all)) }
    ensures length { IfOk result (λ text. length text.items ≡ length haystack.now) }
    ensures no_memory { OnErr result (0 < length haystack.now) }
{
    let text = search.replace_all_with(
        alloc,
        haystack,
        |_, bytes, text| text.resize(text.len() + bytes.len(), b'*'),
    )?;
    Ok(text)
}

/// Like [`redact`], but it reads the text in pieces, and writes what is known of the result. Only a window of the text
/// is kept. Each asterisk is a write of its own, so the writer should be buffered.
pub fn redact_stream<R: Read, W: Write>(
    alloc: Global,
    search: &Search,
    reader: &mut R,
    writer: &mut W,
) -> Result<(), ReplaceStreamError>
    ensures written { OnOk result (Redacts search.now (R.remaining reader.old) (R.remaining reader.new)
        (W.contents writer.old) (W.contents writer.new)) }
    ensures error { IfErr result (StopsRedacting search.now (R.remaining reader.old) (R.remaining reader.new)
        (W.contents writer.old) (W.contents writer.new)) }
{
    search.replace_stream_with(
        alloc,
        reader,
        writer,
        |_found: Match, bytes: &[u8], writer: &mut W| write_asterisks(bytes.len(), writer),
    )
}

/// Writes so many asterisks.
fn write_asterisks<W: Write>(count: usize, writer: &mut W) -> io::Result<()>
    ensures { OnOk result (Appends (W.contents writer.old) (W.contents writer.new) (replicate count 42)) }
{
    for _star in 0..count {
        writer.write_all(b"*")?;
    }
    Ok(())
}
