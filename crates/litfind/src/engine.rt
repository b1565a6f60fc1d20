//! The engine: it reads the arguments and the whole input, and writes the whole output.
ghost use Rattle.std.specs.Prelude.{◌≡◌, ◌≢◌, ◌⊎◌, ◌↔◌, true, false, map, Some, None, IfOk, IfErr, OnOk, OnErr};
ghost use Rattle.std.specs.Prelude.{MatchOption, IfSome, IsErrOf, List, [], ℕ, ◌<◌, length, option_map, string_bytes};
ghost use Rattle.std.specs.Io.KnownBytes.{Appends};
ghost use Rattle.literal_base.specs.Occurs.{pattern_at};
ghost use Rattle.literal_packed.specs.BuilderValue.{searcher_of};
ghost use Rattle.litfind.specs.Lines.{AreMatchLines};
ghost use Rattle.litfind.specs.Inside.{ReadsLines, asked_of, searches_for};
ghost use Rattle.litfind.specs.Query.{AreUnbuildable, IsUnbuildable, all_matches, builder_for, leftmost_match};
ghost use Rattle.litfind.specs.Query.{mode_asks, words_ask};
ghost use Rattle.literal_prefilters.specs.ConfirmingValue.{confirming_of, prefilter_builder};
ghost use Rattle.litfind.specs.Run.{HasLine, IsFront, ReadsToEnd, ReadBytes, ReadSome, WroteFront, WroteLines};

use crate::device::{Failed, Sink, Source};
use crate::fault::Fault;
use crate::line::Line;
use literal_base::Span;
use literal_packed::{Config, MatchKind, Searcher};
use literal_prefilters::prefilter::ConfirmingSearch;
use std::alloc::{AllocError, Global};

/// The size of the read buffer, in bytes.
const BLOCK: usize = 65536;

/// The request of the arguments: how to search, and the patterns.
#[derive(Clone, Copy)]
struct Request<'w> {
    mode: Mode,
    patterns: &'w [String],
}

/// How to search, as the first argument says: for all matches of this kind, or with a confirming search for the
/// leftmost one.
#[derive(Clone, Copy)]
enum Mode {
    All(MatchKind),
    Leftmost { kind: MatchKind, ignore_case: bool },
}

/// The searcher of a mode, built from the patterns.
#[derive(Drop)]
enum ModeSearcher {
    All(Searcher),
    Leftmost(ConfirmingSearch),
}

/// The mode of this name, if there is one.
fn mode_of(name: &str) -> Option<Mode>
    ensures { (patterns : List (List ℕ)) → mode_asks name.now patterns ≡ option_map (asked_of patterns) result }
{
    let (kind, ignore_case) = match name {
        "first" => return Some(Mode::All(MatchKind::LeftmostFirst)),
        "longest" => return Some(Mode::All(MatchKind::LeftmostLongest)),
        "confirm-first" => (MatchKind::LeftmostFirst, false),
        "confirm-longest" => (MatchKind::LeftmostLongest, false),
        "nocase-first" => (MatchKind::LeftmostFirst, true),
        "nocase-longest" => (MatchKind::LeftmostLongest, true),
        _ => return None,
    };
    Some(Mode::Leftmost { kind, ignore_case })
}

/// The mode and the patterns, if the arguments are valid.
fn parse(words: &[String]) -> Option<Request<'_>>
    ensures { MatchOption result (words_ask (map string_bytes words.now) ≡ None)
        (λ request. words_ask (map string_bytes words.now)
        ≡ Some (asked_of (map string_bytes request.patterns.now) request.mode)) }
{
    let (mode, patterns) = words.split_first()?;
    if patterns.is_empty() {
        return None;
    }
    Some(Request {
        mode: mode_of(mode.as_str())?,
        patterns,
    })
}

/// A searcher for all matches of the patterns, if one can be built.
fn build(
    alloc: Global,
    kind: MatchKind,
    patterns: &[String],
) -> Result<Option<Searcher>, AllocError>
    ensures built { IfOk result (λ built. built ≡ searcher_of
        (builder_for (record { kind = kind; patterns = map string_bytes patterns.now }))) }
    ensures no_memory { OnErr result (0 < length (pattern_at (map string_bytes patterns.now) 0)) }
{
    let mut builder = Config::new().match_kind(kind).builder(alloc);
    for pattern in patterns {
        builder.add(pattern.as_bytes())?;
    }
    builder.build()
}

/// A confirming search for the patterns, if one can be built.
fn build_confirming(
    alloc: Global,
    kind: MatchKind,
    ignore_case: bool,
    patterns: &[String],
) -> Result<Option<ConfirmingSearch>, AllocError>
    ensures built { IfOk result (λ built. built ≡ confirming_of kind
        (prefilter_builder kind ignore_case (map string_bytes patterns.now))) }
    ensures for_these { IfOk result (λ built. IfSome built (λ search.
        (search.query ≡ record { kind = kind; patterns = map string_bytes patterns.now })
        × (search.ignore_case ≡ ignore_case))) }
    ensures no_memory { OnErr result (0 < length (pattern_at (map string_bytes patterns.now) 0)) }
{
    let bytes = patterns.iter().map(|pattern| pattern.as_bytes());
    ConfirmingSearch::build(alloc, kind, ignore_case, bytes)
}

/// The searcher of a request, if one can be built.
fn built(alloc: Global, request: &Request<'_>) -> Result<Option<ModeSearcher>, AllocError>
    ensures asked { IfOk result (λ built. IfSome built (λ searcher.
        searches_for searcher ≡ asked_of (map string_bytes request.now.patterns.now) request.now.mode)) }
    ensures none { IfOk result (λ built. built ≡ None
        ↔ IsUnbuildable (asked_of (map string_bytes request.now.patterns.now) request.now.mode)) }
    ensures no_memory { OnErr result (0 < length (pattern_at (map string_bytes request.now.patterns.now) 0)) }
{
    match request.mode {
        Mode::All(kind) => Ok(build(alloc, kind, request.patterns)?.map(ModeSearcher::All)),
        Mode::Leftmost { kind, ignore_case } => {
            let search = build_confirming(alloc, kind, ignore_case, request.patterns)?;
            Ok(search.map(ModeSearcher::Leftmost))
        }
    }
}

/// The searcher for the arguments.
fn searcher(alloc: Global, words: &[String]) -> Result<ModeSearcher, Fault>
    ensures asked { IfOk result (λ searcher. words_ask (map string_bytes words.now) ≡ Some (searches_for searcher)) }
    ensures usage { IsErrOf result Fault.Usage ↔ (words_ask (map string_bytes words.now) ≡ None) }
    ensures no_searcher { IsErrOf result Fault.NoSearcher → AreUnbuildable (map string_bytes words.now) }
    ensures not_buildable { AreUnbuildable (map string_bytes words.now)
        → IsErrOf result Fault.NoSearcher ⊎ IsErrOf result Fault.OutOfMemory }
    ensures read { IfErr result (λ fault. fault ≢ Fault.ReadFailed) }
    ensures write { IfErr result (λ fault. fault ≢ Fault.WriteFailed) }
    ensures no_memory { IsErrOf result Fault.OutOfMemory → 0 < length (pattern_at (map string_bytes words.now) 1) }
{
    let Some(request) = parse(words) else {
        return Err(Fault::Usage);
    };
    let Some(searcher) = built(alloc, &request)? else {
        return Err(Fault::NoSearcher);
    };
    Ok(searcher)
}

/// The lines of all matches. The function is not inlined: in the program, no jump in the loop of the search then
/// crosses a 32-byte boundary (docs/MEASURED.md). Edits of the code before that loop may move it; a search with few
/// patterns then takes 25 to 40 percent more time, as `checks/speed` shows.
#[inline(never)]
fn all_lines(alloc: Global, searcher: &Searcher, input: &[u8]) -> Result<String, AllocError>
    ensures lines { IfOk result (λ text. AreMatchLines (all_matches searcher.now) input.now (string_bytes text)) }
    ensures no_memory { OnErr result (¬ AreMatchLines (all_matches searcher.now) input.now []) }
{
    let mut text = String::new(alloc);
    for found in searcher.find_iter(input) {
        let line = Line(found);
        write!(text, "{line}")?;
    }
    Ok(text)
}

/// The line of the leftmost match, if there is one.
fn leftmost_line(
    alloc: Global,
    search: &ConfirmingSearch,
    input: &[u8],
) -> Result<String, AllocError>
    ensures lines { IfOk result (λ text. AreMatchLines (leftmost_match search.now.query search.now.ignore_case)
        input.now (string_bytes text)) }
    ensures no_memory { OnErr result
        (¬ AreMatchLines (leftmost_match search.now.query search.now.ignore_case) input.now []) }
{
    let mut text = String::new(alloc);
    let span = Span {
        start: 0,
        end: input.len(),
    };
    let Some(found) = search.find_in(input, span) else {
        return Ok(text);
    };
    let line = Line(found);
    write!(text, "{line}")?;
    Ok(text)
}

impl ModeSearcher {
    /// The lines of the matches in the whole input, by the mode of the searcher. Memory is requested only if there is a
    /// match.
    fn lines(&self, alloc: Global, input: &[u8]) -> Result<String, AllocError>
        ensures lines { IfOk result (λ text. AreMatchLines (searches_for self.now) input.now (string_bytes text)) }
        ensures no_memory { OnErr result (¬ AreMatchLines (searches_for self.now) input.now []) }
    {
        match self {
            ModeSearcher::All(searcher) => all_lines(alloc, searcher, input),
            ModeSearcher::Leftmost(search) => leftmost_line(alloc, search, input),
        }
    }
}

/// Reads the input to its end.
fn read_to_end<R: Source>(alloc: Global, reader: &mut R) -> Result<Vec<u8>, Fault>
    requires readable { R.failed reader.old ≡ false }
    requires more { R.ended reader.old ≡ false }
    ensures whole { IfOk result (λ input. ReadsToEnd (R.remaining reader.old) (R.remaining reader.new) input.items) }
    ensures ended { OnOk result (R.ended reader.new ≡ true) }
    ensures some { ReadSome (R.remaining reader.old) (R.remaining reader.new) }
    ensures failed { IsErrOf result Fault.ReadFailed ↔ (R.failed reader.new ≡ true) }
    ensures fault { IfErr result (λ fault. (fault ≡ Fault.OutOfMemory) ⊎ (fault ≡ Fault.ReadFailed)) }
    ensures no_memory { IsErrOf result Fault.OutOfMemory → (R.ended reader.new ≡ false)
        × ReadBytes (R.remaining reader.old) (R.remaining reader.new) }
{
    let mut input = Vec::new(alloc);
    let mut buffer = [0u8; BLOCK];
    loop {
        match reader.read(&mut buffer) {
            Ok(0) => return Ok(input),
            Ok(count) => input.extend_from_slice(&buffer[..count])?,
            Err(Failed) => return Err(Fault::ReadFailed),
        }
    }
}

/// Writes the text, and flushes.
pub fn write_whole<W: Sink>(writer: &mut W, text: &[u8]) -> Result<(), Failed>
    requires { W.failed writer.old ≡ false }
    ensures ok { OnOk result (Appends (W.contents writer.old) (W.contents writer.new) text.now) }
    ensures flushed { OnOk result (W.flushed writer.new ≡ true) }
    ensures succeeded { OnOk result (W.failed writer.new ≡ false) }
    ensures err { OnErr result (IsFront (W.contents writer.old) (W.contents writer.new) text.now) }
    ensures failed { OnErr result (W.failed writer.new ≡ true) }
{
    let mut rest = text;
    while !rest.is_empty() {
        let count = writer.write(rest)?;
        rest = &rest[count..];
    }
    writer.flush()
}

/// Reads the whole input, and returns a line for each match that the arguments request. The arguments are checked
/// before the first read.
fn read_lines<R: Source>(alloc: Global, words: &[String], reader: &mut R) -> Result<String, Fault>
    requires readable { R.failed reader.old ≡ false }
    requires more { R.ended reader.old ≡ false }
    ensures lines { IfOk result (λ text. ReadsLines (map string_bytes words.now)
        (R.remaining reader.old) (R.remaining reader.new) (string_bytes text)) }
    ensures usage { IsErrOf result Fault.Usage ↔ (words_ask (map string_bytes words.now) ≡ None) }
    ensures no_searcher { IsErrOf result Fault.NoSearcher → AreUnbuildable (map string_bytes words.now) }
    ensures not_buildable { AreUnbuildable (map string_bytes words.now)
        → IsErrOf result Fault.NoSearcher ⊎ IsErrOf result Fault.OutOfMemory }
    ensures unread { IsErrOf result Fault.Usage ⊎ IsErrOf result Fault.NoSearcher → reader.new ≡ reader.old }
    ensures read { ReadSome (R.remaining reader.old) (R.remaining reader.new) }
    ensures failed { IsErrOf result Fault.ReadFailed ↔ (R.failed reader.new ≡ true) }
    ensures ended { OnOk result (R.ended reader.new ≡ true) }
    ensures write { IfErr result (λ fault. fault ≢ Fault.WriteFailed) }
    ensures no_memory { IsErrOf result Fault.OutOfMemory
        → ((reader.new ≡ reader.old) × (0 < length (pattern_at (map string_bytes words.now) 1)))
        ⊎ ((R.ended reader.new ≡ false) × ReadBytes (R.remaining reader.old) (R.remaining reader.new))
        ⊎ HasLine (map string_bytes words.now) (R.remaining reader.old) (R.remaining reader.new) }
{
    let searcher = searcher(alloc, words)?;
    let input = read_to_end(alloc, reader)?;
    let text = searcher.lines(alloc, input.as_slice())?;
    Ok(text)
}

/// Reads the whole input, and writes a line for each match that the arguments request. The arguments are a mode and the
/// patterns, which are searched for as bytes. The modes `first` and `longest` find all matches. The modes
/// `confirm-first` and `confirm-longest` find the leftmost match; `nocase-first` and `nocase-longest` ignore ASCII case
/// in addition. Returns whether a line was written. After a failed call, the reader or the writer is not called again.
pub fn run<R: Source, W: Sink>(
    alloc: Global,
    words: &[String],
    reader: &mut R,
    writer: &mut W,
) -> Result<bool, Fault>
    requires readable { R.failed reader.old ≡ false }
    requires more { R.ended reader.old ≡ false }
    requires writable { W.failed writer.old ≡ false }

    // All lines of the whole input were written and flushed.
    ensures ok { IfOk result (WroteLines (map string_bytes words.now)
        (R.remaining reader.old) (R.remaining reader.new)
        (W.contents writer.old) (W.contents writer.new)) }
    ensures flushed { OnOk result (W.flushed writer.new ≡ true) }

    // The arguments are checked before the first read.
    ensures usage { IsErrOf result Fault.Usage ↔ (words_ask (map string_bytes words.now) ≡ None) }
    ensures no_searcher { IsErrOf result Fault.NoSearcher → AreUnbuildable (map string_bytes words.now) }
    ensures not_buildable { AreUnbuildable (map string_bytes words.now)
        → IsErrOf result Fault.NoSearcher ⊎ IsErrOf result Fault.OutOfMemory }
    ensures unread { IsErrOf result Fault.Usage ⊎ IsErrOf result Fault.NoSearcher → reader.new ≡ reader.old }

    // The reader: some input was read, and to its end if it is searched.
    ensures read { ReadSome (R.remaining reader.old) (R.remaining reader.new) }
    ensures read_failed { IsErrOf result Fault.ReadFailed ↔ (R.failed reader.new ≡ true) }
    ensures ended { OnOk result (R.ended reader.new ≡ true) }
    ensures ended_at_write { IsErrOf result Fault.WriteFailed → R.ended reader.new ≡ true }

    // Memory may be refused before the first read (only if the first pattern is not empty, since otherwise none is
    // stored), for bytes that were read, or for a line.
    ensures no_memory { IsErrOf result Fault.OutOfMemory
        → ((reader.new ≡ reader.old) × (0 < length (pattern_at (map string_bytes words.now) 1)))
        ⊎ ((R.ended reader.new ≡ false) × ReadBytes (R.remaining reader.old) (R.remaining reader.new))
        ⊎ HasLine (map string_bytes words.now) (R.remaining reader.old) (R.remaining reader.new) }

    // The writer: it is not used unless all lines are written or a write fails.
    ensures unwritten { IfErr result (λ fault. fault ≢ Fault.WriteFailed → writer.new ≡ writer.old) }
    ensures write_failed { IsErrOf result Fault.WriteFailed ↔ (W.failed writer.new ≡ true) }
    ensures front { IsErrOf result Fault.WriteFailed → WroteFront (map string_bytes words.now)
        (R.remaining reader.old) (R.remaining reader.new)
        (W.contents writer.old) (W.contents writer.new) }
{
    let text = read_lines(alloc, words, reader)?;
    let bytes = text.as_bytes();
    match write_whole(writer, bytes) {
        Ok(()) => Ok(!bytes.is_empty()),
        Err(Failed) => Err(Fault::WriteFailed),
    }
}

#[cfg(test)]
mod tests;
