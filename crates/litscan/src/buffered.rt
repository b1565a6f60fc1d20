//! Handles whole lines where they are buffered, without a copy of them.
ghost use Rattle.literal_base.specs.declared.packed.MatchKind.TheVariants.{LeftmostLongest};
ghost use Rattle.litscan.specs.Fault.{IsReadFault, IsWriteFault, StopsRead};
ghost use Rattle.litscan.specs.Inside.Passed.{EndsLine, PassesOthers, TakesLines, printed_each, prints_others};
ghost use Rattle.litscan.specs.Lines.{lines_of};
ghost use Rattle.litscan.specs.declared.fault.Fault.TheVariants.{ReadFailed};
ghost use Rattle.std.specs.Io.KnownBytes.{Appends, Consumes, IsAtEnd, Keeps};
ghost use Rattle.std.specs.Option.{OnSome};
ghost use Rattle.std.specs.Prelude.{◌+◌, ◌<◌, ◌^◌, ◌≡◌, ◌≤◌, IfErr, IfOk, List, OnOk, [], false, if◌then◌else◌};
ghost use Rattle.std.specs.Prelude.{length, take, true};
ghost use Rattle.std.specs.Prelude.{ℕ};

use crate::device::{Device, ReadsAhead, flush_before_wait, flush_line};
use crate::fault::Fault;
use crate::options::Options;
use crate::passed::{first_end, look_ahead};
use crate::printing::print_part;
use crate::selected::{end_behind, prints_nothing, take_line};
use literal_search::Search;
use std::io::{self, BufRead, ErrorKind, Write};

/// Whole lines that were handled where they are buffered.
#[derive(Clone, Copy)]
pub struct Ahead {
    /// How many they are.
    pub lines: usize,
    /// Their length in bytes, with their ends.
    pub bytes: usize,
    /// How many of them are selected.
    pub count: u64,
    /// Whether the last one has a match. No contract depends on it.
    pub found: bool,
    /// Whether the input has ended. If it has, this need not be known.
    pub ended: bool,
}

impl Ahead {
    /// No line was handled.
    pub fn none() -> Ahead
        ensures { result ≡ record { lines = 0; bytes = 0; count = 0; found = false; ended = false } }
    {
        Ahead {
            lines: 0,
            bytes: 0,
            count: 0,
            found: false,
            ended: false,
        }
    }

    /// No line was handled, since the input has ended.
    fn at_end() -> Ahead
        ensures { result ≡ record { lines = 0; bytes = 0; count = 0; found = false; ended = true } }
    {
        Ahead {
            ended: true,
            ..Ahead::none()
        }
    }
}

/// Handles whole lines of the buffered bytes, up to the first one with a match, or only the first line. With `-v` it
/// handles none if there is a limit.
pub fn take_ahead<R: BufRead + ReadsAhead, W: Write>(
    search: &Search,
    options: Options,
    name: &[u8],
    lines: u64,
    offset: u64,
    far: bool,
    reader: &mut Device<R>,
    writer: &mut Device<W>,
) -> Result<Ahead, Fault>
    requires longest { search.now.query.kind ≡ LeftmostLongest }
    requires few { lines ≤ offset }
    ensures takes { IfOk result (λ ahead. (text : List ℕ)
        × Consumes (R.remaining reader.old.inner) (R.remaining reader.new.inner) text
        × TakesLines search.now options name.now lines offset ahead text (W.contents writer.old.inner)
        (W.contents writer.new.inner)) }
    ensures end { IfOk result (λ ahead. ahead.ended ≡ true → (ahead.bytes ≡ 0)
        × OnSome (R.remaining reader.old.inner) (IsAtEnd (R.remaining reader.new.inner))) }
    ensures kept { IfErr result (λ fault. fault ≡ ReadFailed
        → Keeps (W.contents writer.old.inner) (W.contents writer.new.inner)) }
    ensures error { IfErr result (StopsRead reader.new.failure writer.new.failure) }
{
    if !passes_others(options) {
        return Ok(Ahead::none());
    }
    flush_before_wait(options.line_end, reader, writer)?;
    reader.take_lines(search, options, name, lines, offset, far, writer)
}

/// Whether lines without a word may be handled together: none is selected, or there is no limit.
fn passes_others(options: Options) -> bool
    ensures { result ≡ true → PassesOthers options }
{
    !options.others || options.limit().is_none()
}

impl<R: BufRead> Device<R> {
    /// Handles the lines of the buffered bytes before the first match and, if it is buffered as a whole, the line of
    /// that match. The bytes begin at this offset of the text, after so many lines. With `-v` the lines before the
    /// match are printed. `far` says whether it looks at more than the first line.
    fn take_lines<W: Write>(
        &mut self,
        search: &Search,
        options: Options,
        name: &[u8],
        lines: u64,
        offset: u64,
        far: bool,
        writer: &mut Device<W>,
    ) -> Result<Ahead, Fault>
        requires longest { search.now.query.kind ≡ LeftmostLongest }
        requires plain { PassesOthers options }
        requires few { lines ≤ offset }
        ensures takes { IfOk result (λ ahead. (text : List ℕ)
            × Consumes (R.remaining self.old.inner) (R.remaining self.new.inner) text
            × TakesLines search.now options name.now lines offset ahead text (W.contents writer.old.inner)
            (W.contents writer.new.inner)) }
        ensures end { IfOk result (λ ahead. ahead.ended ≡ true → (ahead.bytes ≡ 0)
            × OnSome (R.remaining self.old.inner) (IsAtEnd (R.remaining self.new.inner))) }
        ensures kept { IfErr result (λ fault. fault ≡ ReadFailed
            → Keeps (W.contents writer.old.inner) (W.contents writer.new.inner)) }
        ensures error { IfErr result (StopsRead self.new.failure writer.new.failure) }
    {
        let taken = match self.inner.fill_buf() {
            Ok(bytes) => take_buffered(search, options, name, lines, offset, far, bytes, writer),
            Err(error) => return self.after_fill(error),
        };
        let ahead = taken?;
        self.inner.consume(ahead.bytes);
        Ok(ahead)
    }

    /// The result of handling lines if a read fails. After an interrupted read, no line is handled.
    pub fn after_fill(&mut self, error: io::Error) -> Result<Ahead, Fault>
        ensures inner { self.new.inner ≡ self.old.inner }
        ensures none { IfOk result (λ ahead. ahead
            ≡ record { lines = 0; bytes = 0; count = 0; found = false; ended = false }) }
        ensures error { IfErr result (IsReadFault self.new.failure) }
    {
        if error.kind() == ErrorKind::Interrupted {
            return Ok(Ahead::none());
        }
        self.failure = Some(error.kind());
        Err(Fault::of_read(error))
    }
}

/// Handles the lines before the first match in buffered bytes, which begin at this offset after so many lines, and the
/// line of that match if it is there as a whole. Handles none if the offset after the bytes reaches 2^64. With `-v` the
/// lines before the match are printed at once. `far` says whether it looks at more than the first line.
fn take_buffered<W: Write>(
    search: &Search,
    options: Options,
    name: &[u8],
    lines: u64,
    offset: u64,
    far: bool,
    bytes: &[u8],
    writer: &mut Device<W>,
) -> Result<Ahead, Fault>
    requires longest { search.now.query.kind ≡ LeftmostLongest }
    requires plain { PassesOthers options }
    requires few { lines ≤ offset }
    ensures takes { IfOk result (λ ahead. TakesLines search.now options name.now lines offset ahead
        (take ahead.bytes bytes.now) (W.contents writer.old.inner) (W.contents writer.new.inner)) }
    ensures inside { IfOk result (λ ahead. ahead.bytes ≤ length bytes.now) }
    ensures end { IfOk result (λ ahead. ahead.ended ≡ true → length bytes.now ≡ 0) }
    ensures error { IfErr result (IsWriteFault writer.new.failure) }
{
    let Some(_) = end_behind(offset, bytes, 0) else {
        return Ok(Ahead::none());
    };
    if bytes.is_empty() {
        return Ok(Ahead::at_end());
    }
    let passed = look_ahead(options, search, far, bytes);
    let front = &bytes[..passed.bytes];
    let others = take_others(options, name, lines, offset, passed.lines, front, writer)?;
    let Some(len) = passed.next else {
        return Ok(Ahead {
            lines: passed.lines,
            bytes: passed.bytes,
            count: others,
            found: false,
            ended: false,
        });
    };
    let line = &bytes[passed.bytes..passed.bytes + len];
    let number = lines + passed.lines as u64 + 1;
    let start = offset + passed.bytes as u64;
    let known = !options.whole;
    let count = take_line(known, search, options, name, number, start, line, writer)?;
    flush_line(options, writer)?;
    Ok(Ahead {
        lines: passed.lines + 1,
        bytes: passed.bytes + len + 1,
        count: others + count,
        found: true,
        ended: false,
    })
}

/// Prints whole lines that contain no word, if they are requested, and returns how many are selected. They begin at
/// this offset after so many lines.
fn take_others<W: Write>(
    options: Options,
    name: &[u8],
    before: u64,
    offset: u64,
    lines: usize,
    bytes: &[u8],
    writer: &mut Device<W>,
) -> Result<u64, Fault>
    requires whole { EndsLine options.line_end bytes.now }
    requires few { before ≤ offset }
    requires inside { offset + length bytes.now + 1 < 2 ^ 64 }
    ensures count { IfOk result (λ count. count ≡ (if options.others then lines else 0)) }
    ensures written { OnOk result (Appends (W.contents writer.old.inner) (W.contents writer.new.inner)
        (if prints_others options then printed_each options name.now (before + 1) offset
        (lines_of options.line_end bytes.now) else [])) }
    ensures error { IfErr result (IsWriteFault writer.new.failure) }
{
    if !options.others {
        return Ok(0);
    }
    if !prints_nothing(options) {
        print_whole(options, name, before + 1, offset, bytes, writer)?;
        flush_line(options, writer)?;
    }
    Ok(lines as u64)
}

/// Prints whole lines, of which the first has this number and begins at this offset.
fn print_whole<W: Write>(
    options: Options,
    name: &[u8],
    number: u64,
    offset: u64,
    bytes: &[u8],
    writer: &mut Device<W>,
) -> Result<(), Fault>
    requires whole { EndsLine options.line_end bytes.now }
    requires number { number + length bytes.now < 2 ^ 64 }
    requires offset { offset + length bytes.now < 2 ^ 64 }
    ensures written { OnOk result (Appends (W.contents writer.old.inner) (W.contents writer.new.inner)
        (printed_each options name.now number offset (lines_of options.line_end bytes.now))) }
    ensures error { IfErr result (IsWriteFault writer.new.failure) }
{
    if options.has_head() {
        return print_each(options, name, number, offset, bytes, writer);
    }
    writer.write_all(bytes)
}

/// The same, line by line.
fn print_each<W: Write>(
    options: Options,
    name: &[u8],
    number: u64,
    offset: u64,
    bytes: &[u8],
    writer: &mut Device<W>,
) -> Result<(), Fault>
    requires whole { EndsLine options.line_end bytes.now }
    requires number { number + length bytes.now < 2 ^ 64 }
    requires offset { offset + length bytes.now < 2 ^ 64 }
    ensures written { OnOk result (Appends (W.contents writer.old.inner) (W.contents writer.new.inner)
        (printed_each options name.now number offset (lines_of options.line_end bytes.now))) }
    ensures error { IfErr result (IsWriteFault writer.new.failure) }
{
    let (mut at, mut next) = (0, number);
    while at < bytes.len() {
        let end = first_end(options.line_end, bytes, at);
        let start = offset + at as u64;
        print_part(options, name, next, start, &bytes[at..end], writer)?;
        next += 1;
        at = end + 1;
    }
    Ok(())
}
