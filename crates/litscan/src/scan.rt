//! Decides which lines are selected (those with an allowed occurrence of a word, or with `-v` the others), and prints
//! them.
ghost use Rattle.literal_base.specs.declared.packed.MatchKind.TheVariants.{LeftmostLongest};
ghost use Rattle.litscan.specs.Fault.{IsWriteFault};
ghost use Rattle.litscan.specs.Inside.Passed.{lines_read};
ghost use Rattle.litscan.specs.Lines.{lines_of};
ghost use Rattle.litscan.specs.Options.{is_silent, limit_of};
ghost use Rattle.litscan.specs.Printed.{CannotRead, PrintsUnlessSilent, Reads, ReadsTooMany, StopsAtEnough, StopsScan};
ghost use Rattle.litscan.specs.Printed.{are_enough, counts, printed_behind, printed_listed};
ghost use Rattle.litscan.specs.Scans.{Scans, is_all};
ghost use Rattle.std.specs.Io.KnownBytes.{Appends};
ghost use Rattle.std.specs.List.{count_by};
ghost use Rattle.std.specs.Prelude.{◌+◌, ◌<◌, ◌^◌, ◌≡◌, ◌≤◌, IfErr, IfOk, List, OnOk, length, ℕ};

use crate::buffered::take_ahead;
use crate::color::{NAME, print_colored};
use crate::context::scan_with_context;
use crate::device::{Device, ReadsAhead, flush_line, read_line};
use crate::fault::Fault;
use crate::options::{Options, is_enough};
use crate::passed::Gap;
use crate::printing::print_name;
use crate::selected::{Scanned, end_behind, failed_behind, take_line};
use literal_search::Search;
use std::alloc::Global;
use std::io::{BufRead, Write};

/// Reads a text, prints what the options request, with this file name, and returns the number of selected lines.
/// Reading stops once enough lines are selected and the lines to print after the last of them are read. If a read
/// fails, the lines read before it are still scanned.
pub fn scan<R: BufRead + ReadsAhead, W: Write>(
    alloc: Global,
    search: &Search,
    options: Options,
    separator: &[u8],
    any: bool,
    name: &[u8],
    reader: &mut Device<R>,
    writer: &mut Device<W>,
) -> Result<Scanned, Fault>
    requires { search.now.query.kind ≡ LeftmostLongest }
    ensures scanned { IfOk result (λ scanned. (text out : List ℕ)
        × (scans : Scans search.now options separator.now any name.now text scanned out)
        × Reads scanned.failure (is_all options scanned scans.behind) (R.remaining reader.old.inner)
        (R.remaining reader.new.inner) text
        × Appends (W.contents writer.old.inner) (W.contents writer.new.inner) out) }
    ensures failed { IfOk result (λ scanned. CannotRead reader.new.failure
        (ReadsTooMany (R.remaining reader.old.inner) (R.remaining reader.new.inner)) scanned.failure) }
    ensures error { IfErr result (StopsScan reader.new.failure writer.new.failure) }
{
    if options.has_context() {
        return scan_with_context(alloc, search, options, separator, any, name, reader, writer);
    }
    let scanned = scan_lines(alloc, search, options, name, reader, writer)?;
    print_behind(options, name, scanned.count, writer)?;
    flush_line(options, writer)?;
    Ok(scanned)
}

/// Prints the output that follows the lines, if requested: the number of selected lines, or the file name.
fn print_behind<W: Write>(
    options: Options,
    name: &[u8],
    count: u64,
    writer: &mut Device<W>,
) -> Result<(), Fault>
    ensures printed { OnOk result (Appends (W.contents writer.old.inner) (W.contents writer.new.inner)
        (printed_behind options.listed options name.now count)) }
    ensures error { IfErr result (IsWriteFault writer.new.failure) }
{
    if options.quiet {
        return Ok(());
    }
    if let Some(found) = options.listed {
        return print_listed(found, options, name, count, writer);
    }
    if options.count {
        print_name(options, name, writer)?;
        writeln!(writer, "{count}")?;
    }
    Ok(())
}

/// Prints the name of a file on a line: with `found` if some line is selected, and otherwise if none is.
fn print_listed<W: Write>(
    found: bool,
    options: Options,
    name: &[u8],
    count: u64,
    writer: &mut Device<W>,
) -> Result<(), Fault>
    ensures printed { OnOk result (Appends (W.contents writer.old.inner) (W.contents writer.new.inner)
        (printed_listed found options name.now count)) }
    ensures error { IfErr result (IsWriteFault writer.new.failure) }
{
    if found != (count > 0) {
        return Ok(());
    }
    print_colored(options, NAME, name, writer)?;
    writer.write_all(if options.zero { b"\0" } else { b"\n" })
}

/// Reads a text until enough lines are selected, prints them as requested, and returns how many lines are selected.
fn scan_lines<R: BufRead + ReadsAhead, W: Write>(
    alloc: Global,
    search: &Search,
    options: Options,
    name: &[u8],
    reader: &mut Device<R>,
    writer: &mut Device<W>,
) -> Result<Scanned, Fault>
    requires { search.now.query.kind ≡ LeftmostLongest }
    ensures scanned { IfOk result (λ scanned. (text out : List ℕ)
        × Reads scanned.failure (are_enough options scanned) (R.remaining reader.old.inner)
        (R.remaining reader.new.inner) text
        × StopsAtEnough (limit_of options) (counts search.now options) (lines_of options.line_end text)
        × Appends (W.contents writer.old.inner) (W.contents writer.new.inner) out
        × PrintsUnlessSilent (is_silent options) search.now options name.now 1 0 (lines_of options.line_end text) out
        × (scanned.count ≡ count_by (counts search.now options) (lines_of options.line_end text))) }
    ensures failed { IfOk result (λ scanned. CannotRead reader.new.failure
        (ReadsTooMany (R.remaining reader.old.inner) (R.remaining reader.new.inner)) scanned.failure) }
    ensures error { IfErr result (StopsScan reader.new.failure writer.new.failure) }
{
    let mut line = Vec::new(alloc);
    let (mut count, mut lines, mut offset) = (0, 0, 0);
    let mut gap = Gap::new(options, search);
    loop {
        if is_enough(options.limit(), count) {
            return Ok(Scanned::whole(count));
        }
        let far = gap.is_long();
        let ahead = match take_ahead(search, options, name, lines, offset, far, reader, writer) {
            Ok(ahead) => ahead,
            Err(fault) => return failed_behind(count, fault, reader.failure()),
        };
        count += ahead.count;
        lines += ahead.lines as u64;
        offset += ahead.bytes as u64;
        gap = gap.with(ahead.lines, ahead.found);
        if ahead.ended {
            return Ok(Scanned::whole(count));
        }
        if ahead.bytes > 0 {
            continue;
        }
        let fed = match read_line(options, reader, &mut line, writer) {
            Ok(fed) => fed,
            Err(fault) => return failed_behind(count, fault, reader.failure()),
        };
        let line = line.as_slice();
        let Some(end) = end_behind(offset, line, 0) else {
            return Ok(Scanned::too_large(count));
        };
        lines += 1;
        let taken = take_read(fed, search, options, name, lines, offset, line, writer)?;
        count += taken;
        gap = gap.with(1, (taken > 0) != options.others);
        if !fed {
            return Ok(Scanned::whole(count));
        }
        offset = end;
    }
}

/// Handles the text in the buffer as a line, except an empty text at the end of the input, where no end of a line was
/// read (`fed`). Returns 1 if the line is selected, and otherwise 0.
fn take_read<W: Write>(
    fed: bool,
    search: &Search,
    options: Options,
    name: &[u8],
    number: u64,
    offset: u64,
    line: &[u8],
    writer: &mut Device<W>,
) -> Result<u64, Fault>
    requires longest { search.now.query.kind ≡ LeftmostLongest }
    requires inside { offset + length line.now < 2 ^ 64 }
    ensures few { IfOk result (λ count. count ≤ 1) }
    ensures counted { IfOk result (λ count.
        count ≡ count_by (counts search.now options) (lines_read fed line.now)) }
    ensures printed { OnOk result ((out : List ℕ)
        × Appends (W.contents writer.old.inner) (W.contents writer.new.inner) out
        × PrintsUnlessSilent (is_silent options) search.now options name.now number offset
        (lines_read fed line.now) out) }
    ensures error { IfErr result (IsWriteFault writer.new.failure) }
{
    if !fed && line.is_empty() {
        return Ok(0);
    }
    let taken = take_line(false, search, options, name, number, offset, line, writer)?;
    flush_line(options, writer)?;
    Ok(taken)
}
