//! Prints lines and matches.
ghost use Rattle.std.specs.Prelude.{◌≡◌, ◌<◌, ◌+◌, ◌^◌, ℕ, List, length, min, replicate, slice_range, true};
ghost use Rattle.std.specs.Prelude.{IfErr, IfOk, OnOk};
ghost use Rattle.std.specs.Io.KnownBytes.{Appends};
ghost use Rattle.literal_base.specs.MatchValue.{MatchValue};
ghost use Rattle.literal_base.specs.Occurs.{IsValidSpan, between};
ghost use Rattle.literal_base.specs.declared.packed.MatchKind.TheVariants.{LeftmostLongest};
ghost use Rattle.litscan.specs.Asked.{AreMatches};
ghost use Rattle.litscan.specs.Context.{PrintsNear};
ghost use Rattle.litscan.specs.Fault.{IsWriteFault};
ghost use Rattle.litscan.specs.Options.{is_marked};
ghost use Rattle.litscan.specs.Printed.{PrintsFound, PrintsWhole, marked_from, printed_head, printed_match};
ghost use Rattle.litscan.specs.Printed.{printed_front, printed_matches, printed_name, printed_part, printed_tab};

use crate::asked::next_asked;
use crate::color::{MATCH, NAME, print_colon, print_colored, print_number, turn_off, turn_on};
use crate::device::Device;
use crate::fault::Fault;
use crate::options::{Options, Shown};
use literal_search::{Match, Search};
use std::io::Write;

/// Prints a selected line: the whole line, or with `-o` its matches.
pub fn print_found<W: Write>(
    search: &Search,
    options: Options,
    name: &[u8],
    number: u64,
    offset: u64,
    line: &[u8],
    writer: &mut Device<W>,
) -> Result<(), Fault>
    requires longest { search.now.query.kind ≡ LeftmostLongest }
    requires inside { offset + length line.now < 2 ^ 64 }
    ensures printed { OnOk result ((out : List ℕ)
        × Appends (W.contents writer.old.inner) (W.contents writer.new.inner) out
        × PrintsFound options.only search.now options name.now number offset line.now out) }
    ensures error { IfErr result (IsWriteFault writer.new.failure) }
{
    if options.only {
        print_matches(search, options, name, number, offset, line, writer)?;
        return Ok(());
    }
    print_line(search, options, name, number, offset, line, writer)
}

/// Prints a context line. With `-o` it has matches to print only with `-v`.
pub fn print_near<W: Write>(
    search: &Search,
    options: Options,
    name: &[u8],
    number: u64,
    offset: u64,
    line: &[u8],
    writer: &mut Device<W>,
) -> Result<(), Fault>
    requires longest { search.now.query.kind ≡ LeftmostLongest }
    requires inside { offset + length line.now < 2 ^ 64 }
    ensures printed { OnOk result ((out : List ℕ)
        × Appends (W.contents writer.old.inner) (W.contents writer.new.inner) out
        × PrintsNear options.others search.now options name.now number offset line.now out) }
    ensures error { IfErr result (IsWriteFault writer.new.failure) }
{
    let near = options.as_context();
    if options.others {
        return print_found(search, near, name, number, offset, line, writer);
    }
    if options.only {
        return Ok(());
    }
    if options.is_replaced() {
        return print_with_matches(search, near, name, number, offset, line, writer);
    }
    print_part(near, name, number, offset, line, writer)
}

/// Prints each match in a line on a line of its own. Returns 1 if there is a match, and otherwise 0.
pub fn print_matches<W: Write>(
    search: &Search,
    options: Options,
    name: &[u8],
    number: u64,
    offset: u64,
    line: &[u8],
    writer: &mut Device<W>,
) -> Result<u64, Fault>
    requires longest { search.now.query.kind ≡ LeftmostLongest }
    requires inside { offset + length line.now < 2 ^ 64 }
    ensures printed { IfOk result (λ count. (all : List MatchValue)
        × AreMatches search.now options line.now 0 all
        × Appends (W.contents writer.old.inner) (W.contents writer.new.inner)
        (printed_matches options name.now number offset line.now all) × (count ≡ min 1 (length all))) }
    ensures error { IfErr result (IsWriteFault writer.new.failure) }
{
    let mut count = 0;
    let mut from = 0;
    let mut starts = search.starts(line);
    while let Some(found) = next_asked(search, options, line, from, &mut starts) {
        let start = offset + found.start() as u64;
        print_match(options, name, number, start, line, found, writer)?;
        count = 1;
        from = found.end();
    }
    Ok(count)
}

/// Prints a match on a line of its own.
fn print_match<W: Write>(
    options: Options,
    name: &[u8],
    number: u64,
    offset: u64,
    line: &[u8],
    found: Match,
    writer: &mut Device<W>,
) -> Result<(), Fault>
    requires { IsValidSpan line.now (between found.start found.end) }
    ensures printed { OnOk result (Appends (W.contents writer.old.inner) (W.contents writer.new.inner)
        (printed_part options name.now number offset (slice_range line.now found.start found.end)
        (printed_match options line.now found))) }
    ensures error { IfErr result (IsWriteFault writer.new.failure) }
{
    print_head(options, name, number, offset, found.span().of(line), writer)?;
    print_shown(options, line, found, writer)?;
    writer.write_all(&[options.line_end])
}

/// Prints what is shown for a match, in colour if colours are requested.
fn print_shown<W: Write>(
    options: Options,
    line: &[u8],
    found: Match,
    writer: &mut Device<W>,
) -> Result<(), Fault>
    requires { IsValidSpan line.now (between found.start found.end) }
    ensures printed { OnOk result (Appends (W.contents writer.old.inner) (W.contents writer.new.inner)
        (printed_match options line.now found)) }
    ensures error { IfErr result (IsWriteFault writer.new.failure) }
{
    turn_on(options, MATCH, writer)?;
    match options.shown {
        Shown::Match => writer.write_all(found.span().of(line))?,
        Shown::Mask(byte) => print_mask(byte, found.span().len(), writer)?,
        Shown::Number => {
            let number = found.pattern().one_more();
            write!(writer, "{number}")?;
        }
    }
    turn_off(options, writer)
}

/// Prints a byte so many times.
fn print_mask<W: Write>(byte: u8, len: usize, writer: &mut Device<W>) -> Result<(), Fault>
    ensures printed { OnOk result (Appends (W.contents writer.old.inner) (W.contents writer.new.inner)
        (replicate len byte)) }
    ensures error { IfErr result (IsWriteFault writer.new.failure) }
{
    for _ in 0..len {
        writer.write_all(&[byte])?;
    }
    Ok(())
}

/// Prints a selected line: as it is, or with its matches as they are shown.
pub fn print_line<W: Write>(
    search: &Search,
    options: Options,
    name: &[u8],
    number: u64,
    offset: u64,
    line: &[u8],
    writer: &mut Device<W>,
) -> Result<(), Fault>
    requires { search.now.query.kind ≡ LeftmostLongest }
    ensures printed { OnOk result ((out : List ℕ)
        × Appends (W.contents writer.old.inner) (W.contents writer.new.inner) out
        × PrintsWhole (is_marked options) search.now options name.now number offset line.now out) }
    ensures error { IfErr result (IsWriteFault writer.new.failure) }
{
    if options.is_marked() {
        return print_with_matches(search, options, name, number, offset, line, writer);
    }
    print_part(options, name, number, offset, line, writer)
}

/// Prints a line with its matches as they are shown.
fn print_with_matches<W: Write>(
    search: &Search,
    options: Options,
    name: &[u8],
    number: u64,
    offset: u64,
    line: &[u8],
    writer: &mut Device<W>,
) -> Result<(), Fault>
    requires { search.now.query.kind ≡ LeftmostLongest }
    ensures printed { OnOk result ((out : List ℕ)
        × Appends (W.contents writer.old.inner) (W.contents writer.new.inner) out
        × PrintsWhole true search.now options name.now number offset line.now out) }
    ensures error { IfErr result (IsWriteFault writer.new.failure) }
{
    print_head(options, name, number, offset, line, writer)?;
    print_marked(search, options, line, writer)?;
    writer.write_all(&[options.line_end])
}

/// Prints a line with its prefix.
pub fn print_part<W: Write>(
    options: Options,
    name: &[u8],
    number: u64,
    offset: u64,
    bytes: &[u8],
    writer: &mut Device<W>,
) -> Result<(), Fault>
    ensures printed { OnOk result (Appends (W.contents writer.old.inner) (W.contents writer.new.inner)
        (printed_part options name.now number offset bytes.now bytes.now)) }
    ensures error { IfErr result (IsWriteFault writer.new.failure) }
{
    print_head(options, name, number, offset, bytes, writer)?;
    writer.write_all(bytes)?;
    writer.write_all(&[options.line_end])
}

/// Prints the bytes of a line, with its matches as they are shown.
fn print_marked<W: Write>(
    search: &Search,
    options: Options,
    line: &[u8],
    writer: &mut Device<W>,
) -> Result<(), Fault>
    requires { search.now.query.kind ≡ LeftmostLongest }
    ensures printed { OnOk result ((all : List MatchValue) × AreMatches search.now options line.now 0 all
        × Appends (W.contents writer.old.inner) (W.contents writer.new.inner)
        (marked_from options line.now 0 all)) }
    ensures error { IfErr result (IsWriteFault writer.new.failure) }
{
    let mut from = 0;
    let mut starts = search.starts(line);
    while let Some(found) = next_asked(search, options, line, from, &mut starts) {
        writer.write_all(&line[from..found.start()])?;
        print_shown(options, line, found, writer)?;
        from = found.end();
    }
    writer.write_all(&line[from..])
}

/// Prints the prefix of a line or match with these bytes: file name, line number and offset, as requested, and the tab.
fn print_head<W: Write>(
    options: Options,
    name: &[u8],
    number: u64,
    offset: u64,
    bytes: &[u8],
    writer: &mut Device<W>,
) -> Result<(), Fault>
    ensures printed { OnOk result (Appends (W.contents writer.old.inner) (W.contents writer.new.inner)
        (printed_head options name.now number offset bytes.now)) }
    ensures error { IfErr result (IsWriteFault writer.new.failure) }
{
    print_front(options, name, number, offset, writer)?;
    print_tab(options, bytes, writer)
}

/// Prints file name, line number and offset, as requested.
fn print_front<W: Write>(
    options: Options,
    name: &[u8],
    number: u64,
    offset: u64,
    writer: &mut Device<W>,
) -> Result<(), Fault>
    ensures printed { OnOk result (Appends (W.contents writer.old.inner) (W.contents writer.new.inner)
        (printed_front options name.now number offset)) }
    ensures error { IfErr result (IsWriteFault writer.new.failure) }
{
    print_name(options, name, writer)?;
    if options.numbers {
        print_number(options, number, writer)?;
    }
    if options.offsets {
        print_number(options, offset, writer)?;
    }
    Ok(())
}

/// Prints the tab of `-T` before a line or match that is not empty, if anything else is printed before it.
fn print_tab<W: Write>(options: Options, bytes: &[u8], writer: &mut Device<W>) -> Result<(), Fault>
    ensures printed { OnOk result (Appends (W.contents writer.old.inner) (W.contents writer.new.inner)
        (printed_tab options bytes.now)) }
    ensures error { IfErr result (IsWriteFault writer.new.failure) }
{
    if options.tab && options.has_head() && !bytes.is_empty() {
        return writer.write_all(b"\t");
    }
    Ok(())
}

/// Prints the name of a file, and a colon or a zero byte, if names are requested.
pub fn print_name<W: Write>(
    options: Options,
    name: &[u8],
    writer: &mut Device<W>,
) -> Result<(), Fault>
    ensures printed { OnOk result (Appends (W.contents writer.old.inner) (W.contents writer.new.inner)
        (printed_name options name.now)) }
    ensures error { IfErr result (IsWriteFault writer.new.failure) }
{
    if !options.named.unwrap_or(false) {
        return Ok(());
    }
    print_colored(options, NAME, name, writer)?;
    if options.zero {
        return writer.write_all(b"\0");
    }
    print_colon(options, writer)
}
