//! Prints in colour, if colours are requested.
ghost use Rattle.std.specs.Prelude.{IfErr, OnOk};
ghost use Rattle.std.specs.Io.KnownBytes.{Appends};
ghost use Rattle.litscan.specs.Fault.{IsWriteFault};
ghost use Rattle.litscan.specs.Printed.{color_off, color_on, in_color, padded_number, printed_colon};
ghost use Rattle.litscan.specs.Printed.{printed_number};

use crate::device::Device;
use crate::fault::Fault;
use crate::options::Options;
use std::io::Write;

/// The colour code of names: magenta.
pub const NAME: &[u8] = b"35";

/// The colour code of numbers and offsets: green.
const NUMBER: &[u8] = b"32";

/// The colour code of colons, dashes and separators: cyan.
pub const COLON: &[u8] = b"36";

/// The colour code of matches: bold red.
pub const MATCH: &[u8] = b"01;31";

/// Prints bytes in a colour.
pub fn print_colored<W: Write>(
    options: Options,
    color: &[u8],
    bytes: &[u8],
    writer: &mut Device<W>,
) -> Result<(), Fault>
    ensures printed { OnOk result (Appends (W.contents writer.old.inner) (W.contents writer.new.inner)
        (in_color options color.now bytes.now)) }
    ensures error { IfErr result (IsWriteFault writer.new.failure) }
{
    turn_on(options, color, writer)?;
    writer.write_all(bytes)?;
    turn_off(options, writer)
}

/// Prints a number, with spaces before it up to the width of numbers, and a colon, or a dash.
pub fn print_number<W: Write>(
    options: Options,
    number: u64,
    writer: &mut Device<W>,
) -> Result<(), Fault>
    ensures printed { OnOk result (Appends (W.contents writer.old.inner) (W.contents writer.new.inner)
        (printed_number options number)) }
    ensures error { IfErr result (IsWriteFault writer.new.failure) }
{
    turn_on(options, NUMBER, writer)?;
    print_padded(options.width, number, writer)?;
    turn_off(options, writer)?;
    print_colon(options, writer)
}

/// Prints a number, with spaces before it up to this width.
fn print_padded<W: Write>(width: usize, number: u64, writer: &mut Device<W>) -> Result<(), Fault>
    ensures printed { OnOk result (Appends (W.contents writer.old.inner) (W.contents writer.new.inner)
        (padded_number width number)) }
    ensures error { IfErr result (IsWriteFault writer.new.failure) }
{
    write!(writer, "{number:>width$}")
}

/// Prints a colon, or a dash.
pub fn print_colon<W: Write>(options: Options, writer: &mut Device<W>) -> Result<(), Fault>
    ensures printed { OnOk result (Appends (W.contents writer.old.inner) (W.contents writer.new.inner)
        (printed_colon options)) }
    ensures error { IfErr result (IsWriteFault writer.new.failure) }
{
    let mark: &[u8] = if options.dashed { b"-" } else { b":" };
    print_colored(options, COLON, mark, writer)
}

/// Turns a colour on.
pub fn turn_on<W: Write>(
    options: Options,
    color: &[u8],
    writer: &mut Device<W>,
) -> Result<(), Fault>
    ensures printed { OnOk result (Appends (W.contents writer.old.inner) (W.contents writer.new.inner)
        (color_on options color.now)) }
    ensures error { IfErr result (IsWriteFault writer.new.failure) }
{
    if !options.is_colored() {
        return Ok(());
    }
    writer.write_all(b"\x1b[")?;
    writer.write_all(color)?;
    writer.write_all(b"m\x1b[K")
}

/// Turns the colour off.
pub fn turn_off<W: Write>(options: Options, writer: &mut Device<W>) -> Result<(), Fault>
    ensures printed { OnOk result (Appends (W.contents writer.old.inner) (W.contents writer.new.inner)
        (color_off options)) }
    ensures error { IfErr result (IsWriteFault writer.new.failure) }
{
    if !options.is_colored() {
        return Ok(());
    }
    writer.write_all(b"\x1b[m\x1b[K")
}
