//! Readers and writers that remember their last failure.
ghost use Rattle.litscan.specs.Fault.{IsReadFault, IsWriteFault, StopsRead, write_fault};
ghost use Rattle.litscan.specs.Lines.{HasNoEnd, with_end};
ghost use Rattle.litscan.specs.Scans.{BeginsWithoutZero, HasZero};
ghost use Rattle.litscan.specs.declared.fault.Fault.TheVariants.{OutOfMemory};
ghost use Rattle.std.specs.Io.{StopsAt};
ghost use Rattle.std.specs.Io.KnownBytes.{Appends, Consumes, IsAtEnd, Keeps};
ghost use Rattle.std.specs.IoError.{error_kind};
ghost use Rattle.std.specs.List.{list_any};
ghost use Rattle.std.specs.Option.{IsSome, OnSome};
ghost use Rattle.std.specs.Prelude.{◌==◌, ◌≡◌, ◌⊎◌, Err, IfErr, IfOk, IfSome, MatchResult, None, Ok, OnOk, Some};
ghost use Rattle.std.specs.Prelude.{false, if◌then◌else◌, true};
ghost use Rattle.std.specs.declared.io.ErrorKind.TheVariants.{Interrupted};

use crate::fault::Fault;
use crate::options::Options;
use std::fmt::Display;
use std::io::{self, BufRead, BufReader, ErrorKind, Read, Write};
use std::marker::Model;

/// A reader or writer of std, the kind of the last error of a call, if any, and whether the last write or flush was a
/// successful flush. By that error, contracts say which device caused a fault.
#[derive(Drop)]
pub struct Device<D> {
    pub(crate) inner: D,
    pub(crate) failure: Option<ErrorKind>,
    flushed: bool,
    /// Whether a read may wait for input. Contracts do not see this.
    waits: bool,
}

impl<D> Model for Device<D> {
    ghost use Rattle.litscan.specs.DeviceValue.{DeviceValue};

    ghost Value = { DeviceValue D };

    ghost view = { λ d. record { inner = d.inner; failure = d.failure; flushed = d.flushed } };
}

impl<D> Device<D> {
    /// Wraps this reader or writer. No call has failed yet.
    pub fn new(inner: D) -> Device<D>
        ensures { result ≡ record { inner = inner; failure = None; flushed = false } }
    {
        Device::reading(inner, false)
    }

    /// Wraps this reader. `waits` says whether a read may wait for input.
    pub fn reading(inner: D, waits: bool) -> Device<D>
        ensures { result ≡ record { inner = inner; failure = None; flushed = false } }
    {
        Device {
            inner,
            failure: None,
            flushed: false,
            waits,
        }
    }

    /// The kind of the last error of a call, if any call failed.
    pub fn failure(&self) -> Option<ErrorKind>
        ensures { result ≡ self.now.failure }
    {
        self.failure
    }

    /// Records the outcome of a write, and returns it.
    fn after_write(&mut self, written: io::Result<()>) -> Result<(), Fault>
        ensures inner { self.new.inner ≡ self.old.inner }
        ensures unflushed { self.new.flushed ≡ false }
        ensures told { MatchResult written (λ done. result ≡ Ok done)
            (λ error. (result ≡ Err (write_fault (error_kind error))) × (self.new.failure ≡ Some (error_kind error))) }
    {
        self.flushed = false;
        match written {
            Ok(()) => Ok(()),
            Err(error) => {
                self.failure = Some(error.kind());
                Err(Fault::of_write(error))
            }
        }
    }
}

impl<R: BufRead> Device<R> {
    /// Replaces the contents of `line` by the next line, without the byte that ends it. Returns whether that byte was
    /// there. If not, the text has ended, and the line is empty if the text ended with that byte.
    pub fn read_line(&mut self, line_end: u8, line: &mut Vec<u8>) -> Result<bool, Fault>
        ensures bytes { IfOk result (λ fed. Consumes (R.remaining self.old.inner) (R.remaining self.new.inner)
            (if fed then with_end line_end line.new.items else line.new.items)) }
        ensures whole { OnOk result (HasNoEnd line_end line.new.items) }
        ensures ended { IfOk result (λ fed. fed ≡ false
            → OnSome (R.remaining self.old.inner) (IsAtEnd (R.remaining self.new.inner))) }
        ensures error { IfErr result (IsReadFault self.new.failure) }
    {
        line.clear();
        match self.inner.read_until(line_end, line) {
            Ok(_) => Ok(take_end(line_end, line)),
            Err(error) => {
                self.failure = Some(error.kind());
                Err(Fault::of_read(error))
            }
        }
    }

    /// Whether the buffered bytes contain a zero byte. Nothing is consumed. An interrupted read is tried again. False
    /// if the read fails.
    pub fn has_zero_ahead(&mut self) -> bool
        ensures kept { Keeps (R.remaining self.old.inner) (R.remaining self.new.inner) }
        ensures zero { result ≡ true → IfSome (R.remaining self.old.inner) HasZero }
        ensures none { result ≡ false
            → IfSome (R.remaining self.old.inner) BeginsWithoutZero ⊎ IsSome self.new.failure }
        ensures again { self.new.failure ≡ Some Interrupted → self.old.failure ≡ Some Interrupted }
    {
        // A bounded loop is proved to end. No reader is interrupted this often.
        for _ in 0..u64::MAX {
            match self.inner.fill_buf() {
                Ok(bytes) => return contains_zero(bytes),
                Err(error) => {
                    if error.kind() != ErrorKind::Interrupted {
                        self.failure = Some(error.kind());
                        return false;
                    }
                }
            }
        }
        self.failure = Some(ErrorKind::TimedOut);
        false
    }

    /// The fault that ends a scan. If memory for a line is refused, that counts as a failed read.
    pub fn stopped_by(&mut self, fault: Fault) -> Fault
        ensures inner { self.new.inner ≡ self.old.inner }
        ensures same { result ≡ fault }
        ensures read { fault ≡ OutOfMemory → IsReadFault self.new.failure fault }
    {
        if fault == Fault::OutOfMemory {
            self.failure = Some(ErrorKind::OutOfMemory);
        }
        fault
    }
}

impl<W: Write> Device<W> {
    /// Writes the bytes.
    pub fn write_all(&mut self, bytes: &[u8]) -> Result<(), Fault>
        ensures written { OnOk result (Appends (W.contents self.old.inner) (W.contents self.new.inner) bytes.now) }
        ensures unflushed { self.new.flushed ≡ false }
        ensures error { IfErr result (IsWriteFault self.new.failure) }
    {
        let written = self.inner.write_all(bytes);
        self.after_write(written)
    }

    /// Writes the text, for `write!`.
    pub fn write_fmt<T: Display + Drop>(&mut self, text: T) -> Result<(), Fault>
        ensures written { OnOk result (IfSome (T.output text)
            (Appends (W.contents self.old.inner) (W.contents self.new.inner))) }
        ensures unflushed { self.new.flushed ≡ false }
        ensures error { IfErr result (IsWriteFault self.new.failure) }
    {
        let written = self.inner.write_fmt(text);
        self.after_write(written)
    }

    /// Flushes what was written since the last flush.
    pub fn flush(&mut self) -> Result<(), Fault>
        ensures kept { Keeps (W.contents self.old.inner) (W.contents self.new.inner) }
        ensures flushed { OnOk result (self.new.flushed ≡ true) }
        ensures error { IfErr result (IsWriteFault self.new.failure) }
    {
        if self.flushed {
            return Ok(());
        }
        let flushed = self.inner.flush();
        self.after_write(flushed)?;
        self.flushed = true;
        Ok(())
    }
}

/// A reader with a buffer.
pub trait ReadsAhead {
    /// Whether the next line can be read without waiting.
    fn has_line(&self, line_end: u8) -> bool;
}

impl<'a> ReadsAhead for &'a [u8] {
    fn has_line(&self, _line_end: u8) -> bool {
        true
    }
}

impl<R: Read> ReadsAhead for BufReader<R> {
    fn has_line(&self, line_end: u8) -> bool {
        self.buffer().contains(&line_end)
    }
}

/// Flushes the writer if the next read may wait for input, so that all output is visible meanwhile.
pub fn flush_before_wait<R: ReadsAhead, W: Write>(
    line_end: u8,
    reader: &Device<R>,
    writer: &mut Device<W>,
) -> Result<(), Fault>
    ensures kept { Keeps (W.contents writer.old.inner) (W.contents writer.new.inner) }
    ensures error { IfErr result (IsWriteFault writer.new.failure) }
{
    if !reader.waits || writer.flushed || reader.inner.has_line(line_end) {
        return Ok(());
    }
    writer.flush()
}

/// Reads the next line. The writer is flushed first if the read may wait.
pub fn read_line<R: BufRead + ReadsAhead, W: Write>(
    options: Options,
    reader: &mut Device<R>,
    line: &mut Vec<u8>,
    writer: &mut Device<W>,
) -> Result<bool, Fault>
    ensures bytes { IfOk result (λ fed. Consumes (R.remaining reader.old.inner) (R.remaining reader.new.inner)
        (if fed then with_end options.line_end line.new.items else line.new.items)) }
    ensures whole { OnOk result (HasNoEnd options.line_end line.new.items) }
    ensures ended { IfOk result (λ fed. fed ≡ false
        → OnSome (R.remaining reader.old.inner) (IsAtEnd (R.remaining reader.new.inner))) }
    ensures kept { Keeps (W.contents writer.old.inner) (W.contents writer.new.inner) }
    ensures error { IfErr result (StopsRead reader.new.failure writer.new.failure) }
{
    flush_before_wait(options.line_end, reader, writer)?;
    reader.read_line(options.line_end, line)
}

/// Flushes the writer if each line is to be written at once.
pub fn flush_line<W: Write>(options: Options, writer: &mut Device<W>) -> Result<(), Fault>
    ensures kept { Keeps (W.contents writer.old.inner) (W.contents writer.new.inner) }
    ensures error { IfErr result (IsWriteFault writer.new.failure) }
{
    if !options.line_buffered {
        return Ok(());
    }
    writer.flush()
}

/// Whether a byte is zero.
fn contains_zero(bytes: &[u8]) -> bool
    ensures { result ≡ list_any (λ byte. byte == 0) bytes.now }
{
    bytes.contains(&0)
}

/// Removes the byte that ends lines from the end of a line, and returns whether there was one.
fn take_end(line_end: u8, line: &mut Vec<u8>) -> bool
    requires { StopsAt line.old.items line_end }
    ensures split { line.old.items ≡ (if result then with_end line_end line.new.items else line.new.items) }
    ensures whole { HasNoEnd line_end line.new.items }
{
    if line.last() == Some(&line_end) {
        line.pop();
        return true;
    }
    false
}
