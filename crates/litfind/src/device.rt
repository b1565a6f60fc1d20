//! Where the program reads from and writes to: std's readers and writers, which remember a failure.
ghost use Rattle.std.specs.Prelude.{◌≡◌, ℕ, ◌<◌, ◌≤◌, Bool, false, List, Option, length, IfOk, is_ok, is_err};
ghost use Rattle.std.specs.Io.KnownBytes.{Keeps, ReadConsumes, WriteAppends};
ghost use Rattle.litfind.specs.Device.{device_of, gave_nothing};

mod reader;
mod writer;

use std::marker::Model;

/// A call of a reader or a writer failed.
#[derive(Clone, Copy, Debug, PartialEq, Eq)]
pub struct Failed;

/// A source of bytes. Once a read has failed or found the end, no other is made.
pub trait Source {
    /// The bytes that are left to read, if they are known.
    ghost remaining: { Self → Option (List ℕ) };

    /// Whether a read has failed.
    ghost failed: { Self → Bool };

    /// Whether a read into a buffer with room has returned no byte.
    ghost ended: { Self → Bool };

    /// Reads some bytes to the front of the buffer, and returns their number. With room in the buffer, it is 0 only at
    /// the end.
    fn read(&mut self, buf: &mut [u8]) -> Result<usize, Failed>
        requires readable { failed self.old ≡ false }
        requires more { ended self.old ≡ false }
        ensures bound { IfOk result (λ n. n ≤ length buf.new) }
        ensures bytes { ReadConsumes (remaining self.old) (remaining self.new) result buf.new }
        ensures failure { failed self.new ≡ is_err result }
        ensures end { ended self.new ≡ gave_nothing result buf.new };

    /// Whether a read has failed.
    fn has_failed(&self) -> bool
        ensures { result ≡ failed self.now };

    /// Whether a read into a buffer with room has returned no byte.
    fn has_ended(&self) -> bool
        ensures { result ≡ ended self.now };
}

/// A sink for bytes. After a failed call no other is made.
pub trait Sink {
    /// The bytes that the sink holds, if they are known.
    ghost contents: { Self → Option (List ℕ) };

    /// Whether a call has failed.
    ghost failed: { Self → Bool };

    /// Whether the last write or flush was a successful flush.
    ghost flushed: { Self → Bool };

    /// Writes some bytes from the front of the buffer, at least one if it has any, and returns their number.
    fn write(&mut self, buf: &[u8]) -> Result<usize, Failed>
        requires { failed self.old ≡ false }
        ensures bound { IfOk result (λ n. n ≤ length buf.now) }
        ensures progress { IfOk result (λ n. 0 < length buf.now → 0 < n) }
        ensures bytes { WriteAppends (contents self.old) (contents self.new) result buf.now }
        ensures failure { failed self.new ≡ is_err result }
        ensures unflushed { flushed self.new ≡ false };

    /// Flushes the bytes written before.
    fn flush(&mut self) -> Result<(), Failed>
        requires { failed self.old ≡ false }
        ensures bytes { Keeps (contents self.old) (contents self.new) }
        ensures failure { failed self.new ≡ is_err result }
        ensures flushed { flushed self.new ≡ is_ok result };

    /// Whether a call has failed.
    fn has_failed(&self) -> bool
        ensures { result ≡ failed self.now };
}

/// A reader or writer of std, with whether a call of it has failed, whether a read has found its end, and whether it is
/// flushed. Contracts see these four.
#[derive(Drop)]
pub struct Checked<T> {
    inner: T,
    has_failed: bool,
    has_ended: bool,
    is_flushed: bool,
}

impl<T> Model for Checked<T> {
    ghost use Rattle.litfind.specs.Device.{Device};

    ghost Value = { Device T };

    ghost view = { λ c. record {
      inner = c.inner;
      has_failed = c.has_failed;
      has_ended = c.has_ended;
      is_flushed = c.is_flushed;
    } };
}

impl<T> Checked<T> {
    /// Wraps this reader or writer. No call of it has failed, and no read of it has found its end.
    pub fn new(inner: T) -> Checked<T>
        ensures { result ≡ device_of inner }
    {
        Checked {
            inner,
            has_failed: false,
            has_ended: false,
            is_flushed: false,
        }
    }

    /// Unwraps the reader or writer.
    pub fn into_inner(self) -> T
        ensures { result ≡ self.inner }
    {
        let Checked {
            inner,
            has_failed: _,
            has_ended: _,
            is_flushed: _,
        } = self;
        inner
    }
}
