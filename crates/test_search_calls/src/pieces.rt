//! Readers whose text comes in pieces, and writers.
use std::io::{self, ErrorKind, Read, Write};

/// A reader of bytes in memory, a few per call, that fails once this many bytes are left.
#[derive(Drop)]
pub struct Pieces<'t> {
    pub rest: &'t [u8],
    pub step: usize,
    pub failing: Option<usize>,
}

impl Read for Pieces<'_> {
    fn read(&mut self, buf: &mut [u8]) -> io::Result<usize> {
        if self.failing == Some(self.rest.len()) {
            return Err(io::Error::from(ErrorKind::TimedOut));
        }
        let count = self.rest.len().min(self.step).min(buf.len());
        let (first, behind) = self.rest.split_at(count);
        buf[..count].copy_from_slice(first);
        self.rest = behind;
        Ok(count)
    }
}

/// A reader of bytes in memory, one per call, whose call is interrupted once, when this many bytes are left.
#[derive(Drop)]
pub struct Interrupted<'t> {
    pub rest: &'t [u8],
    pub at: Option<usize>,
}

impl Read for Interrupted<'_> {
    fn read(&mut self, buf: &mut [u8]) -> io::Result<usize> {
        if self.at == Some(self.rest.len()) {
            self.at = None;
            return Err(io::Error::from(ErrorKind::Interrupted));
        }
        let count = self.rest.len().min(1).min(buf.len());
        let (first, behind) = self.rest.split_at(count);
        buf[..count].copy_from_slice(first);
        self.rest = behind;
        Ok(count)
    }
}

/// A writer that counts the bytes that it gets, and cannot be flushed.
#[derive(Drop)]
pub struct Unflushed {
    pub count: usize,
    pub is_flushed: bool,
}

impl Write for Unflushed {
    fn write(&mut self, buf: &[u8]) -> io::Result<usize> {
        self.count = self.count.saturating_add(buf.len());
        Ok(buf.len())
    }

    fn flush(&mut self) -> io::Result<()> {
        self.is_flushed = true;
        Err(io::Error::from(ErrorKind::BrokenPipe))
    }
}
