//! A checked writer as a sink for bytes.
use super::{Checked, Failed, Sink};
use std::io::Write;

/// The sink has the writer's bytes. A write fails if the writer's does, or if it writes no byte of a non-empty buffer.
/// A flush fails if the writer's does.
impl<W: Write> Sink for Checked<W> {
    ghost contents = { λ c. W.contents c.inner };

    ghost failed = { λ c. c.has_failed };

    ghost flushed = { λ c. c.is_flushed };

    fn write(&mut self, buf: &[u8]) -> Result<usize, Failed> {
        self.is_flushed = false;
        match self.inner.write(buf) {
            Ok(count) if count > 0 || buf.is_empty() => Ok(count),
            _ => {
                self.has_failed = true;
                Err(Failed)
            }
        }
    }

    fn flush(&mut self) -> Result<(), Failed> {
        self.is_flushed = false;
        match self.inner.flush() {
            Ok(()) => {
                self.is_flushed = true;
                Ok(())
            }
            Err(_) => {
                self.has_failed = true;
                Err(Failed)
            }
        }
    }

    fn has_failed(&self) -> bool {
        self.has_failed
    }
}
