//! A checked reader as a source of bytes.
use super::{Checked, Failed, Source};
use std::io::Read;

/// The source has the reader's bytes. A read fails exactly if the reader's read does.
impl<R: Read> Source for Checked<R> {
    ghost remaining = { λ c. R.remaining c.inner };

    ghost failed = { λ c. c.has_failed };

    ghost ended = { λ c. c.has_ended };

    fn read(&mut self, buf: &mut [u8]) -> Result<usize, Failed> {
        match self.inner.read(buf) {
            Ok(count) => {
                if count == 0 && !buf.is_empty() {
                    self.has_ended = true;
                }
                Ok(count)
            }
            Err(_) => {
                self.has_failed = true;
                Err(Failed)
            }
        }
    }

    fn has_failed(&self) -> bool {
        self.has_failed
    }

    fn has_ended(&self) -> bool {
        self.has_ended
    }
}
