//! The errors of a run.
ghost use Rattle.std.specs.Prelude.{◌≡◌};
ghost use Rattle.litfind.specs.declared.fault.Fault.TheVariants.{OutOfMemory};

use std::alloc::AllocError;
use std::error::Error;
use std::fmt;

/// The reason why a run failed.
#[derive(Clone, Copy, Debug, PartialEq, Eq)]
pub enum Fault {
    /// The arguments do not say what to search for: the mode is missing or unknown, or there is no pattern. Nothing was
    /// read.
    Usage,
    /// No searcher can be built for the patterns, and nothing was read. In each mode, an empty pattern is a cause; in
    /// `first` and `longest`, more than 128 patterns; in the other modes, that no prefilter suits them. If case
    /// matters, a prefilter suits every list of up to 128 patterns. If it is ignored, a prefilter suits only if at most
    /// three bytes begin all patterns, or if at most three rare bytes occur in them all, where a letter counts as two.
    /// Most lists of several words have none.
    NoSearcher,
    /// A request for memory was refused: for the patterns, for the whole input, or for the lines of its matches.
    /// Nothing was written.
    OutOfMemory,
    /// Standard input could not be read: it is a folder or closed, or the device failed. Nothing was written.
    ReadFailed,
    /// A write or the flush failed, or a write wrote no byte: the device is full, or the pipe or stream is closed. A
    /// prefix of the output may have been written.
    WriteFailed,
}

impl Fault {
    ghost use Rattle.litfind.specs.FaultText.{fault_line};

    /// The message of the fault, with a line feed.
    pub fn line(&self) -> &'static str
        ensures { result.now ≡ fault_line self.now }
    {
        match self {
            Fault::Usage => "litfind: usage: litfind MODE PATTERN...\n",
            Fault::NoSearcher => "litfind: no searcher for these patterns\n",
            Fault::OutOfMemory => "litfind: out of memory\n",
            Fault::ReadFailed => "litfind: read failed\n",
            Fault::WriteFailed => "litfind: write failed\n",
        }
    }
}

/// The message of the fault, without a line feed.
impl fmt::Display for Fault {
    ghost use Rattle.std.specs.Prelude.{Some};
    ghost use Rattle.litfind.specs.FaultText.{fault_text};

    ghost output = { λ fault. Some (fault_text fault) };

    fn fmt<W: fmt::Write>(&self, f: &mut fmt::Formatter<W>) -> fmt::Result {
        let line = self.line();
        f.write_str(line.strip_suffix('\n').unwrap_or(line))
    }
}

impl Error for Fault {}

/// [`Fault::OutOfMemory`].
impl From<AllocError> for Fault {
    ghost from_gives = { λ _ fault. fault ≡ OutOfMemory };

    fn from(_error: AllocError) -> Fault {
        Fault::OutOfMemory
    }
}
