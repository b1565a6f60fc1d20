//! The end of the program: its exit status, and the message of a fault.
ghost use Rattle.std.specs.Prelude.{◌≡◌, true, false, IfOk, IfErr};
ghost use Rattle.std.specs.Process.{exit_status};
ghost use Rattle.std.specs.Io.KnownBytes.{Appends};
ghost use Rattle.litfind.specs.FaultText.{fault_line};
ghost use Rattle.litfind.specs.Run.{IsFront};
ghost use Rattle.litfind.specs.Status.{status_of};

use crate::device::Sink;
use crate::engine::write_whole;
use crate::fault::Fault;
use std::process::ExitCode;

/// The exit status for the result of a run: 0 if a line was written, 1 if none was, and 2 for a fault. The message of a
/// fault is written first, as a whole unless a write fails. Without a fault nothing is written.
pub fn finish<W: Sink>(log: &mut W, answer: Result<bool, Fault>) -> ExitCode
    requires { W.failed log.old ≡ false }
    ensures status { exit_status result ≡ status_of answer }
    ensures silent { IfOk answer (λ _. log.new ≡ log.old) }
    ensures line { IfErr answer (λ fault. W.failed log.new ≡ false
        → Appends (W.contents log.old) (W.contents log.new) (fault_line fault)) }
    ensures front { IfErr answer (λ fault. W.failed log.new ≡ true
        → IsFront (W.contents log.old) (W.contents log.new) (fault_line fault)) }
{
    match answer {
        Ok(true) => ExitCode::from(0),
        Ok(false) => ExitCode::from(1),
        Err(fault) => {
            let _ = write_whole(log, fault.line().as_bytes());
            ExitCode::from(2)
        }
    }
}
