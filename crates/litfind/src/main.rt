//! Finds literals in standard input: `litfind MODE PATTERN...`.
#![tactic(auto)]

mod device;
mod engine;
mod fault;
mod finish;
mod line;

use device::Checked;
use engine::{run, write_whole};
use fault::Fault;
use finish::finish;
use std::env;
use std::io::ErrorKind;
use std::process::ExitCode;

/// The output of `--version`, if it is the only argument.
const VERSION: &str = "litfind 0.1.0\n";

fn main(rt: HostRuntime) -> ExitCode {
    let mut log = Checked::new(rt.stderr());
    let args = match env::args(&rt) {
        Ok(args) => args,
        Err(error) if error.kind() == ErrorKind::OutOfMemory => {
            return finish(&mut log, Err(Fault::OutOfMemory));
        }
        // An argument is not UTF-8.
        Err(_) => return finish(&mut log, Err(Fault::Usage)),
    };
    let Ok(words) = args.skip(1).collect::<Vec<String>>(rt.alloc()) else {
        return finish(&mut log, Err(Fault::OutOfMemory));
    };
    let mut writer = Checked::new(rt.stdout());
    if let [word] = words.as_slice() {
        if word.as_str() == "--version" {
            let answer = write_whole(&mut writer, VERSION.as_bytes());
            return finish(&mut log, answer.and(Ok(true)).or(Err(Fault::WriteFailed)));
        }
    }
    let mut reader = Checked::new(rt.stdin());
    let answer = run(rt.alloc(), words.as_slice(), &mut reader, &mut writer);
    finish(&mut log, answer)
}
