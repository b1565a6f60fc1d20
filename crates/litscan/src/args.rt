//! Reads the arguments of the command line.
ghost use Rattle.std.specs.Prelude.{◌≤◌, IfOk, IfSome, length};

use crate::fault::Fault;
use std::env::{Env, FillError};

/// The size of the first buffer for an argument, in bytes.
const ROOM: usize = 256;

/// The arguments of the command line after the program name, byte for byte.
pub fn given_words(rt: &HostRuntime) -> Result<Vec<Vec<u8>>, Fault> {
    let mut words = Vec::new(rt.alloc());
    let mut room = Vec::new(rt.alloc());
    room.resize(ROOM, 0).or(Err(Fault::OutOfMemory))?;
    for number in 1..usize::MAX {
        let Some(len) = read_word(rt, number, &mut room)? else {
            return Ok(words);
        };
        let word = Vec::from_slice(rt.alloc(), &room[..len]).or(Err(Fault::OutOfMemory))?;
        words.push(word).or(Err(Fault::OutOfMemory))?;
    }
    Err(Fault::OutOfMemory)
}

/// Reads the argument of this index into `room`, and returns its length, or None if there is no such argument. `room`
/// grows if necessary. Index 0 is the program name.
fn read_word(rt: &HostRuntime, number: usize, room: &mut Vec<u8>) -> Result<Option<usize>, Fault>
    ensures { IfOk result (λ read. IfSome read (λ len. len ≤ length room.new.items)) }
{
    for _ in 0..usize::BITS {
        match rt.arg(number, room.as_mut_slice()) {
            Ok(len) => return Ok(Some(len)),
            Err(FillError::NotPresent) => return Ok(None),
            Err(FillError::TooLong) => {
                let more = room.len().saturating_mul(2);
                room.resize(more, 0).or(Err(Fault::OutOfMemory))?;
            }
        }
    }
    Err(Fault::OutOfMemory)
}
