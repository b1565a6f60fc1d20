//! Bytes as text.
ghost use Rattle.std.specs.Prelude.{◌<◌, IfOk};

use crate::case::number_of;
use crate::refusal::Refusal;
use std::alloc::{AllocError, Global};

/// The text for no byte.
const NO_BYTE: &str = "_";

/// The most times that a byte is repeated.
const MOST: usize = 1 << 20;

/// The bytes of a word.
pub fn bytes_of(alloc: Global, word: &str) -> Result<Vec<u8>, Refusal> {
    let mut bytes = Vec::new(alloc);
    if word == NO_BYTE {
        return Ok(bytes);
    }
    let mut is_first = true;
    for part in word.split('{') {
        let single = if is_first {
            part
        } else {
            let (count, single) = part.split_once('}').ok_or(Refusal::NoCase)?;
            repeat_last(&mut bytes, number_of(count)?)?;
            single
        };
        push_singles(&mut bytes, single)?;
        is_first = false;
    }
    Ok(bytes)
}

/// Repeats the last byte, so that it is there this many times.
fn repeat_last(bytes: &mut Vec<u8>, count: usize) -> Result<(), Refusal> {
    let last = *bytes.last().ok_or(Refusal::NoCase)?;
    if count == 0 || count > MOST {
        return Err(Refusal::NoCase);
    }
    for _ in 1..count {
        bytes.push(last)?;
    }
    Ok(())
}

/// Adds bytes that are written one by one.
fn push_singles(bytes: &mut Vec<u8>, word: &str) -> Result<(), Refusal> {
    let mut is_first = true;
    for part in word.split('\\') {
        let mut plain = part.as_bytes();
        if !is_first {
            let (byte, rest) = byte_of(plain)?;
            bytes.push(byte)?;
            plain = rest;
        }
        bytes.extend_from_slice(plain)?;
        is_first = false;
    }
    Ok(())
}

/// The byte after a backslash, and the rest of the word.
fn byte_of(word: &[u8]) -> Result<(u8, &[u8]), Refusal> {
    if word.len() < 3 || word[0] != b'x' {
        return Err(Refusal::NoCase);
    }
    let (high, low) = (digit(word[1])?, digit(word[2])?);
    Ok((high * 16 + low, &word[3..]))
}

/// Writes bytes.
pub fn push_bytes(text: &mut String, bytes: &[u8]) -> Result<(), AllocError> {
    if bytes.is_empty() {
        return text.push_str(NO_BYTE);
    }
    for byte in bytes {
        push_byte(text, *byte)?;
    }
    Ok(())
}

/// The bytes that are written in another form.
const SIGNS: &[u8] = b"\\,._|{}";

/// Writes a byte.
pub fn push_byte(text: &mut String, byte: u8) -> Result<(), AllocError> {
    if byte.is_ascii_graphic() && !SIGNS.contains(&byte) {
        return text.push(byte as char);
    }
    write!(text, "\\x{byte:02x}")
}

/// The value of a digit.
fn digit(character: u8) -> Result<u8, Refusal>
    ensures { IfOk result (λ value. value < 16) }
{
    match character {
        b'0'..=b'9' => Ok(character - b'0'),
        b'a'..=b'f' => Ok(character - b'a' + 10),
        _ => Err(Refusal::NoCase),
    }
}
