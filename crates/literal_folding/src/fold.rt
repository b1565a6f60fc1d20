//! The folding of a character, and of a text.
ghost use Rattle.std.specs.Prelude.{◌≡◌, ◌++◌, IfOk, OnErr, OnOk, vec_capacity, vec_len, drop, length, ◌<◌, ◌≤◌, ◌+◌};
ghost use Rattle.std.specs.Prelude.{◌-◌, ◌^◌, if◌then◌else◌};
ghost use Rattle.literal_folding.specs.Folding.{first_char_of, first_code_of, folded, folded_char, folded_in, is_in};
ghost use Rattle.literal_folding.specs.Folding.{with_first_folded};
ghost use Rattle.literal_folding.specs.Inside.Foldings.{IsRowIndex};

use crate::foldings::FOLDINGS;
use std::alloc::AllocError;

/// Returns the simple case folding of a character if it has the same length in UTF-8, otherwise the character itself.
pub fn fold_char(c: char) -> char
    ensures { result ≡ folded_char c }
{
    char::from_u32(fold_code(c as u32)).unwrap()
}

/// The folding of a character, by its number.
fn fold_code(code: u32) -> u32
    ensures { result ≡ folded_char code }
{
    let at = row_index(code);
    match FOLDINGS.get(at) {
        Some(row) => fold_in(row, code),
        None => code,
    }
}

/// The index of the first row whose last character is at least a number, or the number of rows if there is none.
fn row_index(code: u32) -> usize
    ensures { IsRowIndex code result }
{
    FOLDINGS.partition_point(|row| row.1 < code)
}

/// The folding of a character by a row, if it has the character.
fn fold_in(row: &(u32, u32, u32, u32), code: u32) -> u32
    requires upto_last { code ≤ row.now.1 }
    requires has_step { 0 < row.now.2 }
    requires fits { row.now.3 + (row.now.1 - row.now.0) < 2 ^ 32 }
    ensures { result ≡ (if is_in row.now code then folded_in row.now code else code) }
{
    let &(first, _, step, to) = row;
    if first <= code && (code - first) % step == 0 {
        to + (code - first)
    } else {
        code
    }
}

/// The number encoded by the first bytes, if they are a character in UTF-8.
fn first_code(bytes: &[u8]) -> u32
    ensures { result ≡ first_code_of bytes.now }
{
    let byte = |at: usize| bytes.get(at).copied().unwrap_or(0) as u32;
    let bits = |at: usize| byte(at).saturating_sub(0x80);
    match byte(0) {
        lead @ ..0x80 => lead,
        lead @ ..0xE0 => lead.saturating_sub(0xC0) * 0x40 + bits(1),
        lead @ ..0xF0 => ((lead - 0xE0) * 0x40 + bits(1)) * 0x40 + bits(2),
        lead => (((lead - 0xF0) * 0x40 + bits(1)) * 0x40 + bits(2)) * 0x40 + bits(3),
    }
}

/// The first character of the bytes, if they begin with a whole one.
fn first_char(bytes: &[u8]) -> Option<char>
    ensures { result ≡ first_char_of bytes.now }
{
    let c = char::from_u32(first_code(bytes))?;
    let mut buffer = [0; 4];
    let encoded = c.encode_utf8(&mut buffer).as_bytes();
    bytes.starts_with(encoded).then_some(c)
}

/// Folds the first character of the bytes, if they begin with a whole one. There has to be a byte.
fn fold_first(bytes: &mut [u8])
    requires { 0 < length bytes.old }
    ensures { bytes.new ≡ with_first_folded bytes.old }
{
    match bytes[0] {
        lead @ ..0x80 => bytes[0] = lead.to_ascii_lowercase(),
        0x80..0xC0 => {}
        _ => fold_first_char(bytes),
    }
}

/// The same for any first byte.
fn fold_first_char(bytes: &mut [u8])
    ensures { bytes.new ≡ with_first_folded bytes.old }
{
    let code = first_code(bytes);
    if fold_code(code) == code {
        return;
    }
    if let Some(c) = first_char(bytes) {
        let mut buffer = [0; 4];
        let folding = fold_char(c).encode_utf8(&mut buffer);
        overwrite(bytes, folding.as_bytes());
    }
}

/// Overwrites the first bytes.
fn overwrite(bytes: &mut [u8], first: &[u8])
    requires { length first.now ≤ length bytes.old }
    ensures { bytes.new ≡ first.now ++ drop (length first.now) bytes.old }
{
    bytes[..first.len()].copy_from_slice(first);
}

/// Replaces each whole, valid character of the text by its folding. All other bytes are unchanged.
pub fn fold_in_place(text: &mut [u8])
    ensures { text.new ≡ folded text.old }
{
    if text.is_ascii() {
        text.make_ascii_lowercase();
        return;
    }
    for at in (0..text.len()).rev() {
        fold_first(&mut text[at..]);
    }
}

/// Appends the folded text to the buffer. If memory is refused, the bytes of the buffer are unchanged.
pub fn fold_into(text: &[u8], buffer: &mut Vec<u8>) -> Result<(), AllocError>
    ensures ok { OnOk result (buffer.new.items ≡ buffer.old.items ++ folded text.now) }
    ensures error { OnErr result (buffer.new.items ≡ buffer.old.items) }
    ensures full { OnErr result (vec_capacity buffer.old < vec_len buffer.old + length text.now) }
{
    let start = buffer.len();
    buffer.extend_from_slice(text)?;
    fold_in_place(&mut buffer[start..]);
    Ok(())
}
