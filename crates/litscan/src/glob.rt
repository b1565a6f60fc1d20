//! Glob patterns for file names, as in the shell.
ghost use Rattle.std.specs.Prelude.{◌≡◌, ◌+◌, ◌<◌, ◌≤◌, IfErr, IfSome, length};
ghost use Rattle.litscan.specs.declared.fault.Fault.TheVariants.{OutOfMemory};

use crate::fault::Fault;
use std::alloc::Global;

/// A piece of a pattern.
#[derive(Clone, Copy)]
enum Piece<'g> {
    /// `*`: any bytes.
    Any,
    /// `?`: any byte.
    One,
    /// This byte.
    Byte(u8),
    /// `[...]`: a byte of this list, or with `!` or `^` first, a byte not in it.
    Listed { list: &'g [u8], negated: bool },
}

impl<'g> Piece<'g> {
    /// Whether the piece fits this byte.
    fn has(self, byte: u8) -> bool {
        match self {
            Piece::Any | Piece::One => true,
            Piece::Byte(other) => byte == other,
            Piece::Listed { list, negated } => is_listed(list, byte) != negated,
        }
    }
}

/// Whether a pattern fits the whole name.
pub fn fits(alloc: Global, glob: &[u8], name: &[u8]) -> Result<bool, Fault>
    ensures { IfErr result (λ fault. fault ≡ OutOfMemory) }
{
    let mut ends = Vec::new(alloc);
    ends.resize(name.len() + 1, false)
        .or(Err(Fault::OutOfMemory))?;
    ends[0] = true;
    let mut rest = glob;
    while let Some((piece, more)) = first_piece(rest) {
        match piece {
            Piece::Any => reach_all(ends.as_mut_slice()),
            _ => reach_next(piece, name, ends.as_mut_slice()),
        }
        rest = more;
    }
    Ok(ends[name.len()])
}

/// Updates the ends of the fitting prefixes of a name for a `*`: any bytes may follow.
fn reach_all(ends: &mut [bool]) {
    let mut is_reached = false;
    for end in ends {
        is_reached = is_reached || *end;
        *end = is_reached;
    }
}

/// Updates the ends of the fitting prefixes of a name for a piece that fits one byte.
fn reach_next(piece: Piece<'_>, name: &[u8], ends: &mut [bool])
    requires { length ends.old ≡ length name.now + 1 }
{
    for at in (0..name.len()).rev() {
        ends[at + 1] = ends[at] && piece.has(name[at]);
    }
    ends[0] = false;
}

/// The first piece of a pattern, and the rest of the pattern.
fn first_piece(glob: &[u8]) -> Option<(Piece<'_>, &[u8])>
    ensures { IfSome result (λ split. length split.1.now < length glob.now) }
{
    match glob {
        [] => None,
        [b'*', rest @ ..] => Some((Piece::Any, rest)),
        [b'?', rest @ ..] => Some((Piece::One, rest)),
        [b'\\', byte, rest @ ..] => Some((Piece::Byte(*byte), rest)),
        [b'[', rest @ ..] => Some(first_list(rest)),
        [byte, rest @ ..] => Some((Piece::Byte(*byte), rest)),
    }
}

/// The list after an opening bracket, as a piece, and the rest of the pattern. If no bracket closes the list, the piece
/// is the opening bracket itself.
fn first_list(glob: &[u8]) -> (Piece<'_>, &[u8])
    ensures { length result.1.now < length glob.now + 1 }
{
    let negated = match glob {
        [b'!' | b'^', ..] => true,
        _ => false,
    };
    let list = if negated { &glob[1..] } else { glob };
    let Some(end) = end_of_list(list) else {
        return (Piece::Byte(b'['), glob);
    };
    let listed = Piece::Listed {
        list: &list[..end],
        negated,
    };
    (listed, &list[end + 1..])
}

/// The index of the bracket that closes a list. A bracket at its front, or after a backslash, is a byte of the list.
fn end_of_list(list: &[u8]) -> Option<usize>
    ensures { IfSome result (λ end. end < length list.now) }
{
    let mut at = 0;
    while at < list.len() {
        if at > 0 && list[at] == b']' {
            return Some(at);
        }
        at += if list[at] == b'\\' { 2 } else { 1 };
    }
    None
}

/// Whether a byte is in a list, or in a range of it, such as `a-z`.
fn is_listed(list: &[u8], byte: u8) -> bool {
    let mut rest = list;
    while let Some((first, behind)) = first_listed(rest) {
        let (last, more) = last_listed(first, behind);
        if first <= byte && byte <= last {
            return true;
        }
        rest = more;
    }
    false
}

/// The first byte of a list, without a backslash before it, and the rest of the list.
fn first_listed(list: &[u8]) -> Option<(u8, &[u8])>
    ensures { IfSome result (λ split. length split.1.now < length list.now) }
{
    match list {
        [] => None,
        [b'\\', byte, rest @ ..] => Some((*byte, rest)),
        [byte, rest @ ..] => Some((*byte, rest)),
    }
}

/// The last byte of a range that begins with this byte, and the rest of the list. Without a dash and a byte after it,
/// it is the first byte itself.
fn last_listed(first: u8, list: &[u8]) -> (u8, &[u8])
    ensures { length result.1.now ≤ length list.now }
{
    match list {
        [b'-', rest @ ..] => first_listed(rest).unwrap_or((first, list)),
        _ => (first, list),
    }
}
