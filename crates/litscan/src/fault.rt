//! The errors of a run.
ghost use Rattle.std.specs.Prelude.{◌≡◌};
ghost use Rattle.std.specs.IoError.{error_kind};
ghost use Rattle.litscan.specs.Fault.{build_fault, read_fault, shown_letter, why_unknown, write_fault};

use literal_search::BuildError;
use std::fmt;
use std::io::{self, ErrorKind};

/// The reason why a run did not read and print everything.
#[derive(Clone, Copy, Debug, PartialEq, Eq)]
pub enum Fault {
    /// There are no words to search for, or an option lacks its argument, or has a wrong one.
    Usage,
    /// There is no option of this letter.
    UnknownLetter(u8),
    /// The argument of this index, from 0, has an unknown long name.
    UnknownName(usize),
    /// The argument of this index, from 0, begins several long names.
    Ambiguous(usize),
    /// The word of this index, from 0, is empty.
    EmptyWord(usize),
    /// There are more words than identifiers, or their automaton needs too many states.
    TooManyWords,
    /// A request for memory was refused.
    OutOfMemory,
    /// A file could not be read.
    ReadFailed,
    /// A fault that was already reported, such as a file of words that could not be read.
    Told,
    /// Standard output is a pipe that nobody reads any more.
    Unread,
    /// Standard output could not be written.
    WriteFailed,
}

impl Fault {
    /// The fault for an error of a read.
    pub fn of_read(error: io::Error) -> Fault
        ensures { result ≡ read_fault (error_kind error) }
    {
        match error.kind() {
            ErrorKind::OutOfMemory => Fault::OutOfMemory,
            _ => Fault::ReadFailed,
        }
    }

    /// The fault for an error of a write.
    pub fn of_write(error: io::Error) -> Fault
        ensures { result ≡ write_fault (error_kind error) }
    {
        match error.kind() {
            ErrorKind::BrokenPipe => Fault::Unread,
            _ => Fault::WriteFailed,
        }
    }

    /// The fault for words for which no search can be built.
    pub fn of_build(error: BuildError) -> Fault
        ensures { result ≡ build_fault error }
    {
        match error {
            BuildError::EmptyPattern(number) => Fault::EmptyWord(number),
            BuildError::OutOfMemory => Fault::OutOfMemory,
            BuildError::TooManyPatterns | BuildError::TooManyStates => Fault::TooManyWords,
        }
    }
}

/// The message of a fault. `Unread` and `Told` print nothing. For `UnknownName`, `Ambiguous` and `EmptyWord`, the
/// program itself prints the option, or the file and line of the word.
impl fmt::Display for Fault {
    ghost use Rattle.std.specs.Prelude.{Some};
    ghost use Rattle.litscan.specs.Fault.{fault_text};

    ghost output = { λ fault. Some (fault_text fault) };

    fn fmt<W: fmt::Write>(&self, f: &mut fmt::Formatter<W>) -> fmt::Result {
        match self {
            Fault::Usage => write!(f, "usage: litscan [OPTION...] WORDS [FILE...]"),
            Fault::UnknownLetter(letter) => {
                let shown = char::from(shown_letter(*letter));
                let why = why_unknown(*letter);
                write!(
                    f,
                    "litscan: unknown option -{shown}{why}; litscan --help lists the options"
                )
            }
            Fault::UnknownName(number) => write!(
                f,
                "litscan: unknown option in argument {number}; litscan --help lists the options"
            ),
            Fault::Ambiguous(number) => write!(
                f,
                "litscan: ambiguous option in argument {number}; litscan --help lists the options"
            ),
            Fault::EmptyWord(number) => write!(f, "litscan: word {number} is empty"),
            Fault::TooManyWords => write!(f, "litscan: too many words"),
            Fault::OutOfMemory => write!(f, "litscan: out of memory"),
            Fault::ReadFailed => write!(f, "litscan: read failed"),
            Fault::Told => write!(f, "litscan: no words"),
            Fault::Unread => write!(f, "litscan: nobody reads"),
            Fault::WriteFailed => write!(f, "litscan: write failed"),
        }
    }
}

/// The letter of an option in a message: a question mark if the letter is not printable.
fn shown_letter(letter: u8) -> u8
    ensures { result ≡ shown_letter letter }
{
    if letter.is_ascii_graphic() {
        letter
    } else {
        b'?'
    }
}

/// The reason why an option of this letter is unknown, or nothing. In `grep`, E, G and P select other kinds of
/// patterns.
fn why_unknown(letter: u8) -> &'static str
    ensures { result.now ≡ why_unknown letter }
{
    match letter {
        b'E' | b'G' | b'P' => ", since litscan finds literals",
        _ => "",
    }
}
