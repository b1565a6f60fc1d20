//! The progress of reading a text.
ghost use Rattle.std.specs.Prelude.{◌≡◌, ◌==◌, ◌<◌, ◌≤◌, ◌↔◌, IsTrue, List, MatchResult, None, Ok, Option, Some, ℕ};
ghost use Rattle.std.specs.Prelude.{false, length, take};
ghost use Rattle.std.specs.Io.KnownBytes.{Consumes, IsAtEnd};
ghost use Rattle.std.specs.IoError.{error_kind};
ghost use Rattle.std.specs.Option.{option_map};
ghost use Rattle.literal_pieces.specs.Inside.Stream.{IsOpen, IsSoundReading};

use std::io::{self, ErrorKind, Read};

/// Whether all of a text was read, and the error if reading failed. Only a call that reads changes this.
#[derive(Drop)]
pub struct Reading {
    is_whole: bool,
    failure: Option<ErrorKind>,
    /// The error, until it is given.
    error: Option<io::Error>,
    /// The number of bytes that the last read gave. Only contracts look at it.
    last: usize,
}

impl Reading {
    /// Nothing was read yet.
    pub fn new() -> Reading
        ensures { result ≡ record { is_whole = false; failure = None; error = None; last = 0 } }
    {
        Reading {
            is_whole: false,
            failure: None,
            error: None,
            last: 0,
        }
    }

    /// Whether the whole text was read.
    pub fn is_whole(&self) -> bool
        ensures { result ≡ self.now.is_whole }
    {
        self.is_whole
    }

    /// Whether more may be read.
    pub fn is_open(&self) -> bool
        ensures { IsTrue result ↔ IsOpen self.now }
    {
        !self.is_whole && self.error.is_none()
    }

    /// Reads some bytes of the text, or none if it has ended or reading fails. There has to be room for one.
    pub fn read<R: Read>(&mut self, reader: &mut R, bytes: &mut [u8]) -> usize
        requires open { IsOpen self.old }
        requires no_failure { self.old.failure ≡ None }
        requires room { 0 < length bytes.old }
        ensures bound { result ≤ length bytes.new }
        ensures bytes { Consumes (R.remaining reader.old) (R.remaining reader.new) (take result bytes.new) }
        ensures sound { IsSoundReading self.new (R.remaining reader.new) }
        ensures some { IsOpen self.new → 0 < result }
        ensures last { self.new.last ≡ result }
    {
        let answer = reader.read(bytes);
        self.take_in(answer)
    }

    /// Fails, since a `usize` cannot count more of the text than these bytes.
    pub fn stop(&mut self, counted: usize)
        requires open { IsOpen self.old }
        requires no_failure { self.old.failure ≡ None }
        requires all { counted ≡ usize.MAX }
        ensures kind { self.new.failure ≡ Some ErrorKind.FileTooLarge }
        ensures failure { self.new.failure ≡ option_map error_kind self.new.error }
        ensures in_part { self.new.is_whole ≡ false }
    {
        self.take_in(Err(io::Error::from(ErrorKind::FileTooLarge)));
    }

    /// The number of bytes that a read gave. If it is 0, the text has ended. An error is kept until it is given.
    fn take_in(&mut self, answer: io::Result<usize>) -> usize
        requires open { IsOpen self.old }
        requires no_failure { self.old.failure ≡ None }
        ensures told { MatchResult answer
            (λ count. (result ≡ count) × (self.new ≡ record self.old { is_whole = count == 0; last = count }))
            (λ error. (result ≡ 0) × (self.new ≡ record self.old {
              failure = Some (error_kind error);
              error = Some error;
              last = 0;
            })) }
        ensures sound { (unread : Option (List ℕ)) → (answer ≡ Ok 0 → IsAtEnd unread) → IsSoundReading self.new unread }
    {
        match answer {
            Ok(count) => {
                self.is_whole = count == 0;
                self.last = count;
                count
            }
            Err(error) => {
                self.failure = Some(error.kind());
                self.error = Some(error);
                self.last = 0;
                0
            }
        }
    }

    /// The error with which reading failed, if it did, to be given.
    pub fn take_error(&mut self) -> Option<io::Error>
        requires { self.old.failure ≡ option_map error_kind self.old.error }
        ensures failure { self.new.failure ≡ self.old.failure }
        ensures is_whole { self.new.is_whole ≡ self.old.is_whole }
        ensures error { self.new.failure ≡ option_map error_kind result }
    {
        self.error.take()
    }
}
