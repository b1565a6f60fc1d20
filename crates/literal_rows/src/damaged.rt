//! The error of all searches over lent numbers.
use std::error::Error;
use std::fmt;

/// The lent numbers are not those of a prepared search.
#[derive(Clone, Copy, Debug, PartialEq, Eq, Drop)]
pub struct Damaged;

/// A short message.
impl fmt::Display for Damaged {
    ghost use Rattle.std.specs.Prelude.{Some, codes};

    ghost output = { λ _. Some (codes "the prepared search is damaged") };

    fn fmt<W: fmt::Write>(&self, f: &mut fmt::Formatter<W>) -> fmt::Result {
        write!(f, "the prepared search is damaged")
    }
}

impl Error for Damaged {}
