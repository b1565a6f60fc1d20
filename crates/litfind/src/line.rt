//! The line of a match.
use literal_base::Match;
use std::fmt;

/// A match, to be printed as a line: `ID START END` and a line feed, with the pattern's identifier and the start and
/// end offset in bytes, in decimal.
#[derive(Clone, Copy, Debug, PartialEq, Eq)]
pub struct Line(pub Match);

impl fmt::Display for Line {
    ghost use Rattle.std.specs.Prelude.{Some};
    ghost use Rattle.litfind.specs.Lines.{line_of};

    ghost output = { λ line. Some (line_of line.0) };

    fn fmt<W: fmt::Write>(&self, f: &mut fmt::Formatter<W>) -> fmt::Result {
        let pattern = self.0.pattern().as_usize();
        let start = self.0.start();
        let end = self.0.end();
        writeln!(f, "{pattern} {start} {end}")
    }
}
