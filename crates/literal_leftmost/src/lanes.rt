//! Four walks at once, through four parts of a block.
ghost use Rattle.std.specs.Prelude.{◌↔◌, IsTrue};
ghost use Rattle.literal_leftmost.specs.Inside.Leftmost.{HaveRows};

/// The most bytes that a scan for candidates looks up in addition to three times those that it passes over.
pub const OVERLAP: usize = 19;

/// The rows of four walks, each in one of four adjacent parts of a span, or the numbers that the walks read last.
#[derive(Clone, Copy)]
pub struct Lanes {
    pub first: usize,
    pub second: usize,
    pub third: usize,
    pub fourth: usize,
}

impl Lanes {
    /// Whether all four are rows below a limit. A number with the bit that says that a pattern begins is none.
    #[inline(always)]
    pub(crate) fn are_rows(&self, limit: usize) -> bool
        ensures { IsTrue result ↔ HaveRows limit self.now }
    {
        self.first < limit && self.second < limit && self.third < limit && self.fourth < limit
    }
}

/// The progress of four walks through their parts.
#[derive(Clone, Copy)]
pub struct Passed {
    /// The number of offsets left in each part, with the one that was read last, or 0 if no pattern begins there.
    pub left: usize,
    /// The numbers that the walks read last.
    pub codes: Lanes,
}

/// A block of a span for four walks at once.
#[derive(Clone, Copy)]
pub struct Block {
    /// The length of each of its four parts.
    pub part: usize,
    /// The number of bytes after its part where each walk begins.
    pub lead: usize,
    /// The end of the block: after the four parts, or the end of the span.
    pub end: usize,
}
