//! The search for every occurrence in a text that is read in pieces.
ghost use Rattle.std.specs.Prelude.{IfOk};
ghost use Rattle.literal_search.specs.OverlappingStream.{BeginsStream};

use crate::Overlapping;
use literal_pieces::overlapping_stream::{self, OverlappingStreamMatches};
use std::alloc::{AllocError, Global};
use std::io::Read;

impl Overlapping {
    /// Returns an iterator over every occurrence in the text that a reader gives. They are those of
    /// [`Overlapping::find_overlapping_iter`] in the whole text, in the same order, with offsets in the whole text,
    /// whatever pieces it comes in. It looks up each byte once, and keeps none of those before: the buffer has 64 KiB,
    /// however long the patterns are. It reads on only when all occurrences that end in the bytes read were given. If
    /// reading fails, these come before the error.
    ///
    /// ```rust
    /// let search = Overlapping::new(alloc, false, [b"append".as_slice(), b"app", b"end"])?;
    /// let mut matches = search.find_overlapping_stream(alloc, b"append".as_slice())?;
    /// let first = matches.next().ok_or("nothing is found")??;
    /// assert!(rt; first.pattern().as_usize() == 1 && first.range() == (0..3));
    /// ```
    pub fn find_overlapping_stream<R: Read + Drop>(
        &self,
        alloc: Global,
        reader: R,
    ) -> Result<OverlappingStreamMatches<'_, R>, AllocError>
        ensures { IfOk result (BeginsStream self.now (R.remaining reader)) }
    {
        overlapping_stream::begin(self.automaton(), alloc, reader)
    }
}
