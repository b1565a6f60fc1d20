//! A reader that folds the text of another one.
ghost use Rattle.std.specs.Prelude.{◌≡◌, IfOk};
ghost use Rattle.std.specs.Option.{option_map};
ghost use Rattle.literal_folding.specs.Folding.{folded};

use crate::block::Block;
use std::alloc::{AllocError, Global};
use std::io::{self, Read};
use std::marker::Model;

/// A reader that gives the folded text of another reader, with the same length. If reading fails, no byte is lost.
/// Contracts see the folded bytes that are still to be given, if they are known.
#[derive(Drop)]
pub struct FoldedReader<R: Read + Drop> {
    reader: R,
    block: Block,
}

impl<R: Read + Drop> Model for FoldedReader<R> {
    ghost use Rattle.std.specs.Prelude.{List, Option, ℕ};
    ghost use Rattle.literal_folding.specs.Inside.Blocks.{IsSound, rest_of};

    ghost Value = { Option (List ℕ) };

    ghost view = { λ f. rest_of f.block (R.remaining f.reader) };

    ghost invariant = { λ f. IsSound f.block };
}

impl<R: Read + Drop> FoldedReader<R> {
    /// Returns a reader that folds the text of the given one. It allocates 4 KiB.
    pub fn new(alloc: Global, reader: R) -> Result<FoldedReader<R>, AllocError>
        ensures { IfOk result (λ f. f ≡ option_map folded (R.remaining reader)) }
    {
        let block = Block::new(alloc)?;
        Ok(FoldedReader { reader, block })
    }
}

impl<R: Read + Drop> Read for FoldedReader<R> {
    ghost remaining = { λ f. f };

    fn read(&mut self, buf: &mut [u8]) -> io::Result<usize> {
        self.block.fill(&mut self.reader)?;
        Ok(self.block.give(buf))
    }
}
