//! A folded text.
ghost use Rattle.std.specs.Prelude.{◌≡◌, ◌<◌, [], IfOk, OnErr, OnOk, length};
ghost use Rattle.literal_folding.specs.Folding.{folded};

use crate::fold::fold_in_place;
use std::alloc::{AllocError, Global};
use std::marker::Model;

/// A folded text, for [`FoldedSearch`](crate::FoldedSearch). Offsets in it are those in the text. Contracts see its
/// bytes.
#[derive(Drop)]
pub struct FoldedText {
    bytes: Vec<u8>,
}

impl Model for FoldedText {
    ghost use Rattle.std.specs.Prelude.{List, ℕ};

    ghost Value = { List ℕ };

    ghost view = { λ text. text.bytes.items };
}

impl FoldedText {
    /// Returns an empty text.
    pub fn empty(alloc: Global) -> FoldedText
        ensures { result ≡ [] }
    {
        FoldedText {
            bytes: Vec::new(alloc),
        }
    }

    /// Returns the text, folded. Allocates only if it is not empty.
    pub fn new(alloc: Global, text: &[u8]) -> Result<FoldedText, AllocError>
        ensures ok { IfOk result (λ new. new ≡ folded text.now) }
        ensures error { OnErr result (0 < length text.now) }
    {
        let mut new = FoldedText::empty(alloc);
        new.set(text)?;
        Ok(new)
    }

    /// Replaces the text by another one, folded, in the same memory if there is room. If memory is refused, it is
    /// unchanged.
    pub fn set(&mut self, text: &[u8]) -> Result<(), AllocError>
        ensures ok { OnOk result (self.new ≡ folded text.now) }
        ensures error { OnErr result (self.new ≡ self.old) }
        ensures some { OnErr result (0 < length text.now) }
    {
        self.bytes
            .reserve(text.len().saturating_sub(self.bytes.len()))?;
        self.bytes.clear();
        self.bytes.extend_from_slice(text)?;
        fold_in_place(&mut self.bytes);
        Ok(())
    }

    /// Returns its bytes.
    pub fn as_bytes(&self) -> &[u8]
        ensures { result.now ≡ self.now }
    {
        &self.bytes
    }
}
