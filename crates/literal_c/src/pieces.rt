//! A list of byte strings from C.
ghost use Rattle.std.specs.Prelude.{◌≡◌, ◌↔◌, IsTrue, length};
ghost use Rattle.literal_c.specs.Pieces.{AreEnds, pieces};

use std::marker::Model;

/// An iterator over the pieces of a buffer. Contracts see the list of those that are left.
#[derive(Drop)]
pub struct Pieces<'b, 'e> {
    buffer: &'b [u8],
    from: usize,
    ends: &'e [usize],
}

impl<'b, 'e> Model for Pieces<'b, 'e> {
    ghost use Rattle.std.specs.Prelude.{List, ℕ, length};
    ghost use Rattle.literal_c.specs.Pieces.{AreEnds, pieces};

    ghost Value = { List (List ℕ) };

    ghost view = { λ p. pieces p.buffer.now p.from p.ends.now };

    ghost invariant = { λ p. AreEnds (length p.buffer.now) p.from p.ends.now };
}

impl<'b, 'e> Pieces<'b, 'e> {
    /// The pieces of a buffer that can be cut at these ends.
    pub fn new(buffer: &'b [u8], ends: &'e [usize]) -> Pieces<'b, 'e>
        requires { AreEnds (length buffer.now) 0 ends.now }
        ensures { result ≡ pieces buffer.now 0 ends.now }
    {
        Pieces {
            buffer,
            from: 0,
            ends,
        }
    }
}

impl<'b, 'e> Iterator for Pieces<'b, 'e> {
    ghost use Rattle.std.specs.Iterator.{YieldsFirstRef, item_count};

    type Item = &'b [u8];

    ghost next_gives = { YieldsFirstRef (λ left. left) };

    ghost remaining = { item_count (λ left. left) };

    fn next(&mut self) -> Option<&'b [u8]> {
        let (end, others) = self.ends.split_first()?;
        let piece = &self.buffer[self.from..*end];
        self.from = *end;
        self.ends = others;
        Some(piece)
    }
}

/// Whether a buffer of this length can be cut at the ends.
pub fn are_ends(len: usize, ends: &[usize]) -> bool
    ensures { IsTrue result ↔ AreEnds len 0 ends.now }
{
    let mut from = 0;
    for end in ends {
        if *end < from {
            return false;
        }
        from = *end;
    }
    from <= len
}
