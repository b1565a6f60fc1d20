//! The patterns of a search, one after another.
ghost use Rattle.std.specs.Prelude.{◌≡◌, map};
ghost use Rattle.literal_search.specs.PatternsIter.{GivesPattern, left_to_give};

use std::marker::Model;

/// The iterator over the patterns of a search. Contracts see the patterns that are still to come.
#[derive(Clone, Drop)]
pub struct Patterns<'s> {
    left: &'s [Vec<u8>],
}

impl<'s> Model for Patterns<'s> {
    ghost use Rattle.std.specs.Prelude.{List, ℕ, map};

    ghost Value = { List (List ℕ) };

    ghost view = { λ p. map (λ pattern. pattern.items) p.left.now };
}

impl<'s> Patterns<'s> {
    /// The iterator over a list.
    pub(crate) fn of(patterns: &'s [Vec<u8>]) -> Patterns<'s>
        ensures { result ≡ map (λ pattern. pattern.items) patterns.now }
    {
        Patterns { left: patterns }
    }
}

impl<'s> Iterator for Patterns<'s> {
    type Item = &'s [u8];

    ghost next_gives = { GivesPattern };

    ghost remaining = { left_to_give };

    fn next(&mut self) -> Option<&'s [u8]> {
        let (first, left) = self.left.split_first()?;
        self.left = left;
        Some(first.as_slice())
    }
}
