//! Prefilters that look for single bytes: for the one to three bytes with which all patterns begin, or for one to three
//! rare bytes, one of which is in each pattern.
ghost use Rattle.std.specs.Prelude.{◌≡◌};

use crate::prefilter::{ByteTable, Candidate, PrefilterI};
use literal_base::count::Tally;
use literal_base::search::Span;
use std::marker::Model;

/// Looks for the `COUNT` first bytes of all patterns. Contracts see its table.
#[derive(Drop)]
pub struct StartBytes<const COUNT: usize>(pub(super) ByteTable);

impl<const COUNT: usize> Model for StartBytes<COUNT> {
    ghost use Rattle.std.specs.Prelude.{ℕ, List, Option};
    ghost use Rattle.literal_prefilters.specs.Kinds.{HasBytes, ReachesNowhere};

    ghost Value = { List (Option ℕ) };

    ghost view = { λ pre. pre.0 };

    ghost invariant = { λ pre. HasBytes COUNT pre.0 × ReachesNowhere pre.0 };
}

impl<const COUNT: usize> StartBytes<COUNT> {
    /// A copy with the same table.
    pub(super) fn copy(&self) -> Self
        ensures { result ≡ self.now }
    {
        StartBytes(self.0.copy())
    }
}

impl<const COUNT: usize> PrefilterI for StartBytes<COUNT> {
    ghost use Rattle.literal_prefilters.specs.Kinds.{CoversAll, IsStep};
    ghost use Rattle.literal_prefilters.specs.Table.{reach_of};

    ghost covers = { CoversAll };

    ghost reach = { reach_of };

    ghost answers = { IsStep };

    fn find_in(&self, haystack: &[u8], span: Span, tally: &mut Tally) -> Candidate {
        let StartBytes(table) = self;
        table.candidate(haystack, span, tally)
    }
}

/// Looks for the one first byte of all patterns.
pub type StartBytesOne = StartBytes<1>;

/// Looks for the two first bytes of all patterns.
pub type StartBytesTwo = StartBytes<2>;

/// Looks for the three first bytes of all patterns.
pub type StartBytesThree = StartBytes<3>;

/// Looks for `COUNT` bytes, one of which is in each pattern. It proposes the offset of the byte that it finds, minus
/// the largest offset of this byte in a pattern. Contracts see its table.
#[derive(Drop)]
pub struct RareBytes<const COUNT: usize>(pub(super) ByteTable);

impl<const COUNT: usize> Model for RareBytes<COUNT> {
    ghost use Rattle.std.specs.Prelude.{ℕ, List, Option};
    ghost use Rattle.literal_prefilters.specs.Kinds.{HasBytes};

    ghost Value = { List (Option ℕ) };

    ghost view = { λ pre. pre.0 };

    ghost invariant = { λ pre. HasBytes COUNT pre.0 };
}

impl<const COUNT: usize> RareBytes<COUNT> {
    /// A copy with the same table.
    pub(super) fn copy(&self) -> Self
        ensures { result ≡ self.now }
    {
        RareBytes(self.0.copy())
    }
}

impl<const COUNT: usize> PrefilterI for RareBytes<COUNT> {
    ghost use Rattle.literal_prefilters.specs.Kinds.{CoversAll, IsStep};
    ghost use Rattle.literal_prefilters.specs.Table.{reach_of};

    ghost covers = { CoversAll };

    ghost reach = { reach_of };

    ghost answers = { IsStep };

    fn find_in(&self, haystack: &[u8], span: Span, tally: &mut Tally) -> Candidate {
        let RareBytes(table) = self;
        table.candidate(haystack, span, tally)
    }
}

/// Looks for one byte that is in each pattern.
pub type RareBytesOne = RareBytes<1>;

/// Looks for two bytes, one of which is in each pattern.
pub type RareBytesTwo = RareBytes<2>;

/// Looks for three bytes, one of which is in each pattern.
pub type RareBytesThree = RareBytes<3>;
