//! The match kind of searches for several patterns, and of the layers below.

/// Which occurrence is the match if several begin at the same offset.
#[derive(Clone, Copy, Debug, PartialEq, Eq)]
pub enum MatchKind {
    /// The one of the pattern that was added first.
    LeftmostFirst,
    /// The longest, and of the longest the one of the pattern that was added first.
    LeftmostLongest,
}

/// [`MatchKind::LeftmostFirst`].
impl Default for MatchKind {
    ghost use Rattle.std.specs.Prelude.{◌≡◌};
    ghost use Rattle.literal_base.specs.declared.packed.MatchKind.TheVariants.{LeftmostFirst};

    ghost is_default = { λ kind. kind ≡ LeftmostFirst };

    fn default() -> MatchKind {
        MatchKind::LeftmostFirst
    }
}
