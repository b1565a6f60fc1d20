//! A builder of searches, with a setter for each choice.
ghost use Rattle.std.specs.Prelude.{◌≡◌, IfErr, IfOk};
ghost use Rattle.literal_base.specs.Given.{CanBeTaken};
ghost use Rattle.literal_search.specs.Overlapping.{BuildsOverlapping};
ghost use Rattle.literal_search.specs.SearchBuilderValue.{default_builder};
ghost use Rattle.literal_search.specs.SearchValue.{BuildsSearch, NeedFewReversed, NeedFewStates, NeedTooManyReversed};
ghost use Rattle.literal_search.specs.SearchValue.{NeedTooManyStates, RefusesSearch};

use crate::{BuildError, MatchKind, Overlapping, Search};
use std::alloc::Global;
use std::marker::Model;

/// Builds a [`Search`] with a match kind, and with ASCII case ignored or kept. Each setter returns a builder with one
/// new setting, and the other unchanged.
///
/// ```rust
/// let builder = Search::builder().ascii_case_insensitive(true);
/// let search = builder.build(alloc, [b"password".as_slice(), b"secret"])?;
/// assert!(rt; search.is_match(b"My Secret.") && search.match_kind() == MatchKind::LeftmostFirst);
/// ```
#[derive(Clone, Copy, Debug, PartialEq, Eq)]
pub struct SearchBuilder {
    kind: MatchKind,
    ignore_case: bool,
}

impl Model for SearchBuilder {
    ghost use Rattle.literal_search.specs.SearchBuilderValue.{SearchBuilderValue};

    ghost Value = { SearchBuilderValue };

    ghost view = { λ builder. record { kind = builder.kind; ignore_case = builder.ignore_case } };

    ghost inverse = { λ value. record { kind = value.kind; ignore_case = value.ignore_case } };
}

/// The builder of [`Search::builder`].
impl Default for SearchBuilder {
    ghost is_default = { λ builder. builder ≡ default_builder };

    fn default() -> SearchBuilder {
        Search::builder()
    }
}

impl Search {
    /// Returns the default builder: [`MatchKind::LeftmostFirst`], with ASCII case kept.
    pub fn builder() -> SearchBuilder
        ensures { result ≡ default_builder }
    {
        SearchBuilder {
            kind: MatchKind::LeftmostFirst,
            ignore_case: false,
        }
    }
}

impl SearchBuilder {
    /// Sets the match kind, which decides between patterns that match at the same offset.
    pub fn match_kind(self, kind: MatchKind) -> SearchBuilder
        ensures { result ≡ record self { kind = kind } }
    {
        SearchBuilder { kind, ..self }
    }

    /// Sets whether ASCII case is ignored.
    pub fn ascii_case_insensitive(self, yes: bool) -> SearchBuilder
        ensures { result ≡ record self { ignore_case = yes } }
    {
        SearchBuilder {
            ignore_case: yes,
            ..self
        }
    }

    /// Builds the search for the patterns that an iterator gives, as [`Search::new`] does with these settings.
    pub fn build<'a, I: IntoIterator<Item = &'a [u8]>>(
        &self,
        alloc: Global,
        patterns: I,
    ) -> Result<Search, BuildError>
        requires { CanBeTaken I.into_iter_gives I.IntoIter.can_next I.IntoIter.remaining patterns }
        ensures ok { IfOk result
            (BuildsSearch I.into_iter_gives I.IntoIter.next_gives patterns self.now.kind self.now.ignore_case) }
        ensures few { IfOk result
            (λ built. NeedFewReversed self.now.ignore_case built.query.patterns) }
        ensures error { IfErr result (RefusesSearch I.into_iter_gives I.IntoIter.next_gives patterns
            (NeedTooManyReversed self.now.ignore_case)) }
    {
        Search::new(alloc, self.kind, self.ignore_case, patterns)
    }

    /// Builds the search for every occurrence of the patterns that an iterator gives, as [`Overlapping::new`] does with
    /// this setting of the case. The match kind makes no difference.
    pub fn build_overlapping<'a, I: IntoIterator<Item = &'a [u8]>>(
        &self,
        alloc: Global,
        patterns: I,
    ) -> Result<Overlapping, BuildError>
        requires { CanBeTaken I.into_iter_gives I.IntoIter.can_next I.IntoIter.remaining patterns }
        ensures ok { IfOk result
            (BuildsOverlapping I.into_iter_gives I.IntoIter.next_gives patterns self.now.ignore_case) }
        ensures few { IfOk result (λ built. NeedFewStates self.now.ignore_case built.patterns) }
        ensures error { IfErr result (RefusesSearch I.into_iter_gives I.IntoIter.next_gives patterns
            (NeedTooManyStates self.now.ignore_case)) }
    {
        Overlapping::new(alloc, self.ignore_case, patterns)
    }
}
