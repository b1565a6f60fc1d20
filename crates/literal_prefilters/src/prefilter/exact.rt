//! Prefilters that search exactly: their answer is a match or nothing, never just a possible start.
ghost use Rattle.std.specs.Prelude.{◌≡◌, length, IfOk, Some, false};
ghost use Rattle.literal_base.specs.Leftmost.{IsLeftmost};
ghost use Rattle.literal_base.specs.Occurs.{IsValidSpan, pattern_at};
ghost use Rattle.literal_base.specs.declared.packed.MatchKind.TheVariants.{LeftmostFirst};
ghost use Rattle.literal_packed.specs.BuilderValue.{builder_of, searcher_of};
ghost use Rattle.literal_packed.specs.ConfigValue.{default_config};
ghost use Rattle.literal_packed.specs.Pairs.{counts_after};
ghost use Rattle.literal_packed.specs.PatternsValue.{IsInOrder};
ghost use Rattle.literal_prefilters.specs.Exact.{query_of_one};

use super::tables;
use crate::prefilter::{Candidate, PrefilterI};
use literal_base::count::Tally;
use literal_base::packed::MatchKind;
use literal_base::search::{Match, Span};
use literal_packed::pattern::Patterns;
use literal_packed::{Config, Searcher};
use std::alloc::{AllocError, Global};
use std::marker::Model;

/// Finds one pattern, by a packed search. Contracts see the pattern.
#[derive(Drop)]
pub struct Memmem {
    searcher: Searcher,
}

impl Model for Memmem {
    ghost use Rattle.std.specs.Prelude.{◌≡◌, ℕ, List};
    ghost use Rattle.literal_base.specs.Occurs.{pattern_at};
    ghost use Rattle.literal_prefilters.specs.Exact.{query_of_one};

    ghost Value = { List ℕ };

    ghost view = { λ pre. pattern_at pre.searcher.patterns 0 };

    ghost invariant = { λ pre. pre.searcher ≡ query_of_one (pattern_at pre.searcher.patterns 0) };
}

impl Memmem {
    /// Finds the only pattern of a list.
    pub(super) fn new(alloc: Global, patterns: &Patterns) -> Result<Option<Memmem>, AllocError>
        requires one { length patterns.now.patterns ≡ 1 }
        ensures { IfOk result (λ built. built ≡ Some (pattern_at patterns.now.patterns 0)) }
    {
        let _ = patterns.len(); // (its contract says that no pattern is empty)
        let Some(packed) = Packed::new(alloc, patterns, MatchKind::LeftmostFirst)? else {
            return Ok(None);
        };
        Ok(Some(Memmem {
            searcher: packed.searcher,
        }))
    }

    /// A copy for the same pattern.
    pub(super) fn try_clone(&self) -> Result<Memmem, AllocError>
        ensures { IfOk result (λ copy. copy ≡ self.now) }
    {
        Ok(Memmem {
            searcher: self.searcher.try_clone()?,
        })
    }

    /// The first occurrence of the pattern that lies whole in the span.
    pub(super) fn find(&self, haystack: &[u8], span: Span, tally: &mut Tally) -> Option<Match>
        requires { IsValidSpan haystack.now span }
        ensures leftmost { IsLeftmost (query_of_one self.now) false haystack.now span result }
        ensures exact { tally.new ≡ counts_after tally.old (query_of_one self.now) haystack.now span result }
    {
        self.searcher.find_in_counted(haystack, span, tally)
    }
}

impl PrefilterI for Memmem {
    ghost use Rattle.std.specs.Prelude.{ℕ, List};
    ghost use Rattle.literal_prefilters.specs.Exact.{query_of_one, CoversPattern, IsExactStep};

    ghost covers = { CoversPattern };

    ghost reach = { λ _. 0 };

    ghost answers = { λ pattern. IsExactStep (query_of_one pattern) };

    fn find_in(&self, haystack: &[u8], span: Span, tally: &mut Tally) -> Candidate {
        match self.find(haystack, span, tally) {
            Some(found) => Candidate::Match(found),
            None => Candidate::None,
        }
    }
}

/// Finds some patterns, by a packed search. Contracts see the query.
#[derive(Drop)]
pub struct Packed {
    pub(super) searcher: Searcher,
}

impl Model for Packed {
    ghost use Rattle.literal_base.specs.Query.{Query};

    ghost Value = { Query };

    ghost view = { λ pre. pre.searcher };
}

impl Packed {
    /// Finds these patterns with this match kind, if a searcher can be built for them: there are 1 to 128.
    pub(super) fn new(
        alloc: Global,
        patterns: &Patterns,
        kind: MatchKind,
    ) -> Result<Option<Packed>, AllocError>
        ensures { IfOk result (λ built. built ≡ searcher_of
            (builder_of (record default_config { kind = kind }) patterns.now.patterns)) }
    {
        let mut config = Config::new();
        config.match_kind(kind);
        let mut builder = config.builder(alloc);
        for id in 0..patterns.len() {
            builder.add(tables::bytes_of(patterns, id))?;
        }
        let Some(searcher) = builder.build()? else {
            return Ok(None);
        };
        Ok(Some(Packed { searcher }))
    }

    /// A copy for the same search.
    pub(super) fn try_clone(&self) -> Result<Packed, AllocError>
        ensures { IfOk result (λ copy. copy ≡ self.now) }
    {
        Ok(Packed {
            searcher: self.searcher.try_clone()?,
        })
    }
}

impl PrefilterI for Packed {
    ghost use Rattle.literal_prefilters.specs.Exact.{CoversQuery, IsExactStep};

    ghost covers = { CoversQuery };

    ghost reach = { λ _. 0 };

    ghost answers = { IsExactStep };

    fn find_in(&self, haystack: &[u8], span: Span, tally: &mut Tally) -> Candidate {
        match self.searcher.find_in_counted(haystack, span, tally) {
            Some(found) => Candidate::Match(found),
            None => Candidate::None,
        }
    }
}
