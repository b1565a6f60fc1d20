//! Callers that rely only on contracts.
ghost use Rattle.std.specs.Prelude.{◌≡◌, ◌∷◌, [], List, false, length, IfOk, OnOk, IsNone, map, string_bytes};
ghost use Rattle.literal_base.specs.MatchValue.{MatchValue};
ghost use Rattle.literal_base.specs.Greedy.{IsGreedy};
ghost use Rattle.literal_packed.specs.BuilderValue.{BuilderValue, builder_of, searcher_of, with_added, BuildsSearcher};
ghost use Rattle.literal_packed.specs.ConfigValue.{default_config};
ghost use Rattle.literal_base.specs.Given.{CanBeTaken};
ghost use Rattle.literal_packed.specs.Lending.{HoldsAll};

use literal_prefilters::packed::pattern::{Pattern, PatternIter, Patterns};
use literal_prefilters::packed::{Builder, Config, MatchKind, Searcher};
use literal_prefilters::{Match, PatternID};
use std::alloc::{AllocError, Global};

/// Builds a searcher for two patterns in a chain of calls.
#[tactic(auto, using(literal_packed::proofs::lemmas::Callers::added_two))]
pub fn built_of_two(alloc: Global, a: &[u8], b: &[u8]) -> Result<Option<Searcher>, AllocError>
    ensures { IfOk result (λ built. built ≡ searcher_of (builder_of default_config (a.now ∷ b.now ∷ []))) }
{
    Builder::new(alloc).add(a)?.add(b)?.build()
}

/// The same with a match kind.
#[tactic(auto, using(literal_packed::proofs::lemmas::Callers::added_two))]
pub fn built_by_kind(
    alloc: Global,
    kind: MatchKind,
    a: &[u8],
    b: &[u8],
) -> Result<Option<Searcher>, AllocError>
    ensures { IfOk result (λ built. built ≡ searcher_of
        (builder_of (record default_config { kind = kind }) (a.now ∷ b.now ∷ []))) }
{
    Config::new()
        .match_kind(kind)
        .only_rabin_karp(true)
        .builder(alloc)
        .add(a)?
        .add(b)?
        .build()
}

/// Builds a searcher for the bytes of words, which are added in a loop.
pub fn built_of_words(alloc: Global, words: &[String]) -> Result<Option<Searcher>, AllocError>
    ensures { IfOk result (λ built. built ≡ searcher_of (builder_of default_config (map string_bytes words.now))) }
{
    let mut builder = Builder::new(alloc);
    for word in words {
        builder.add(word.as_bytes())?;
    }
    builder.build()
}

/// Builds a searcher for all items of an iterator, which has to end.
pub fn built_of_items<'a, I: IntoIterator<Item = &'a [u8]>>(
    alloc: Global,
    patterns: I,
) -> Result<Option<Searcher>, AllocError>
    requires { CanBeTaken I.into_iter_gives I.IntoIter.can_next I.IntoIter.remaining patterns }
    ensures { IfOk result (BuildsSearcher I.into_iter_gives I.IntoIter.next_gives patterns) }
{
    let mut builder = Builder::new(alloc);
    builder.extend(patterns)?;
    builder.build()
}

/// Adds all items of an iterator, which has to end, and one more pattern.
pub fn extend_and_add<'a, I: IntoIterator<Item = &'a [u8]>>(
    builder: &mut Builder,
    patterns: I,
    last: &[u8],
) -> Result<(), AllocError>
    requires { CanBeTaken I.into_iter_gives I.IntoIter.can_next I.IntoIter.remaining patterns }
    ensures { OnOk result ((mid : BuilderValue)
        × HoldsAll I.into_iter_gives I.IntoIter.next_gives patterns builder.old mid
        × (builder.new ≡ with_added mid (last.now ∷ []))) }
{
    builder.extend(patterns)?.add(last)?;
    Ok(())
}

/// The number of items of an iteration over all patterns.
#[tactic(auto, using(literal_packed::proofs::lemmas::Callers::length_in_order))]
pub fn count_of(patterns: &Patterns) -> usize
    ensures { result ≡ length patterns.now.patterns }
{
    patterns.iter().count()
}

/// The identifiers in the order in which the patterns are tried.
pub fn order_of(alloc: Global, patterns: &Patterns) -> Result<Vec<PatternID>, AllocError>
    ensures { IfOk result (λ ids. ids.items ≡ patterns.now.order) }
{
    let mut ids = Vec::new(alloc);
    for (id, _) in patterns.iter() {
        ids.push(id)?;
    }
    Ok(ids)
}

/// The next element of an iteration that has ended: there is none, now and afterwards.
pub fn next_at_end<'p>(items: &mut PatternIter<'p>) -> Option<(PatternID, Pattern<'p>)>
    requires { items.old ≡ [] }
    ensures none { IsNone result }
    ensures ended { items.new ≡ [] }
{
    items.next()
}

/// The matches that an iteration collects.
pub fn collected(
    alloc: Global,
    searcher: &Searcher,
    haystack: &[u8],
) -> Result<Vec<Match>, AllocError>
    ensures { IfOk result (λ all. IsGreedy searcher.now false haystack.now 0 all.items) }
{
    searcher.find_iter(haystack).collect(alloc)
}

/// The number of matches of an iteration.
pub fn count_of_matches(searcher: &Searcher, haystack: &[u8]) -> usize
    ensures { (all : List MatchValue) × IsGreedy searcher.now false haystack.now 0 all × (result ≡ length all) }
{
    searcher.find_iter(haystack).count()
}
