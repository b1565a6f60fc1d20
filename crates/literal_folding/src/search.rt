//! The search for leftmost matches with Unicode's case ignored.
ghost use Rattle.std.specs.Prelude.{◌≡◌, ◌<◌, ◌≤◌, ◌↔◌, ◌++◌, ◌∷◌, [], ℕ, IfErr, IfOk, IfSome, IsTrue, OnErr, false};
ghost use Rattle.std.specs.Prelude.{length, map};
ghost use Rattle.std.specs.Option.{option_map};
ghost use Rattle.literal_base.specs.Given.{CanBeTaken};
ghost use Rattle.literal_base.specs.Greedy.{IsGreedy};
ghost use Rattle.literal_base.specs.Leftmost.{IsLeftmost};
ghost use Rattle.literal_base.specs.Occurs.{IsValidSpan, Occurs, whole_of};
ghost use Rattle.literal_search.specs.MatchesValue.{matches_of};
ghost use Rattle.literal_search.specs.SearchValue.{CanBeKept, GivesAll, MayRefuseList, NeedTooManyReversed};
ghost use Rattle.literal_search.specs.SearchValue.{RefusesSearch, search_by};
ghost use Rattle.literal_search.specs.Stream.{stream_of};
ghost use Rattle.literal_folding.specs.FoldedSearchValue.{AreFolded, BuildsFolded, NeedTooManyFolded, RefusesFolded};
ghost use Rattle.literal_folding.specs.FoldedSearchValue.{kept_case};
ghost use Rattle.literal_folding.specs.Folding.{folded};

use crate::fold::fold_in_place;
use crate::reader::FoldedReader;
use crate::text::FoldedText;
use literal_base::packed::MatchKind;
use literal_base::{Match, Span};
use literal_ids::PatternID;
use literal_search::{BuildError, Matches, Search, StreamMatches};
use std::alloc::{AllocError, Global};
use std::io::Read;
use std::marker::Model;

/// Searches for leftmost matches of any number of patterns, with Unicode's case ignored: for the folded patterns in a
/// folded text. Offsets are those in the text. Contracts see the match kind, and the folded patterns.
///
/// A [`FoldedText`] is folded once, and can be searched by several searches. [`FoldedSearch::find_stream`] folds block
/// by block, and does not hold the whole text.
///
/// ```rust
/// let words = ["пример".as_bytes(), b"example"];
/// let search = FoldedSearch::new(alloc, MatchKind::LeftmostFirst, words)?;
/// let text = FoldedText::new(alloc, "Это ПРИМЕР.".as_bytes())?;
/// let found = search.find(&text).ok_or("nothing is found")?;
/// assert!(rt; found.pattern().as_usize() == 0 && found.range() == (7..19));
/// ```
#[derive(Drop)]
pub struct FoldedSearch {
    search: Search,
}

impl Model for FoldedSearch {
    ghost use Rattle.std.specs.Prelude.{◌≡◌, false};
    ghost use Rattle.literal_base.specs.Query.{Query};

    ghost Value = { Query };

    ghost view = { λ s. s.search.query };

    ghost invariant = { λ s. s.search.ignore_case ≡ false };
}

impl FoldedSearch {
    /// Builds a search for the patterns that an iterator gives, with this match kind. The iterator has to end. A
    /// pattern may be any bytes. The errors are those of [`Search::new`].
    pub fn new<'a, I: IntoIterator<Item = &'a [u8]>>(
        alloc: Global,
        kind: MatchKind,
        patterns: I,
    ) -> Result<FoldedSearch, BuildError>
        requires { CanBeTaken I.into_iter_gives I.IntoIter.can_next I.IntoIter.remaining patterns }
        ensures ok { IfOk result (BuildsFolded I.into_iter_gives I.IntoIter.next_gives patterns kind) }
        ensures error { IfErr result (RefusesSearch I.into_iter_gives I.IntoIter.next_gives patterns
            NeedTooManyFolded) }
    {
        let patterns = folded_copies(alloc, patterns)?;
        let search = build(alloc, kind, &patterns)?;
        Ok(FoldedSearch { search })
    }

    /// Returns the leftmost match in the whole text, as [`FoldedSearch::find_in`] does for a span.
    pub fn find(&self, text: &FoldedText) -> Option<Match>
        ensures leftmost { IsLeftmost self.now false text.now (whole_of text.now) result }
        ensures not_empty { IfSome result (λ found. found.start < found.end) }
    {
        self.search.find(text.as_bytes())
    }

    /// Returns the leftmost match in a span of the text, as [`Search::find_in`] does. The span has to be valid: `start`
    /// is at most `end`, and `end` at most the text's length.
    pub fn find_in(&self, text: &FoldedText, span: Span) -> Option<Match>
        requires { IsValidSpan text.now span }
        ensures leftmost { IsLeftmost self.now false text.now span result }
        ensures not_empty { IfSome result (λ found. found.start < found.end) }
    {
        self.search.find_in(text.as_bytes(), span)
    }

    /// Returns the number of patterns. None of them is empty.
    pub fn patterns_len(&self) -> usize
        ensures len { result ≡ length self.now.patterns }
        ensures patterns { CanBeKept self.now.patterns }
    {
        self.search.patterns_len()
    }

    /// Returns whether a pattern occurs in the text.
    pub fn is_match(&self, text: &FoldedText) -> bool
        ensures { IsTrue result ↔ ((i : ℕ) × (at : ℕ)
            × Occurs self.now.patterns false text.now (whole_of text.now) i at) }
    {
        self.search.is_match(text.as_bytes())
    }

    /// Returns an iterator over all matches in the text that do not overlap, like [`Search::find_iter`].
    pub fn find_iter<'s, 't>(&'s self, text: &'t FoldedText) -> Matches<'s, 't>
        ensures { result ≡ matches_of (kept_case self.now) text.now }
    {
        self.search.find_iter(text.as_bytes())
    }

    /// Returns the list of all matches that [`FoldedSearch::find_iter`] gives.
    pub fn find_all(&self, text: &FoldedText) -> Result<Vec<Match>, AllocError>
        ensures greedy { IfOk result (λ all. IsGreedy self.now false text.now 0 all.items) }
        ensures no_memory { OnErr result (MayRefuseList (kept_case self.now) text.now (whole_of text.now)) }
    {
        self.search.find_all(text.as_bytes())
    }

    /// Returns an iterator over all matches in the text that a reader gives, like [`Search::find_stream`]. Only a
    /// window of the text is kept. Offsets are in the whole text. A haystack in memory is a reader too. It allocates
    /// the window, and 4 KiB more.
    pub fn find_stream<R: Read + Drop>(
        &self,
        alloc: Global,
        reader: R,
    ) -> Result<StreamMatches<'_, FoldedReader<R>>, AllocError>
        ensures { IfOk result (λ m. m ≡ stream_of (kept_case self.now) (option_map folded (R.remaining reader))) }
    {
        let reader = FoldedReader::new(alloc, reader)?;
        self.search.find_stream(alloc, reader)
    }
}

/// The search for folded patterns, with case kept.
fn build(alloc: Global, kind: MatchKind, patterns: &[Vec<u8>]) -> Result<Search, BuildError>
    requires { CanBeKept (map (λ pattern. pattern.items) patterns.now) }
    ensures ok { IfOk result (λ search. search ≡ search_by kind false (map (λ pattern. pattern.items) patterns.now)) }
    ensures error { IfErr result (RefusesFolded (map (λ pattern. pattern.items) patterns.now)) }
{
    let patterns = patterns.iter().map(|pattern| pattern.as_slice());
    let search = Search::new(alloc, kind, false, patterns)?;
    Ok(search)
}

/// Folded copies of the patterns that an iterator gives.
fn folded_copies<'a, I: IntoIterator<Item = &'a [u8]>>(
    alloc: Global,
    patterns: I,
) -> Result<Vec<Vec<u8>>, BuildError>
    requires { CanBeTaken I.into_iter_gives I.IntoIter.can_next I.IntoIter.remaining patterns }
    ensures ok { IfOk result (λ all. AreFolded I.into_iter_gives I.IntoIter.next_gives patterns
        (map (λ pattern. pattern.items) all.items)) }
    ensures error { IfErr result (RefusesSearch I.into_iter_gives I.IntoIter.next_gives patterns NeedTooManyFolded) }
{
    let mut all = Vec::new(alloc);
    for bytes in patterns {
        if bytes.is_empty() {
            return Err(BuildError::EmptyPattern(all.len()));
        }
        if all.len() == PatternID::LIMIT {
            return Err(BuildError::TooManyPatterns);
        }
        push_folded(alloc, &mut all, bytes)?;
    }
    Ok(all)
}

/// Adds a folded copy of a pattern. If memory is refused, the list is unchanged.
fn push_folded(alloc: Global, lists: &mut Vec<Vec<u8>>, bytes: &[u8]) -> Result<(), AllocError>
    ensures { IfOk result (λ _. map (λ pattern. pattern.items) lists.new.items
        ≡ map (λ pattern. pattern.items) lists.old.items ++ folded bytes.now ∷ []) }
{
    let mut copy = Vec::from_slice(alloc, bytes)?;
    fold_in_place(&mut copy);
    lists.push(copy)?;
    Ok(())
}
