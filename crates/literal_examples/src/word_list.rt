//! A struct that has a search: its model, and what its proofs need.
ghost use Rattle.std.specs.Prelude.{◌≡◌, IfOk, IfSome, false, map, slice_range};
ghost use Rattle.literal_base.specs.Greedy.{IsGreedy};
ghost use Rattle.literal_base.specs.Leftmost.{IsLeftmost};
ghost use Rattle.literal_base.specs.Occurs.{pattern_at, whole_of};
ghost use Rattle.literal_examples.specs.WordList.{longest_of_words};

use literal_search::{BuildError, Match, MatchKind, Search};
use std::alloc::{AllocError, Global};
use std::marker::Model;

/// A list of words to search for: the longest at an offset is found, with case kept. Contracts see the words. The
/// invariant says that the match kind and the case of the search never change.
#[derive(Drop)]
pub struct WordList {
    search: Search,
}

impl Model for WordList {
    ghost use Rattle.std.specs.Prelude.{◌≡◌, List, false, ℕ};
    ghost use Rattle.literal_base.specs.declared.packed.MatchKind.TheVariants.{LeftmostLongest};

    ghost Value = { List (List ℕ) };

    ghost view = { λ list. list.search.query.patterns };

    ghost invariant = { λ list. (list.search.query.kind ≡ LeftmostLongest) × (list.search.ignore_case ≡ false) };
}

impl WordList {
    /// The list of these words.
    pub fn new(alloc: Global, words: &[&[u8]]) -> Result<WordList, BuildError>
        ensures { IfOk result (λ list. list ≡ map (λ word. word.now) words.now) }
    {
        let words = words.iter().copied();
        let search = Search::new(alloc, MatchKind::LeftmostLongest, false, words)?;
        Ok(WordList { search })
    }

    /// The leftmost word in a text. The text has exactly the word's bytes there.
    pub fn find(&self, text: &[u8]) -> Option<Match>
        ensures leftmost { IsLeftmost (longest_of_words self.now) false text.now (whole_of text.now) result }
        ensures bytes { IfSome result
            (λ found. slice_range text.now found.start found.end ≡ pattern_at self.now found.pattern) }
    {
        self.search.find(text)
    }

    /// All words in a text that do not overlap, from the left.
    pub fn find_all(&self, text: &[u8]) -> Result<Vec<Match>, AllocError>
        ensures { IfOk result (λ all. IsGreedy (longest_of_words self.now) false text.now 0 all.items) }
    {
        self.search.find_all(text)
    }
}
