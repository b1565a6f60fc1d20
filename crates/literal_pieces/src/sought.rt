//! What a stream is searched for: the matches of a search, or whole words. The search goes through a block of it.
ghost use Rattle.std.specs.Prelude.{◌≡◌, ◌-◌, ◌≤◌, List, ℕ, IfSome, false, length, min, true};
ghost use Rattle.literal_base.specs.Occurs.{NoneIsEmpty, between};
ghost use Rattle.literal_leftmost.specs.Prepared.{LiesIn};
ghost use Rattle.literal_pieces.specs.Stream.{ScansMore};
ghost use Rattle.literal_pieces.specs.Inside.Sought.{AreTablesOf, IsFirst, IsOfKind, SoughtValue, margin_of};
ghost use Rattle.literal_pieces.specs.Inside.Sought.{most_in_block, reach_of, search_of};
ghost use Rattle.literal_pieces.specs.Inside.Stream.{IsThrough, looked_in_block};
ghost use Rattle.literal_rows.specs.Patterns.{longest_of};

use literal_base::count::Tally;
use literal_base::{Match, Span};
use literal_leftmost::backward::Continuation;
use literal_leftmost::cursor::Cursor;
use literal_words::word_search::Words;
use std::marker::Model;

/// Whether matches or whole words are searched for.
#[derive(Clone, Copy)]
pub enum SoughtKind {
    Matches,
    Words,
}

/// A search that can go through a stream.
pub trait Seeks {
    /// What it searches for.
    ghost value: { Self → SoughtValue };

    /// Whether it searches for matches or for whole words.
    fn kind(&self) -> SoughtKind
        ensures { IsOfKind result (value self.now) };

    /// The tables to search by. For matches only those of the walk count.
    fn tables(&self) -> Words<'_>
        ensures { AreTablesOf (value self.now) result };

    /// The number of patterns.
    fn patterns_len(&self) -> usize
        ensures { result ≡ length (search_of (value self.now)).query.patterns };

    /// The length of the longest pattern. None is empty.
    fn max_pattern_len(&self) -> usize
        ensures longest { result ≡ longest_of (search_of (value self.now)).query.patterns }
        ensures not_empty { NoneIsEmpty (search_of (value self.now)).query.patterns };
}

/// What a stream is searched for.
#[derive(Drop)]
pub struct Sought<'s, S: Seeks> {
    search: &'s S,
}

impl<'s, S: Seeks> Model for Sought<'s, S> {
    ghost use Rattle.literal_pieces.specs.Inside.Sought.{SoughtValue};

    ghost Value = { SoughtValue };

    ghost view = { λ s. S.value s.search.now };
}

impl<'s, S: Seeks> Sought<'s, S> {
    /// What this search searches for.
    pub fn by(search: &'s S) -> Sought<'s, S>
        ensures { result ≡ S.value search.now }
    {
        Sought { search }
    }

    /// Whether it is matches or whole words.
    fn kind(&self) -> SoughtKind
        ensures { IsOfKind result self.now }
    {
        self.search.kind()
    }

    /// The number of bytes on each side of a match that decide whether it counts.
    pub fn margin(&self) -> usize
        ensures { result ≡ margin_of self.now }
    {
        match self.kind() {
            SoughtKind::Matches => 0,
            SoughtKind::Words => 1,
        }
    }

    /// The number of bytes that decide about a match of the longest pattern, from its start on.
    pub fn reach(&self) -> usize
        ensures reach { result ≡ min (reach_of self.now) usize.MAX }
        ensures not_empty { NoneIsEmpty (search_of self.now).query.patterns }
    {
        self.search.max_pattern_len().saturating_add(self.margin())
    }

    /// The number of patterns.
    pub fn patterns_len(&self) -> usize
        ensures { result ≡ length (search_of self.now).query.patterns }
    {
        self.search.patterns_len()
    }
}

/// A search that goes through a block of a text, from one match to the next.
#[derive(Drop)]
pub struct BlockSearch<'s> {
    pub words: Words<'s>,
    /// Whether it goes through the block as it is now.
    pub is_begun: bool,
    pub span: Span,
    pub cursor: Cursor,
}

impl<'s> BlockSearch<'s> {
    /// A search that has not begun.
    pub fn new<S: Seeks>(sought: &Sought<'s, S>) -> BlockSearch<'s>
        ensures tables { AreTablesOf sought.now result.words }
        ensures not_begun { result.is_begun ≡ false }
    {
        BlockSearch {
            words: sought.search.tables(),
            is_begun: false,
            span: Span { start: 0, end: 0 },
            cursor: Cursor::new(0),
        }
    }

    /// Whether it goes through the block as it is now.
    pub fn is_begun(&self) -> bool
        ensures { result ≡ self.now.is_begun }
    {
        self.is_begun
    }

    /// Begins to go through a block, from an offset on.
    pub fn begin(&mut self, span: Span)
        requires { span.start ≤ span.end }
        ensures words { self.new.words ≡ self.old.words }
        ensures begun { self.new.is_begun ≡ true }
        ensures span { self.new.span ≡ span }
        ensures through { (sought : SoughtValue) (block : List ℕ) → span.end ≡ length block
            → IsThrough sought block span.start self.new }
    {
        self.is_begun = true;
        self.span = span;
        self.cursor = Cursor::new(span.start);
        self.cursor
            .make_room(self.words.backward.table.longest, span);
    }

    /// Ends at a block, which is about to change.
    pub fn end(&mut self)
        ensures { self.new ≡ record self.old { is_begun = false } }
    {
        self.is_begun = false;
    }

    /// The leftmost one in the block from an offset on, where the search continues.
    pub fn next_in<S: Seeks>(
        &mut self,
        sought: &Sought<'_, S>,
        haystack: &[u8],
        at: usize,
        tally: &mut Tally,
    ) -> Option<Match>
        requires tables { AreTablesOf sought.now self.old.words }
        requires through { IsThrough sought.now haystack.now at self.old }
        ensures first { IsFirst sought.now haystack.now at result }
        ensures inside { IfSome result (LiesIn (between at (length haystack.now))) }
        ensures same { self.new ≡ record self.old { cursor = self.new.cursor } }
        ensures through { IfSome result (λ found. IsThrough sought.now haystack.now found.end self.new) }
        ensures scans { ScansMore (looked_in_block sought.now self.old) (looked_in_block sought.now self.new)
            tally.old tally.new }
        ensures few { looked_in_block sought.now self.new
            ≤ most_in_block sought.now (self.new.span.end - self.new.span.start) }
    {
        let BlockSearch {
            words,
            span,
            cursor,
            ..
        } = self;
        match sought.kind() {
            SoughtKind::Matches => {
                let walk = &words.backward;
                let next = walk.next_in(haystack, *span, Continuation::AtEnd, cursor, tally);
                let Ok(answer) = next else {
                    unreachable!();
                };
                answer
            }
            SoughtKind::Words => {
                let next = words.next_word(haystack, haystack, *span, at, cursor, tally);
                let Ok(answer) = next else {
                    unreachable!();
                };
                answer
            }
        }
    }
}
