//! What streams search for: the matches of a `Search`, or the whole words of a `WholeWords`.
use crate::{Search, WholeWords};
use literal_base::alphabet::ByteSet;
use literal_pieces::sought::{Seeks, SoughtKind};
use literal_words::word_search::Words;

impl Seeks for Search {
    ghost use Rattle.literal_pieces.specs.Inside.Sought.{by_matches};

    ghost value = { by_matches };

    fn kind(&self) -> SoughtKind {
        SoughtKind::Matches
    }

    fn tables(&self) -> Words<'_> {
        Words::new(self.match_kind(), self.backward(), ByteSet::empty())
    }

    fn patterns_len(&self) -> usize {
        self.patterns_len()
    }

    fn max_pattern_len(&self) -> usize {
        let _ = self.patterns_len(); // (its contract says that no pattern is empty)
        self.max_pattern_len()
    }
}

impl Seeks for WholeWords {
    ghost use Rattle.literal_pieces.specs.Inside.Sought.{by_words};

    ghost value = { by_words };

    fn kind(&self) -> SoughtKind {
        SoughtKind::Words
    }

    fn tables(&self) -> Words<'_> {
        self.tables()
    }

    fn patterns_len(&self) -> usize {
        self.patterns_len()
    }

    fn max_pattern_len(&self) -> usize {
        let _ = self.patterns_len(); // (its contract says that no pattern is empty)
        self.parts.search.max_pattern_len()
    }
}
