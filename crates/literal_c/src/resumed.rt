//! An iteration over every occurrence, from a position on.
ghost use Rattle.std.specs.Prelude.{◌≡◌, ◌↔◌, IsTrue};
ghost use Rattle.literal_c.specs.Overlapping.{IsFrom};

use crate::finder::Occurrences;
use literal_search::{Damaged, Match, PreparedOverlappingMatches};
use std::marker::Model;

/// The occurrences of an iteration that end after an offset, or at it and have at least a pattern number. Contracts see
/// the iteration, the offset and that number.
#[derive(Drop)]
pub struct Resumed<'s, 'p, 'h> {
    matches: PreparedOverlappingMatches<'s, 'p, 'h>,
    end: usize,
    pattern: usize,
}

impl<'s, 'p, 'h> Model for Resumed<'s, 'p, 'h> {
    ghost use Rattle.literal_c.specs.Inside.Resumed.{ResumedValue};

    ghost Value = { ResumedValue };

    ghost view = { λ r. record { matches = r.matches; end = r.end; pattern = r.pattern } };
}

impl<'s, 'p, 'h> Resumed<'s, 'p, 'h> {
    /// The occurrences of an iteration from a position on.
    pub fn new(
        matches: PreparedOverlappingMatches<'s, 'p, 'h>,
        end: usize,
        pattern: usize,
    ) -> Resumed<'s, 'p, 'h>
        ensures { result ≡ record { matches = matches.entry; end = end; pattern = pattern } }
    {
        Resumed {
            matches,
            end,
            pattern,
        }
    }

    /// Whether an occurrence is at or after the position.
    fn has(&self, found: &Match) -> bool
        ensures { IsTrue result ↔ IsFrom self.now.end self.now.pattern found.now }
    {
        found.end() > self.end
            || found.end() == self.end && found.pattern().as_usize() >= self.pattern
    }
}

impl Occurrences for Resumed<'_, '_, '_> {
    ghost use Rattle.std.specs.Prelude.{slice_index};
    ghost use Rattle.literal_c.specs.Answers.{MayBeFound};
    ghost use Rattle.literal_c.specs.Overlapping.{IsFrom};
    ghost use Rattle.literal_c.specs.Inside.Resumed.{IsResumed};

    ghost stands_at = { IsResumed };

    ghost may_give = { λ r found. MayBeFound r.matches.span (slice_index r.matches.numbers 3) found
        × IsFrom r.end r.pattern found };

    fn next_match(&mut self) -> Result<Option<Match>, Damaged> {
        while let Some(it) = self.matches.next_match()? {
            if self.has(&it) {
                return Ok(Some(it));
            }
        }
        Ok(None)
    }
}
