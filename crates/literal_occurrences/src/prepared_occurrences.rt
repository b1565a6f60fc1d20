//! The iteration over every occurrence by an array that its caller lends.
ghost use Rattle.std.specs.Prelude.{◌≡◌, ◌+◌, ◌*◌, ◌<◌, ◌≤◌, ◌↔◌, slice_index, ⊤};
ghost use Rattle.std.specs.Prelude.{IfOk, IfSome, IsTrue, MatchOption, MatchResult, None};
ghost use Rattle.std.specs.Result.{IsOkAnd};
ghost use Rattle.literal_base.specs.Occurs.{IsValidSpan};
ghost use Rattle.literal_leftmost.specs.Prepared.{LiesIn};
ghost use Rattle.literal_occurrences.specs.OverlappingMatchesValue.{GivesOverlapping};
ghost use Rattle.literal_occurrences.specs.PreparedOverlapping.{ForOverlapping, HasEnded, IsNotBefore, matches_for};

use crate::position::Position;
use crate::prepared_overlapping::{LentTables, PreparedOverlapping};
use literal_base::count::Tally;
use literal_base::{Match, Span};
use literal_rows::damaged::Damaged;
use std::marker::Model;

impl<'p> PreparedOverlapping<'p> {
    /// Returns an iterator over every occurrence in a span of the haystack, as `Overlapping::find_overlapping_in` does.
    /// With a changed array it may give other matches, or [`Damaged`]. But each match lies in the span, is not empty,
    /// and names one of the patterns; the ends ascend, and at one end the pattern numbers.
    pub fn find_overlapping_in<'s, 'h>(
        &'s self,
        haystack: &'h [u8],
        span: Span,
    ) -> PreparedOverlappingMatches<'s, 'p, 'h>
        requires { IsValidSpan haystack.now span }
        ensures { result ≡ record {
          numbers = self.now;
          haystack = haystack.now;
          span = span;
          end = span.start;
          pattern = 0;
        } }
    {
        let lent = self.lent();
        PreparedOverlappingMatches {
            lent,
            haystack,
            span,
            position: lent.before_all(haystack, span),
        }
    }
}

/// The iterator of [`PreparedOverlapping::find_overlapping_in`]. Contracts see the array, the haystack, the span, and
/// the end and pattern number from which occurrences are still to come. After [`Damaged`] or its first `None` it has
/// ended: it is at the end of the span, past the last pattern number.
#[derive(Drop)]
pub struct PreparedOverlappingMatches<'s, 'p, 'h> {
    lent: &'s LentTables<'p>,
    haystack: &'h [u8],
    span: Span,
    position: Position,
}

impl<'s, 'p, 'h> Model for PreparedOverlappingMatches<'s, 'p, 'h> {
    ghost use Rattle.literal_occurrences.specs.PreparedOverlapping.{PreparedOverlappingMatchesValue};
    ghost use Rattle.literal_occurrences.specs.Inside.LentTables.{AreLent, IsPositionBy, LiesAt};
    ghost use Rattle.literal_base.specs.Occurs.{IsValidSpan};

    ghost Value = { PreparedOverlappingMatchesValue };

    ghost view = { λ m. record {
      numbers = m.lent.now.header.numbers.now;
      haystack = m.haystack.now;
      span = m.span;
      end = m.position.at;
      pattern = m.position.pattern;
    } };

    ghost invariant = { λ m. AreLent m.lent.now × IsValidSpan m.haystack.now m.span × LiesAt m.span m.position
        × IsPositionBy m.lent.now m.haystack.now m.span m.position };
}

impl<'s, 'p, 'h> PreparedOverlappingMatches<'s, 'p, 'h> {
    /// Returns the next occurrence, as `OverlappingMatches` does, or `None` after the last. With a changed array, each
    /// match still ends after the previous one, or at the same offset with a greater pattern number. After `None` or
    /// [`Damaged`] it always answers `None`.
    pub fn next_match(&mut self) -> Result<Option<Match>, Damaged>
        ensures prepared { ForOverlapping self.old.numbers (λ search. IsOkAnd result (λ answer.
            GivesOverlapping (matches_for search self.old) answer (matches_for search self.new))) }
        ensures inside { IfOk result (λ answer. IfSome answer (LiesIn self.old.span)) }
        ensures pattern { IfOk result (λ answer. IfSome answer
            (λ found. found.pattern < slice_index self.old.numbers 3)) }
        ensures ordered { IfOk result (λ answer. IfSome answer
            (λ found. IsNotBefore found.end found.pattern self.old.end self.old.pattern
            × (self.new.end ≡ found.end) × (self.new.pattern ≡ found.pattern + 1))) }
        ensures over { MatchResult result (λ answer. MatchOption answer (HasEnded self.new) (λ _. ⊤))
            (λ _. HasEnded self.new) }
        ensures ended { HasEnded self.old → IsOkAnd result (λ answer. answer ≡ None) }
        ensures same { self.new ≡ record self.old { end = self.new.end; pattern = self.new.pattern } }
    {
        self.next_counted(&mut Tally::new())
    }

    /// Like `next_match`, and counts each looked-up byte in the tally, as scanned: with any array, at most three times
    /// the bytes by which its end advances. So an iteration looks up at most three times the bytes of the span.
    #[tactic(auto, using(crate::proofs::lemmas::LentTables::are_for))]
    pub fn next_counted(&mut self, tally: &mut Tally) -> Result<Option<Match>, Damaged>
        ensures prepared { ForOverlapping self.old.numbers (λ search. IsOkAnd result (λ answer.
            GivesOverlapping (matches_for search self.old) answer (matches_for search self.new))) }
        ensures inside { IfOk result (λ answer. IfSome answer (LiesIn self.old.span)) }
        ensures pattern { IfOk result (λ answer. IfSome answer
            (λ found. found.pattern < slice_index self.old.numbers 3)) }
        ensures ordered { IfOk result (λ answer. IfSome answer
            (λ found. IsNotBefore found.end found.pattern self.old.end self.old.pattern
            × (self.new.end ≡ found.end) × (self.new.pattern ≡ found.pattern + 1))) }
        ensures over { MatchResult result (λ answer. MatchOption answer (HasEnded self.new) (λ _. ⊤))
            (λ _. HasEnded self.new) }
        ensures ended { HasEnded self.old → IsOkAnd result (λ answer. answer ≡ None) }
        ensures same { self.new ≡ record self.old { end = self.new.end; pattern = self.new.pattern } }
        ensures others { tally.new ≡ record tally.old { scanned = tally.new.scanned } }
        ensures most { tally.new.scanned + 3 * self.old.end ≤ tally.old.scanned + 3 * self.new.end }
        ensures within { self.new.end ≤ self.old.span.end }
    {
        if self.has_ended() {
            return Ok(None);
        }
        let answer = self
            .lent
            .next_from(self.haystack, self.span, self.position, tally);
        if let Ok(Some((found, position))) = answer {
            self.position = position;
            return Ok(Some(found));
        }
        self.position = self.lent.after_all(self.haystack, self.span);
        answer?;
        Ok(None)
    }

    /// Whether it is after all occurrences.
    #[tactic(auto, using(crate::proofs::lemmas::LentTables::lengths_many))]
    fn has_ended(&self) -> bool
        ensures { IsTrue result ↔ HasEnded self.now }
    {
        let lent = self.lent;
        self.position.at == self.span.end && self.position.pattern == lent.header.lengths.len()
    }
}
