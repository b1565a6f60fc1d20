//! Searches in texts that may continue: what is known of the leftmost match, and searches by a lent array.
ghost use Rattle.std.specs.Prelude.{◌≡◌, ◌+◌, ◌-◌, ◌*◌, ◌≤◌, ◌++◌, ℕ, Bool, List, IfOk, IfSome, length, slice_index};
ghost use Rattle.std.specs.Result.{IsOkAnd};
ghost use Rattle.literal_leftmost.specs.Prepared.{ForPrepared, longest_in};
ghost use Rattle.literal_base.specs.Leftmost.{IsLeftmost};
ghost use Rattle.literal_base.specs.Occurs.{between};
ghost use Rattle.literal_base.specs.Query.{Query};
ghost use Rattle.literal_leftmost.specs.Prepared.{LiesIn};
ghost use Rattle.literal_leftmost.specs.SearchValue.{longest_of};
ghost use Rattle.literal_leftmost.specs.SoFar.{TellsOf};
ghost use Rattle.literal_leftmost.specs.SoFar.{AnswersSoFar, IsKnownBy, MayBeKnown, ScansSoFar};

use crate::prepared_search::Prepared;
use literal_base::count::Tally;
use literal_base::{Match, Span};
use literal_rows::damaged::Damaged;

/// What is known of the leftmost match in a text from its beginning alone.
#[derive(Clone, Copy, Debug, PartialEq, Eq)]
pub enum SoFar {
    /// This is the match, whatever follows.
    Found(Match),
    /// No match begins before this offset, whatever follows.
    NoneBefore(usize),
}

impl<'p> Prepared<'p> {
    /// Returns what is known of the leftmost match from an offset on, where the haystack is the beginning of a text and
    /// anything may follow, as `Search::find_so_far` does. With a changed array the answer may be another one, or
    /// [`Damaged`]. But a match lies in the haystack from `at` on, is not empty, and names one of the patterns, and a
    /// returned offset lies there too. `at` has to be at most the haystack's length.
    pub fn find_so_far(&self, haystack: &[u8], at: usize) -> Result<SoFar, Damaged>
        requires { at ≤ length haystack.now }
        ensures whatever_follows { ForPrepared self.now (λ search. (more : List ℕ) → IsOkAnd result
            (AnswersSoFar search.query search.ignore_case (haystack.now ++ more) at)) }
        ensures known { IfOk result (IsKnownBy (longest_in self.now) (length haystack.now) at) }
        ensures inside { IfOk result (MayBeKnown (slice_index self.now 3) at) }
    {
        let end = haystack.len();
        let found = self.find_in(haystack, Span { start: at, end })?;
        Ok(so_far(haystack, at, self.max_pattern_len(), found))
    }

    /// Like [`Prepared::find_so_far`], and counts each looked-up byte in the tally, as scanned: with any array, at most
    /// three times the bytes from `at` on. The other bounds of `Search::find_so_far_counted` hold too.
    pub fn find_so_far_counted(
        &self,
        haystack: &[u8],
        at: usize,
        tally: &mut Tally,
    ) -> Result<SoFar, Damaged>
        requires { at ≤ length haystack.now }
        ensures whatever_follows { ForPrepared self.now (λ search. (more : List ℕ) → IsOkAnd result
            (AnswersSoFar search.query search.ignore_case (haystack.now ++ more) at)) }
        ensures known { IfOk result (IsKnownBy (longest_in self.now) (length haystack.now) at) }
        ensures inside { IfOk result (MayBeKnown (slice_index self.now 3) at) }
        ensures bounded { IfOk result (λ answer.
            ScansSoFar (longest_in self.now) (length haystack.now) at answer tally.old tally.new) }
        ensures others { tally.new ≡ record tally.old { scanned = tally.new.scanned } }
        ensures most { tally.new.scanned ≤ tally.old.scanned + 3 * (length haystack.now - at) }
    {
        let end = haystack.len();
        let found = self.find_in_counted(haystack, Span { start: at, end }, tally)?;
        Ok(so_far(haystack, at, self.max_pattern_len(), found))
    }
}

/// What is known, if more may follow, from the leftmost match from an offset on and the longest pattern's length.
pub fn so_far(haystack: &[u8], at: usize, longest: usize, leftmost: Option<Match>) -> SoFar
    requires within { at ≤ length haystack.now }
    requires inside { IfSome leftmost (LiesIn (between at (length haystack.now))) }
    ensures whatever_follows { (query : Query) (ignore_case : Bool) (more : List ℕ)
        → longest ≡ longest_of query.patterns
        → IsLeftmost query ignore_case haystack.now (between at (length haystack.now)) leftmost
        → AnswersSoFar query ignore_case (haystack.now ++ more) at result }
    ensures known { IsKnownBy longest (length haystack.now) at result }
    ensures told { TellsOf leftmost result }
{
    let end = haystack.len();
    if let Some(found) = leftmost {
        if end - found.start() >= longest {
            return SoFar::Found(found);
        }
    }
    SoFar::NoneBefore(at.max(end.saturating_sub(longest.saturating_sub(1))))
}
