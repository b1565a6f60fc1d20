//! Steps through the automaton of a prepared search for every occurrence. The array is not trusted.
ghost use Rattle.std.specs.Prelude.{◌≡◌, ◌↔◌, ◌+◌, ◌-◌, ◌%◌, ◌^◌, ◌<◌, ◌≤◌, ◌++◌, ◌∷◌, [], ℕ, List, length};
ghost use Rattle.std.specs.Prelude.{IfOk, IsTrue, MatchResult};
ghost use Rattle.std.specs.Result.{IsOkAnd};
ghost use Rattle.literal_base.specs.Occurs.{IsValidSpan, whole_of};
ghost use Rattle.literal_occurrences.specs.Automaton.{AreAtEnd, EndsText, IsStateAfter};
ghost use Rattle.literal_rows.specs.Inside.Walk.{classes_by, rows_by};
ghost use Rattle.literal_leftmost.specs.Prepared.{classes_in, rows_in, width_in};
ghost use Rattle.literal_occurrences.specs.PreparedOverlapping.{ForOverlapping, tables_in};
ghost use Rattle.literal_occurrences.specs.PreparedStates.{HasRow, IsWalked, StopsIn};

use crate::automaton::State;
use crate::prepared_overlapping::PreparedOverlapping;
use literal_base::Span;
use literal_base::count::Tally;
use literal_rows::classes::CLASSES_LEN;
use literal_rows::damaged::Damaged;
use literal_rows::walk::{ENDS, Table, row_at_end};

/// The result of [`PreparedOverlapping::walk`].
#[derive(Clone, Copy, Debug, PartialEq, Eq, Drop)]
pub struct Walked {
    /// The state after the last byte that was read.
    pub state: State,
    /// The offset after that byte.
    pub at: usize,
    /// Whether a pattern ends with that byte.
    pub is_match: bool,
}

/// The states are those of an [`Automaton`](crate::automaton::Automaton) of the same search. With a changed array, or
/// with a state of another search, an answer has no meaning, or is [`Damaged`].
impl<'p> PreparedOverlapping<'p> {
    /// Returns the state after the empty text.
    pub fn start_state(&self) -> State
        ensures { ForOverlapping self.now (λ search. IsStateAfter (tables_in search self.now) [] result) }
    {
        State::new(0)
    }

    /// Returns the state after one more byte of the text, or [`Damaged`] if the array has no row for the state.
    pub fn next_state(&self, state: State, byte: u8) -> Result<State, Damaged>
        ensures prepared { ForOverlapping self.now (λ search. (text : List ℕ)
            → IsStateAfter (tables_in search self.now) text state
            → IsOkAnd result (IsStateAfter (tables_in search self.now) (text ++ byte ∷ []))) }
        ensures damaged { MatchResult result (λ _. HasRow self.now state) (λ _. ¬ HasRow self.now state) }
    {
        let table = self.table();
        let row = self.row_of(state)?;
        Ok(State::new(table.code_for(row, byte)))
    }

    /// Appends the bytes of a span of the haystack to the text, up to the first byte with which a pattern ends, or all
    /// of them if there is none. Each call appends at least one byte if there is one. So a loop of calls, each from
    /// where the previous one has stopped, reads each byte once.
    pub fn walk(&self, state: State, haystack: &[u8], span: Span) -> Result<Walked, Damaged>
        requires { IsValidSpan haystack.now span }
        ensures prepared { ForOverlapping self.now (λ search. (text : List ℕ)
            → IsStateAfter (tables_in search self.now) text state
            → IsOkAnd result (IsWalked (tables_in search self.now) text haystack.now span)) }
        ensures row { IfOk result (λ _. HasRow self.now state) }
        ensures inside { IfOk result (StopsIn span) }
    {
        self.walk_counted(state, haystack, span, &mut Tally::new())
    }

    /// Like [`PreparedOverlapping::walk`], and counts each looked-up byte in the tally, as scanned: with any array
    /// those before the offset that is returned, each once.
    pub fn walk_counted(
        &self,
        state: State,
        haystack: &[u8],
        span: Span,
        tally: &mut Tally,
    ) -> Result<Walked, Damaged>
        requires { IsValidSpan haystack.now span }
        ensures prepared { ForOverlapping self.now (λ search. (text : List ℕ)
            → IsStateAfter (tables_in search self.now) text state
            → IsOkAnd result (IsWalked (tables_in search self.now) text haystack.now span)) }
        ensures row { IfOk result (λ _. HasRow self.now state) }
        ensures inside { IfOk result (StopsIn span) }
        ensures others { tally.new ≡ record tally.old { scanned = tally.new.scanned } }
        ensures scanned { IfOk result (λ walked. tally.new.scanned + span.start ≡ tally.old.scanned + walked.at) }
        ensures most { tally.new.scanned ≤ tally.old.scanned + (span.end - span.start) }
    {
        let table = self.table();
        let limit = table.limit()?;
        let mut row = self.row_of(state)?;
        for at in span.start..span.end {
            let code = table.code_at(row, haystack, at, tally);
            row = code as usize;
            if row >= limit {
                let _row = row_at_end(code, limit)?;
                return Ok(Walked {
                    state: State::new(code),
                    at: at + 1,
                    is_match: true,
                });
            }
        }
        let state = if span.start < span.end {
            State::new(row as u32)
        } else {
            state
        };
        Ok(Walked {
            state,
            at: span.end,
            is_match: false,
        })
    }

    /// Returns whether any pattern is a suffix of the text. The state itself says so, without a look-up.
    pub fn is_match(&self, state: State) -> bool
        ensures { ForOverlapping self.now (λ search. (text : List ℕ)
            → IsStateAfter (tables_in search self.now) text state
            → IsTrue result ↔ ((i : ℕ) × EndsText (tables_in search self.now) text i)) }
    {
        state.as_u32() >= ENDS
    }

    /// Returns the numbers of all patterns that are suffixes of the text, in ascending order, or [`Damaged`] if the
    /// array has no row for the state. By an array that was not prepared they may be numbers of no pattern.
    pub fn matches(&self, state: State) -> Result<&[u32], Damaged>
        ensures prepared { ForOverlapping self.now (λ search. (text : List ℕ)
            → IsStateAfter (tables_in search self.now) text state → IsOkAnd result
            (λ all. AreAtEnd search.patterns search.ignore_case text (whole_of text) all.now)) }
        ensures row { IfOk result (λ _. HasRow self.now state) }
    {
        let row = self.row_of(state)?;
        if state.as_u32() < ENDS {
            return Ok(&[]);
        }
        let longest = self.table().ending_at(row)? as usize;
        self.lent().list_of(longest)
    }

    /// The index at which the row of a state begins.
    #[inline(always)]
    fn row_of(&self, state: State) -> Result<usize, Damaged>
        ensures { MatchResult result (λ row. (row ≡ state % 2 ^ 31) × HasRow self.now state)
            (λ _. ¬ HasRow self.now state) }
    {
        let row = (state.as_u32() % ENDS) as usize;
        if row + CLASSES_LEN >= self.table().rows.len() {
            return Err(Damaged);
        }
        Ok(row)
    }

    /// The table that a step reads.
    #[inline(always)]
    fn table(&self) -> Table<'_>
        ensures each { length result.classes.now ≡ 64 }
        ensures classes { classes_by result ≡ classes_in self.now }
        ensures width { result.width ≡ width_in self.now }
        ensures rows { rows_by result ≡ rows_in self.now }
    {
        self.lent().table()
    }
}
