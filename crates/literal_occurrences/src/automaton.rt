//! The automaton of a search for every occurrence, for a caller's own loops.
ghost use Rattle.std.specs.Prelude.{◌≡◌, ◌⊎◌, ◌↔◌, ◌+◌, ◌-◌, ◌<◌, ◌≤◌, ◌^◌, ◌++◌, ◌∷◌, [], ℕ, List, IsTrue};
ghost use Rattle.std.specs.Prelude.{length, map, slice_index, slice_range};
ghost use Rattle.literal_base.specs.Occurs.{pattern_at, whole_of};
ghost use Rattle.literal_occurrences.specs.Automaton.{AreAtEnd, EndsText, IsStateAfter};
ghost use Rattle.literal_occurrences.specs.Inside.LentTables.{AreFor, AreLent, overlapping_for};
ghost use Rattle.literal_rows.specs.Inside.Walk.{classes_by, rows_by};
ghost use Rattle.literal_occurrences.specs.PreparedOverlapping.{AreTables, overlapping_value};

use crate::prepared_overlapping::LentTables;
use literal_base::count::Tally;
use literal_ids::PatternID;
use literal_rows::classes::CLASSES_LEN;
use literal_rows::walk::{ENDS, Table};
use std::marker::Model;

/// The automaton of an `Overlapping`, which it borrows, for a caller's own loops. Contracts see its tables.
///
/// After a text it is in the state of the longest suffix of the text that is a prefix of a pattern (`IsStateAfter`). A
/// loop begins with [`Automaton::start_state`], and appends a byte to the text with [`Automaton::next_state`]. If two
/// texts lead to equal states, the same patterns are suffixes of both, also after the same further bytes.
///
/// ```rust
/// let search = Overlapping::new(alloc, false, [b"append".as_slice(), b"app", b"end"])?;
/// let automaton = search.automaton();
/// let mut state = automaton.start_state();
/// for byte in b"append" {
///     state = automaton.next_state(state, *byte);
/// }
/// assert!(rt; automaton.is_match(state) && automaton.matches(state) == [0, 2].as_slice());
/// ```
#[derive(Drop)]
pub struct Automaton<'s> {
    ignore_case: bool,
    patterns: &'s [Vec<u8>],
    lent: LentTables<'s>,
}

impl<'s> Model for Automaton<'s> {
    ghost use Rattle.std.specs.Prelude.{map};
    ghost use Rattle.literal_occurrences.specs.Inside.LentTables.{AreFor, AreLent, overlapping_for, tables_by};
    ghost use Rattle.literal_occurrences.specs.PreparedOverlapping.{Tables};

    ghost Value = { Tables };

    ghost view = { λ a. tables_by
        (overlapping_for a.ignore_case (map (λ pattern. pattern.items) a.patterns.now)) a.lent };

    ghost invariant = { λ a. AreLent a.lent
        × AreFor (overlapping_for a.ignore_case (map (λ pattern. pattern.items) a.patterns.now)) a.lent };
}

/// A state of an [`Automaton`]. With a state of another automaton each call is safe, but its answer has no meaning.
/// Contracts see a state as a number.
#[derive(Clone, Copy, Debug, PartialEq, Eq, Hash, Drop)]
pub struct State {
    number: u32,
}

impl Model for State {
    ghost use Rattle.std.specs.Prelude.{ℕ};

    ghost Value = { ℕ };

    ghost view = { λ s. s.number };

    ghost inverse = { λ n. record { number = n } };
}

impl<'s> Automaton<'s> {
    /// The automaton of a search for these patterns, by its tables.
    pub fn of(ignore_case: bool, patterns: &'s [Vec<u8>], lent: LentTables<'s>) -> Automaton<'s>
        requires lent { AreLent lent }
        requires is_for { AreFor (overlapping_for ignore_case (map (λ pattern. pattern.items) patterns.now)) lent }
        ensures { overlapping_value result ≡ overlapping_for ignore_case (map (λ pattern. pattern.items) patterns.now) }
    {
        Automaton {
            ignore_case,
            patterns,
            lent,
        }
    }

    /// Returns the state after the empty text.
    pub fn start_state(&self) -> State
        ensures { IsStateAfter self.now [] result }
    {
        State { number: 0 }
    }

    /// Returns the state after one more byte of the text.
    #[inline(always)]
    pub fn next_state(&self, state: State, byte: u8) -> State
        ensures { (text : List ℕ) → IsStateAfter self.now text state
            → IsStateAfter self.now (text ++ byte ∷ []) result }
    {
        let (table, row) = (self.table(), state.row());
        // (never for a state of this automaton; one of another may have a row that is not here)
        if row + CLASSES_LEN > table.rows.len() {
            return self.start_state();
        }
        let number = table.code_for(row, byte);
        State { number }
    }

    /// The state after one more byte of the haystack, which counts as scanned.
    #[inline(always)]
    pub fn next_at(&self, state: State, haystack: &[u8], at: usize, tally: &mut Tally) -> State
        requires inside { at < length haystack.now }
        requires after { (text : List ℕ) × IsStateAfter self.now text state }
        ensures state { (text : List ℕ) → IsStateAfter self.now text state
            → IsStateAfter self.now (text ++ slice_index haystack.now at ∷ []) result }
        ensures ticks { tally.new ≡ record tally.old { scanned = tally.old.scanned + 1 } }
    {
        let number = self.table().code_at(state.row(), haystack, at, tally);
        State { number }
    }

    /// Returns whether any pattern is a suffix of the text. The state itself says so, without a look-up.
    #[inline(always)]
    pub fn is_match(&self, state: State) -> bool
        ensures { (text : List ℕ) → IsStateAfter self.now text state
            → IsTrue result ↔ ((i : ℕ) × EndsText self.now text i) }
    {
        let _table = self.table(); // (its contract says what the tables hold)
        state.number >= ENDS
    }

    /// Returns the numbers of all patterns that are suffixes of the text, in ascending order.
    pub fn matches(&self, state: State) -> &'s [u32]
        ensures { (text : List ℕ) → IsStateAfter self.now text state
            → AreAtEnd self.now.patterns self.now.ignore_case text (whole_of text) result.now }
    {
        let table = self.table();
        if state.number < ENDS {
            return &[];
        }
        match table.ending_at(state.row()) {
            Ok(longest) => self.list_of(longest as usize),
            Err(_) => &[],
        }
    }

    /// The length of the pattern with this number.
    pub fn pattern_len(&self, pattern: usize) -> usize
        requires { pattern < length self.now.patterns }
        ensures len { result ≡ length (pattern_at self.now.patterns pattern) }
        ensures few { pattern < PatternID.LIMIT }
    {
        let _table = self.table(); // (as in `is_match`)
        self.lent.header.lengths[pattern] as usize
    }

    /// The numbers of all patterns that are suffixes of a pattern.
    fn list_of(&self, pattern: usize) -> &'s [u32]
        ensures { pattern < length self.now.patterns
            → result.now ≡ slice_range self.now.ends (slice_index self.now.starts pattern)
            (slice_index self.now.starts (pattern + 1)) }
    {
        let _table = self.table(); // (as above)
        let starts = self.lent.starts;
        if pattern >= starts.len() - 1 {
            return &[];
        }
        let (start, end) = (starts[pattern] as usize, starts[pattern + 1] as usize);
        let ends = self.lent.ends;
        &ends[start..end]
    }

    /// The table that a step reads.
    #[inline(always)]
    fn table(&self) -> Table<'_>
        ensures tables { AreTables self.now }
        ensures each { length result.classes.now ≡ 64 }
        ensures classes { classes_by result ≡ self.now.classes }
        ensures width { result.width ≡ self.now.width }
        ensures rows { rows_by result ≡ self.now.rows }
    {
        self.lent.table()
    }
}

impl State {
    /// The state with a number, which [`State::as_u32`] returns.
    pub fn new(number: u32) -> State
        ensures { result ≡ number }
    {
        State { number }
    }

    /// Its number, for callers who keep states as numbers.
    pub fn as_u32(self) -> u32
        ensures { result ≡ self }
    {
        self.number
    }

    /// The index at which the row of the state begins.
    #[inline(always)]
    fn row(self) -> usize
        ensures { ((self < 2 ^ 31) × (result ≡ self)) ⊎ ((2 ^ 31 ≤ self) × (result ≡ self - 2 ^ 31)) }
    {
        let number = self.number;
        if number < ENDS {
            number as usize
        } else {
            (number - ENDS) as usize
        }
    }
}
