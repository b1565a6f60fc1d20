//! Builds the states of an automaton, from shorter to longer words, and their rows.
ghost use Rattle.literal_rows.specs.Inside.Classes.{AreClasses, symbols_in};
ghost use Rattle.literal_rows.specs.Inside.Construction.{AreTexts, AreWordsTo, Grows, IsNextState, LeadBack, LeadOn};
ghost use Rattle.literal_rows.specs.Inside.Construction.{LeadsIn, texts_of, word_after, word_in, words_of};
ghost use Rattle.literal_rows.specs.Inside.Grown.{AreWords, IsLonger, failure_of, list_for, symbols_after};
ghost use Rattle.literal_rows.specs.States.{AreStates, HasTooManyStates, IsRowsLength};
ghost use Rattle.literal_rows.specs.Table.{LeadsTo, Recognises, code_of, nothing, stride_of};
ghost use Rattle.literal_rows.specs.Words.{ending, first_equal, live_suffix, word_of};
ghost use Rattle.std.specs.List.{range_with_len};
ghost use Rattle.std.specs.Option.{unwrap_or};
ghost use Rattle.std.specs.Prelude.{◌*◌, ◌++◌, ◌+◌, ◌-◌, ◌<◌, ◌^◌, ◌∷◌, ◌≡◌, ◌≤◌, IfErr, IfOk, IfSome, List, Option};
ghost use Rattle.std.specs.Prelude.{[], length, map, slice_index, slice_range, ℕ};

use crate::packed::put_numbers;
use crate::texts::{LIMIT, State, Texts};
use crate::walk::{ENDS, NOTHING};
use std::alloc::{AllocError, Global};

/// Why there are no rows.
#[derive(Clone, Copy, Debug, PartialEq, Eq, Drop)]
pub enum GrowError {
    /// Memory was refused.
    OutOfMemory,
    /// The rows are longer than their numbers can index.
    TooManyStates,
}

/// [`GrowError::OutOfMemory`].
impl From<AllocError> for GrowError {
    ghost use Rattle.literal_rows.specs.declared.grow.GrowError.TheVariants.{OutOfMemory};

    ghost from_gives = { λ _ error. error ≡ OutOfMemory };

    fn from(_: AllocError) -> GrowError {
        GrowError::OutOfMemory
    }
}

/// The length of the longest row.
const ROW_LEN: usize = 257;

/// All states so far. The first of them have their rows.
#[derive(Drop)]
pub struct Construction<'p> {
    pub texts: Texts<'p>,
    pub states: Vec<State>,
    pub lists: Vec<u32>,
    pub rows: Vec<u32>,
}

impl<'p> Construction<'p> {
    /// Writes the next class of each pattern in a state's list.
    fn put_classes_after(
        &self,
        state: usize,
        classes_after: &mut Vec<u32>,
    ) -> Result<(), AllocError>
        requires grows { Grows self.now }
        requires is_state { state < length self.now.states.items }
        ensures { IfOk result (λ _. classes_after.new.items
            ≡ symbols_after (texts_of self.now.texts) (word_of (words_of self.now) state)) }
    {
        let State {
            depth,
            start,
            end,
            ..
        } = self.states[state];
        classes_after.clear();
        for pattern in &self.lists[start as usize..end as usize] {
            classes_after.push(self.texts.class_after(*pattern, depth))?;
        }
        Ok(())
    }

    /// Copies the numbers of the failure state's row into a row. The start state has none: they are 0.
    fn put_failure_row(&self, state: usize, row: &mut [u32; ROW_LEN])
        requires grows { Grows self.now }
        requires is_state { state < length self.now.states.items }
        requires filled { length self.now.rows.items ≡ state * stride_of self.now.texts.width }
        ensures { LeadBack self.now state 0 row.new }
    {
        if state == 0 {
            row.fill(0);
            return;
        }
        let start = row_of(self.states[state].failure);
        put_numbers(row, 0, &self.rows[start..start + self.texts.width]);
    }

    /// Appends to the lists the patterns of a state's list whose next class is this one. Returns the first of them that
    /// ends there.
    fn push_list(
        &mut self,
        state: usize,
        class: u8,
        classes_after: &[u32],
    ) -> Result<Option<u32>, AllocError>
        requires grows { Grows self.old }
        requires is_state { state < length self.old.states.items }
        requires after { classes_after.now
            ≡ symbols_after (texts_of self.old.texts) (word_of (words_of self.old) state) }
        ensures grows { IfOk result (λ _. Grows self.new) }
        ensures lists { IfOk result (λ _. self.new.lists.items ≡ self.old.lists.items
            ++ list_for (texts_of self.old.texts) (word_after self.old state class)) }
        ensures whole { IfOk result (λ whole. whole ≡ first_equal (texts_of self.old.texts)
            (word_after self.old state class)) }
        ensures same { IfOk result (λ _. (self.new.texts ≡ self.old.texts) × (self.new.states ≡ self.old.states)
            × (self.new.rows ≡ self.old.rows)) }
    {
        let here = self.states[state];
        let whole = self
            .texts
            .push_longer(&mut self.lists, here, class, classes_after)?;
        Ok(whole)
    }

    /// The ending of the state to which a number leads. The number itself says whether there is one.
    fn ending_of(&self, code: u32) -> u32
        requires grows { Grows self.now }
        requires leads { (word : List ℕ) × LeadsIn self.now code word }
        ensures { (word : List ℕ) → LeadsIn self.now code word
            → result ≡ unwrap_or (ending (texts_of self.now.texts) word) nothing }
    {
        if code < ENDS {
            return NOTHING;
        }
        self.states[row_of(code) / (self.texts.width + 1)].ending
    }

    /// The state after a state and a class. Its list begins at an index; the first pattern that ends there and the
    /// number for its failure link are known.
    fn state_after(
        &self,
        state: usize,
        class: u8,
        start: u32,
        whole: Option<u32>,
        failure: u32,
    ) -> State
        requires grows { Grows self.now }
        requires is_state { state < length self.now.states.items }
        requires some { start < length self.now.lists.items }
        requires few { length self.now.lists.items < 2 ^ 32 }
        requires listed { slice_range self.now.lists.items start (length self.now.lists.items)
            ≡ list_for (texts_of self.now.texts) (word_after self.now state class) }
        requires whole { whole ≡ first_equal (texts_of self.now.texts) (word_after self.now state class) }
        requires failure { LeadsIn self.now failure
            (failure_of (texts_of self.now.texts) (word_after self.now state class)) }
        ensures word { word_in (texts_of self.now.texts) result ≡ word_after self.now state class }
        ensures state { IsNextState self.now result }
    {
        let _ = class; // (its contract names it)
        let ending = whole.unwrap_or(self.ending_of(failure));
        State {
            pattern: self.lists[start as usize],
            depth: self.states[state].depth + 1,
            start,
            end: self.lists.len() as u32,
            failure,
            ending,
        }
    }

    /// Adds a state, if the rows of all states are not too long, and returns the number for it.
    fn add_state(&mut self, state: State) -> Result<u32, GrowError>
        requires grows { Grows self.old }
        requires state { IsNextState self.old state }
        requires different { AreStates (texts_of self.old.texts)
            (words_of self.old ++ word_in (texts_of self.old.texts) state ∷ []) }
        ensures grows { IfOk result (λ _. Grows self.new) }
        ensures words { IfOk result (λ _. words_of self.new
            ≡ words_of self.old ++ word_in (texts_of self.old.texts) state ∷ []) }
        ensures too_many { IfErr result (λ error. error ≡ GrowError.TooManyStates
            → HasTooManyStates (texts_of self.old.texts) self.old.texts.width) }
        ensures code { IfOk result (λ code. LeadsTo (texts_of self.old.texts) (words_of self.new)
            self.old.texts.width code (word_in (texts_of self.old.texts) state)) }
        ensures same { IfOk result (λ _. (self.new.texts ≡ self.old.texts) × (self.new.rows ≡ self.old.rows)) }
    {
        let row = self.states.len() * (self.texts.width + 1);
        if row + self.texts.width + 1 > LIMIT {
            return Err(GrowError::TooManyStates);
        }
        self.push_state(state)?;
        Ok(code_for(row as u32, state.ending))
    }

    /// Adds a state.
    #[tactic(auto, using(crate::proofs::lemmas::Construction::grown_state))]
    fn push_state(&mut self, state: State) -> Result<(), AllocError>
        requires grows { Grows self.old }
        requires state { IsNextState self.old state }
        requires few { (length self.old.states.items + 1) * stride_of self.old.texts.width ≤ 2 ^ 31 - 1 }
        ensures grows { IfOk result (λ _. Grows self.new) }
        ensures words { IfOk result (λ _. words_of self.new
            ≡ words_of self.old ++ word_in (texts_of self.old.texts) state ∷ []) }
        ensures same { IfOk result (λ _. (self.new.texts ≡ self.old.texts) × (self.new.rows ≡ self.old.rows)) }
    {
        self.states.push(state)?;
        Ok(())
    }

    /// The number for a class in the row of a state, given the number for the failure link. If it is the next class of
    /// a pattern, it adds the next state.
    fn next(
        &mut self,
        state: usize,
        class: u8,
        classes_after: &[u32],
        failure: u32,
    ) -> Result<u32, GrowError>
        requires grows { Grows self.old }
        requires is_state { state < length self.old.states.items }
        requires is_class { class < self.old.texts.width }
        requires words { AreWordsTo self.old (state * stride_of self.old.texts.width + class) }
        requires after { classes_after.now
            ≡ symbols_after (texts_of self.old.texts) (word_of (words_of self.old) state) }
        requires failure { LeadsIn self.old failure
            (failure_of (texts_of self.old.texts) (word_after self.old state class)) }
        ensures grows { IfOk result (λ _. Grows self.new) }
        ensures leads { IfOk result (λ code. LeadsTo (texts_of self.old.texts) (words_of self.new)
            self.old.texts.width code (live_suffix (texts_of self.old.texts) (word_after self.old state class))) }
        ensures words { IfOk result (λ _. AreWords (texts_of self.old.texts) (words_of self.new)
            self.old.texts.width (state * stride_of self.old.texts.width + class + 1)) }
        ensures too_many { IfErr result (λ error. error ≡ GrowError.TooManyStates
            → HasTooManyStates (texts_of self.old.texts) self.old.texts.width) }
        ensures kept { IfOk result (λ _. IsLonger (words_of self.old) (words_of self.new)) }
        ensures same { IfOk result (λ _. (self.new.texts ≡ self.old.texts) × (self.new.rows ≡ self.old.rows)) }
    {
        let start = self.lists.len();
        let whole = self.push_list(state, class, classes_after)?;
        if self.lists.len() == start {
            return Ok(failure);
        }
        if self.lists.len() > u32::MAX as usize {
            return Err(GrowError::OutOfMemory);
        }
        let next = self.state_after(state, class, start as u32, whole, failure);
        let code = self.add_state(next)?;
        Ok(code)
    }

    /// Writes the number for a class into a row. The classes below it have theirs.
    fn put_next(
        &mut self,
        state: usize,
        class: u8,
        classes_after: &[u32],
        row: &mut [u32; ROW_LEN],
    ) -> Result<(), GrowError>
        requires grows { Grows self.old }
        requires is_state { state < length self.old.states.items }
        requires is_class { class < self.old.texts.width }
        requires words { AreWordsTo self.old (state * stride_of self.old.texts.width + class) }
        requires after { classes_after.now
            ≡ symbols_after (texts_of self.old.texts) (word_of (words_of self.old) state) }
        requires on { LeadOn self.old state class row.old }
        requires back { LeadBack self.old state class row.old }
        ensures grows { IfOk result (λ _. Grows self.new) }
        ensures words { IfOk result (λ _. AreWordsTo self.new (state * stride_of self.old.texts.width + class + 1)) }
        ensures on { IfOk result (λ _. LeadOn self.new state (class + 1) row.new) }
        ensures back { IfOk result (λ _. LeadBack self.new state (class + 1) row.new) }
        ensures too_many { IfErr result (λ error. error ≡ GrowError.TooManyStates
            → HasTooManyStates (texts_of self.old.texts) self.old.texts.width) }
        ensures kept { IfOk result (λ _. IsLonger (words_of self.old) (words_of self.new)) }
        ensures same { IfOk result (λ _. (self.new.texts ≡ self.old.texts) × (self.new.rows ≡ self.old.rows)) }
    {
        let column = class as usize;
        row[column] = self.next(state, class, classes_after, row[column])?;
        Ok(())
    }

    /// Makes a state's numbers for all classes from those of its failure state. They differ for the next classes of its
    /// list.
    fn put_all_next(
        &mut self,
        state: usize,
        classes_after: &[u32],
        row: &mut [u32; ROW_LEN],
    ) -> Result<(), GrowError>
        requires grows { Grows self.old }
        requires is_state { state < length self.old.states.items }
        requires words { AreWordsTo self.old (state * stride_of self.old.texts.width) }
        requires after { classes_after.now
            ≡ symbols_after (texts_of self.old.texts) (word_of (words_of self.old) state) }
        requires back { LeadBack self.old state 0 row.old }
        ensures grows { IfOk result (λ _. Grows self.new) }
        ensures words { IfOk result (λ _. AreWordsTo self.new ((state + 1) * stride_of self.old.texts.width)) }
        ensures on { IfOk result (λ _. LeadOn self.new state self.old.texts.width row.new) }
        ensures too_many { IfErr result (λ error. error ≡ GrowError.TooManyStates
            → HasTooManyStates (texts_of self.old.texts) self.old.texts.width) }
        ensures kept { IfOk result (λ _. IsLonger (words_of self.old) (words_of self.new)) }
        ensures same { IfOk result (λ _. (self.new.texts ≡ self.old.texts) × (self.new.rows ≡ self.old.rows)) }
    {
        let width = self.texts.width as u32;
        let mut class = smallest_from(classes_after, 0, width);
        while class < width {
            self.put_next(state, class as u8, classes_after, row)?;
            class = smallest_from(classes_after, class + 1, width);
        }
        Ok(())
    }

    /// Appends the row of a state, whose numbers for all classes are given.
    fn push_row(&mut self, state: usize, row: &mut [u32; ROW_LEN]) -> Result<(), AllocError>
        requires grows { Grows self.old }
        requires is_state { state < length self.old.states.items }
        requires filled { length self.old.rows.items ≡ state * stride_of self.old.texts.width }
        requires on { LeadOn self.old state self.old.texts.width row.old }
        ensures grows { IfOk result (λ _. Grows self.new) }
        ensures filled { IfOk result (λ _. length self.new.rows.items ≡ (state + 1) * stride_of self.old.texts.width) }
        ensures same { IfOk result (λ _. (self.new.texts ≡ self.old.texts) × (self.new.states ≡ self.old.states)) }
    {
        row[self.texts.width] = self.states[state].ending;
        self.rows.extend_from_slice(&row[..self.texts.width + 1])?;
        Ok(())
    }

    /// Appends the row of a state. The buffers may hold anything before.
    fn add_row(
        &mut self,
        state: usize,
        classes_after: &mut Vec<u32>,
        row: &mut [u32; ROW_LEN],
    ) -> Result<(), GrowError>
        requires grows { Grows self.old }
        requires is_state { state < length self.old.states.items }
        requires filled { length self.old.rows.items ≡ state * stride_of self.old.texts.width }
        requires words { AreWordsTo self.old (state * stride_of self.old.texts.width) }
        ensures grows { IfOk result (λ _. Grows self.new) }
        ensures filled { IfOk result (λ _. length self.new.rows.items ≡ (state + 1) * stride_of self.old.texts.width) }
        ensures words { IfOk result (λ _. AreWordsTo self.new ((state + 1) * stride_of self.old.texts.width)) }
        ensures too_many { IfErr result (λ error. error ≡ GrowError.TooManyStates
            → HasTooManyStates (texts_of self.old.texts) self.old.texts.width) }
        ensures kept { IfOk result (λ _. IsLonger (words_of self.old) (words_of self.new)) }
        ensures same { IfOk result (λ _. self.new.texts ≡ self.old.texts) }
    {
        self.put_failure_row(state, row);
        self.put_classes_after(state, classes_after)?;
        self.put_all_next(state, classes_after, row)?;
        self.push_row(state, row)?;
        Ok(())
    }
}

/// The smallest number that is at least `from` and below `below`, or `below` if there is none.
fn smallest_from(numbers: &[u32], from: u32, below: u32) -> u32
    ensures from { from ≤ below → from ≤ result }
    ensures below { result ≤ below }
    ensures none { (k : ℕ) → k < length numbers.now → from ≤ slice_index numbers.now k
        → result ≤ slice_index numbers.now k }
{
    let mut smallest = below;
    for number in numbers {
        // (without a branch, so that the loop is vectorized)
        let candidate = if *number < from { below } else { *number };
        smallest = smallest.min(candidate);
    }
    smallest
}

/// The index of the row of a state, from a number for it.
fn row_of(code: u32) -> usize
    ensures { (row : ℕ) (pattern : Option ℕ) → row < 2 ^ 31 → code ≡ code_of row pattern → result ≡ row }
{
    if code < ENDS {
        code as usize
    } else {
        (code - ENDS) as usize
    }
}

/// The number for a state in a row.
fn code_for(row: u32, ending: u32) -> u32
    requires { row < 2 ^ 31 }
    ensures { (pattern : Option ℕ) → ending ≡ unwrap_or pattern nothing → IfSome pattern (λ i. i < nothing)
        → result ≡ code_of row pattern }
{
    if ending == NOTHING { row } else { row + ENDS }
}

/// Builds the rows for patterns, in classes below the width.
pub fn grow(
    alloc: Global,
    classes: &[u8; 256],
    width: usize,
    patterns: &[Vec<u8>],
) -> Result<Vec<u32>, GrowError>
    requires classes { AreClasses classes.now width }
    requires few { length patterns.now ≤ 2 ^ 31 - 1 }
    ensures recognises { IfOk result (λ rows. Recognises
        (map (λ pattern. symbols_in classes.now pattern.items) patterns.now) width rows.items) }
    ensures states { IfOk result (λ rows. IsRowsLength
        (map (λ pattern. symbols_in classes.now pattern.items) patterns.now) width (length rows.items)) }
    ensures few { IfOk result (λ _. HasTooManyStates
        (map (λ pattern. symbols_in classes.now pattern.items) patterns.now) width → ⊥) }
    ensures too_many { IfErr result (λ error. error ≡ GrowError.TooManyStates → HasTooManyStates
        (map (λ pattern. symbols_in classes.now pattern.items) patterns.now) width) }
{
    let texts = Texts {
        classes,
        width,
        patterns,
    };
    if texts.has_too_long() {
        return Err(GrowError::TooManyStates);
    }
    let mut construction = start(alloc, texts)?;
    let (mut classes_after, mut row) = (Vec::new(alloc), [0; ROW_LEN]);
    let mut state = 0;
    while state < construction.states.len() {
        construction.add_row(state, &mut classes_after, &mut row)?;
        state += 1;
    }
    Ok(construction.rows)
}

/// The state of the empty word, without a row.
fn start<'p>(alloc: Global, texts: Texts<'p>) -> Result<Construction<'p>, AllocError>
    requires { AreTexts texts }
    ensures grows { IfOk result (λ construction. Grows construction) }
    ensures start { IfOk result (λ construction. construction.rows.items ≡ []) }
    ensures words { IfOk result (λ construction. words_of construction ≡ [] ∷ []) }
    ensures texts { IfOk result (λ construction. construction.texts ≡ texts.entry) }
{
    let mut rows = Vec::new(alloc);
    rows.reserve(texts.first_room())?;
    let lists = numbers(alloc, texts.patterns.len())?;
    let mut states = Vec::new(alloc);
    states.push(State {
        pattern: 0,
        depth: 0,
        start: 0,
        end: texts.patterns.len() as u32,
        failure: 0,
        ending: NOTHING,
    })?;
    Ok(Construction {
        texts,
        states,
        lists,
        rows,
    })
}

/// The numbers below a bound.
pub(crate) fn numbers(alloc: Global, bound: usize) -> Result<Vec<u32>, AllocError>
    requires { bound ≤ 2 ^ 31 - 1 }
    ensures { IfOk result (λ numbers. numbers.items ≡ range_with_len 0 bound) }
{
    let mut numbers = Vec::new(alloc);
    for number in 0..bound {
        numbers.push(number as u32)?;
    }
    Ok(numbers)
}
