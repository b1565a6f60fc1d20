//! Patterns as texts of classes, and states, whose words are prefixes of them.
ghost use Rattle.literal_base.specs.Occurs.{pattern_at};
ghost use Rattle.literal_rows.specs.Inside.Construction.{AreTexts, list_in, texts_of};
ghost use Rattle.literal_rows.specs.Inside.Grown.{goes_on};
ghost use Rattle.literal_rows.specs.States.{HasTooManyStates};
ghost use Rattle.literal_rows.specs.Table.{stride_of};
ghost use Rattle.std.specs.List.{filter, find};
ghost use Rattle.std.specs.Prelude.{◌&&◌, ◌*◌, ◌++◌, ◌+◌, ◌-◌, ◌<◌, ◌==◌, ◌^◌, ◌∷◌, ◌≡◌, ◌≤◌, IfOk, [], if◌then◌else◌};
ghost use Rattle.std.specs.Prelude.{length, map, slice_index_or, true, ℕ};

use std::alloc::AllocError;

/// The largest length of all rows.
pub const LIMIT: usize = (1 << 31) - 1;

/// The class after the last byte of a pattern, where there is none.
const NO_CLASS: u32 = 256;

/// The largest initial room for rows, in numbers of four bytes.
const MOST_ROOM: usize = 1 << 24;

/// Patterns, whose bytes are read as their classes.
#[derive(Clone, Copy)]
pub struct Texts<'p> {
    pub classes: &'p [u8; 256],
    pub width: usize,
    pub patterns: &'p [Vec<u8>],
}

/// A state. Its word is a prefix of a pattern, and its list has the patterns that begin with the word.
#[derive(Clone, Copy)]
pub struct State {
    /// A pattern that begins with the word.
    pub pattern: u32,
    /// The length of the word.
    pub depth: u32,
    /// The start and the end of its list in all lists.
    pub start: u32,
    pub end: u32,
    /// The number for its failure state, whose word is the live suffix of the word without its first symbol.
    pub failure: u32,
    /// The pattern that ends with the word.
    pub ending: u32,
}

impl<'p> Texts<'p> {
    /// The class of a pattern's symbol at a depth, or `NO_CLASS` at its end.
    pub(crate) fn class_after(&self, pattern: u32, depth: u32) -> u32
        requires texts { AreTexts self.now }
        requires is_pattern { pattern < length self.now.patterns.now }
        ensures { result ≡ slice_index_or (pattern_at (texts_of self.now) pattern) depth 256 }
    {
        let bytes = self.patterns[pattern as usize].as_slice();
        let at = depth as usize;
        if at < bytes.len() {
            u32::from(self.classes[bytes[at] as usize])
        } else {
            NO_CLASS
        }
    }

    /// Whether a pattern ends one symbol after a depth.
    fn ends_after(&self, pattern: u32, depth: u32) -> bool
        requires { pattern < length self.now.patterns.now }
        ensures { result ≡ (length (pattern_at (texts_of self.now) pattern) == depth + 1) }
    {
        self.patterns[pattern as usize].len() == depth as usize + 1
    }

    /// Adds a pattern to lists if its next class is this one. Returns whether it ends there.
    fn push_if_longer(
        &self,
        lists: &mut Vec<u32>,
        depth: u32,
        class: u8,
        pattern: u32,
        class_after: u32,
    ) -> Result<bool, AllocError>
        requires is_pattern { pattern < length self.now.patterns.now }
        requires after { class_after ≡ slice_index_or (pattern_at (texts_of self.now) pattern) depth 256 }
        ensures lists { IfOk result (λ _. lists.new.items ≡ lists.old.items
            ++ (if goes_on (pattern_at (texts_of self.now) pattern) depth class then pattern ∷ [] else [])) }
        ensures whole { IfOk result (λ whole. whole ≡ (goes_on (pattern_at (texts_of self.now) pattern) depth class
            && length (pattern_at (texts_of self.now) pattern) == depth + 1)) }
    {
        if class_after != u32::from(class) {
            return Ok(false);
        }
        lists.push(pattern)?;
        Ok(self.ends_after(pattern, depth))
    }

    /// Appends to the lists the patterns of a state's list whose next class is this one. Returns the first of them that
    /// ends there.
    pub(crate) fn push_longer(
        &self,
        lists: &mut Vec<u32>,
        here: State,
        class: u8,
        classes_after: &[u32],
    ) -> Result<Option<u32>, AllocError>
        requires after { classes_after.now ≡ map (λ i. slice_index_or (pattern_at (texts_of self.now) i) here.depth 256)
            (list_in lists.old.items here) }
        requires ordered { here.start ≤ here.end }
        requires inside { here.end ≤ length lists.old.items }
        requires numbers { (k d : ℕ) → k < length lists.old.items
            → slice_index_or lists.old.items k d < length self.now.patterns.now }
        ensures lists { IfOk result (λ _. lists.new.items ≡ lists.old.items
            ++ filter (λ i. goes_on (pattern_at (texts_of self.now) i) here.depth class)
            (list_in lists.old.items here)) }
        ensures whole { IfOk result (λ whole. whole
            ≡ find (λ i. length (pattern_at (texts_of self.now) i) == here.depth + 1)
            (filter (λ i. goes_on (pattern_at (texts_of self.now) i) here.depth class)
            (list_in lists.old.items here))) }
        ensures numbers { IfOk result (λ _. (k d : ℕ) → k < length lists.new.items
            → slice_index_or lists.new.items k d < length self.now.patterns.now) }
    {
        let mut whole = None;
        let (start, end) = (here.start as usize, here.end as usize);
        for index in start..end {
            let pattern = lists[index];
            let after = classes_after[index - start];
            if self.push_if_longer(lists, here.depth, class, pattern, after)? {
                whole = whole.or(Some(pattern));
            }
        }
        Ok(whole)
    }

    /// The initial room for rows: enough if no two patterns have a common prefix, but at most `MOST_ROOM` numbers.
    pub(crate) fn first_room(&self) -> usize
        requires { AreTexts self.now }
    {
        let mut states: usize = 1;
        for pattern in self.patterns {
            states = states.saturating_add(pattern.len());
        }
        states.saturating_mul(self.width + 1).min(MOST_ROOM)
    }

    /// Whether the rows of the prefixes of a pattern are too long.
    fn is_too_long(&self, pattern: usize) -> bool
        requires texts { AreTexts self.now }
        requires is_pattern { pattern < length self.now.patterns.now }
        ensures { result ≡ true → 2 ^ 31 - 1
            < (length (pattern_at (texts_of self.now) pattern) + 1) * stride_of self.now.width }
    {
        self.patterns[pattern].len() >= LIMIT / (self.width + 1)
    }

    /// Whether one pattern alone makes the rows too long.
    pub(crate) fn has_too_long(&self) -> bool
        requires { AreTexts self.now }
        ensures { result ≡ true → HasTooManyStates (texts_of self.now) self.now.width }
    {
        for pattern in 0..self.patterns.len() {
            if self.is_too_long(pattern) {
                return true;
            }
        }
        false
    }
}
