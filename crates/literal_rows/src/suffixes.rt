//! Lists of the patterns that are suffixes of a pattern, for the first of equal patterns.
ghost use Rattle.std.specs.Prelude.{◌≡◌, ◌<◌, ◌≤◌, ◌++◌, ◌∷◌, [], IfOk, OnErr, Some, drop, length};
ghost use Rattle.std.specs.Option.{unwrap_or};
ghost use Rattle.literal_base.specs.Occurs.{pattern_at};
ghost use Rattle.literal_rows.specs.Table.{nothing};
ghost use Rattle.literal_rows.specs.Words.{ending};
ghost use Rattle.literal_rows.specs.Links.{AreLinks};
ghost use Rattle.literal_rows.specs.Inside.Suffixes.{AreSuffixes};
ghost use Rattle.literal_rows.specs.Inside.Lists.{AreLists, AreLongest, AreOutputLinks, Recognise, symbols_of};

use crate::walk::{ENDS, NOTHING};
use std::alloc::{AllocError, Global};

/// Patterns, and the rows of their automaton.
#[derive(Clone, Copy)]
pub struct Recognised<'p> {
    pub classes: &'p [u8; 256],
    pub width: usize,
    pub rows: &'p [u32],
    pub patterns: &'p [Vec<u8>],
}

/// Concatenated lists of pattern numbers, the index at which each begins, and the end of the last.
#[derive(Drop)]
pub struct Lists {
    pub ends: Vec<u32>,
    pub starts: Vec<usize>,
}

impl<'p> Recognised<'p> {
    /// The longest pattern that is a suffix of the rest of a pattern, from one of its bytes on. Of equal ones it is the
    /// first.
    pub(crate) fn longest_suffix(&self, pattern: usize, from: usize) -> u32
        requires recognise { Recognise self.now }
        requires is_pattern { pattern < length self.now.patterns.now }
        requires inside { from ≤ length (pattern_at (symbols_of self.now) pattern) }
        ensures { result ≡ unwrap_or (ending (symbols_of self.now)
            (drop from (pattern_at (symbols_of self.now) pattern))) nothing }
    {
        let bytes = self.patterns[pattern].as_slice();
        let mut row = 0;
        for at in from..bytes.len() {
            let code = self.rows[row + self.classes[bytes[at] as usize] as usize];
            row = if code < ENDS { code } else { code - ENDS } as usize;
        }
        self.rows[row + self.width]
    }

    /// For each pattern the longest one that is a suffix of it: itself, or the first one equal to it.
    pub(crate) fn longest(&self, alloc: Global) -> Result<Vec<u32>, AllocError>
        requires { Recognise self.now }
        ensures { IfOk result (λ longest. AreLongest (symbols_of self.now) longest.items
            (length self.now.patterns.now)) }
    {
        let mut longest = Vec::new(alloc);
        for pattern in 0..self.patterns.len() {
            longest.push(self.longest_suffix(pattern, 0))?;
        }
        Ok(longest)
    }

    /// For each pattern the longest one that is a suffix of it without its first byte.
    pub(crate) fn shorter(&self, alloc: Global) -> Result<Vec<u32>, AllocError>
        requires { Recognise self.now }
        ensures { IfOk result (λ links. AreLinks (symbols_of self.now) links.items (length self.now.patterns.now)) }
    {
        let mut links = Vec::new(alloc);
        for pattern in 0..self.patterns.len() {
            links.push(self.longest_suffix(pattern, 1))?;
        }
        Ok(links)
    }

    /// For each pattern the next one that is a suffix of it: a later one equal to it, or else a shorter one.
    pub(crate) fn links(&self, alloc: Global, longest: &[u32]) -> Result<Vec<u32>, AllocError>
        requires recognise { Recognise self.now }
        requires longest { AreLongest (symbols_of self.now) longest.now (length self.now.patterns.now) }
        ensures { IfOk result (λ links. AreOutputLinks (symbols_of self.now) links.items 0) }
    {
        let count = self.patterns.len();
        let mut links = vec![in alloc; NOTHING; count]?;
        let mut heads = vec![in alloc; NOTHING; count]?;
        for pattern in (0..count).rev() {
            let first = longest[pattern] as usize;
            let equal = heads[first];
            let link = if equal == NOTHING {
                self.longest_suffix(pattern, 1)
            } else {
                equal
            };
            links[pattern] = link;
            heads[first] = pattern as u32;
        }
        Ok(links)
    }

    /// The numbers of all patterns that are suffixes of a pattern, in order. The list is empty if the pattern is not
    /// the first of its equals.
    fn suffixes_of(
        &self,
        alloc: Global,
        links: &[u32],
        longest: &[u32],
        pattern: usize,
    ) -> Result<Vec<u32>, AllocError>
        requires recognise { Recognise self.now }
        requires longest { AreLongest (symbols_of self.now) longest.now (length self.now.patterns.now) }
        requires links { AreOutputLinks (symbols_of self.now) links.now 0 }
        requires is_pattern { pattern < length self.now.patterns.now }
        ensures ends { IfOk result (λ list. ending (symbols_of self.now)
            (pattern_at (symbols_of self.now) pattern) ≡ Some pattern
            → AreSuffixes (symbols_of self.now) (pattern_at (symbols_of self.now) pattern) 0 list.items 0
            (length list.items)) }
        ensures none { IfOk result (λ list. ¬ (ending (symbols_of self.now)
            (pattern_at (symbols_of self.now) pattern) ≡ Some pattern) → list.items ≡ []) }
    {
        let mut list = Vec::new(alloc);
        if longest[pattern] as usize != pattern {
            return Ok(list);
        }
        let mut next = pattern as u32;
        while next != NOTHING {
            list.push(next)?;
            next = links[next as usize];
        }
        // Equal patterns are adjacent and ascend; the sort keeps such runs.
        list.sort()?;
        Ok(list)
    }

    /// The list of suffixes for each pattern that is the first of its equals.
    pub fn lists(&self, alloc: Global) -> Result<Lists, AllocError>
        requires { Recognise self.now }
        ensures { IfOk result (λ lists. AreLists (symbols_of self.now) lists.ends.items lists.starts.items
            (length self.now.patterns.now)) }
    {
        let longest = self.longest(alloc)?;
        let links = self.links(alloc, &longest)?;
        let mut lists = Lists {
            ends: Vec::new(alloc),
            starts: vec![in alloc; 0usize; 1]?,
        };
        for pattern in 0..self.patterns.len() {
            let list = self.suffixes_of(alloc, &links, &longest, pattern)?;
            lists.push(&list)?;
        }
        Ok(lists)
    }
}

impl Lists {
    /// Appends a list to the others.
    fn push(&mut self, list: &[u32]) -> Result<(), AllocError>
        ensures ends { IfOk result (λ _. self.new.ends.items ≡ self.old.ends.items ++ list.now) }
        ensures starts { IfOk result (λ _. self.new.starts.items
            ≡ self.old.starts.items ++ length self.new.ends.items ∷ []) }
    {
        self.ends.extend_from_slice(list)?;
        self.starts.push(self.ends.len())?;
        Ok(())
    }
}
