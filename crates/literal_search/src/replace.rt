//! Replaces each match by the replacement of its pattern, or by what a function writes.
ghost use Rattle.std.specs.Prelude.{◌≡◌, ◌+◌, ◌*◌, ◌<◌, ◌≤◌, IfErr, IfOk, OnErr, length, map, string_bytes};
ghost use Rattle.std.specs.List.{All};
ghost use Rattle.std.specs.Str.{IsUtf8};
ghost use Rattle.literal_search.specs.Replaced.{AreTextWordsReplaced, AreWordsReplaced, AreWordsWritten, IsReplaced};
ghost use Rattle.literal_search.specs.Replaced.{IsReplacedBy, IsWritten, RefusesToReplace, RefusesToReplaceBy};
ghost use Rattle.literal_search.specs.Replaced.{RefusesToReplaceTextWords, RefusesToReplaceWords};
ghost use Rattle.literal_search.specs.SearchValue.{ScansListAtMost};
ghost use Rattle.literal_search.specs.WholeWords.{AreWordsFromBy};

use crate::{Match, Search, Span, Tally, WholeWords, WordText};
use std::alloc::{AllocError, Global};
use std::error::Error;
use std::fmt;

/// Why matches are not replaced.
#[derive(Clone, Copy, Debug, PartialEq, Eq, Drop)]
pub enum ReplaceError {
    /// The number of replacements is not the number of patterns.
    NotOneForEach,
    /// Memory was refused.
    OutOfMemory,
}

/// A short message.
impl fmt::Display for ReplaceError {
    ghost use Rattle.std.specs.Prelude.{Some};
    ghost use Rattle.literal_search.specs.ErrorText.{replace_error_text};

    ghost output = { λ error. Some (replace_error_text error) };

    fn fmt<W: fmt::Write>(&self, f: &mut fmt::Formatter<W>) -> fmt::Result {
        match self {
            ReplaceError::NotOneForEach => write!(
                f,
                "there is not one replacement for each pattern"
            ),
            ReplaceError::OutOfMemory => write!(f, "out of memory"),
        }
    }
}

impl Error for ReplaceError {}

/// [`ReplaceError::OutOfMemory`].
impl From<AllocError> for ReplaceError {
    ghost use Rattle.std.specs.Prelude.{◌≡◌};
    ghost use Rattle.literal_search.specs.declared.replace.ReplaceError.TheVariants.{OutOfMemory};

    ghost from_gives = { λ _ error. error ≡ OutOfMemory };

    fn from(_: AllocError) -> ReplaceError {
        ReplaceError::OutOfMemory
    }
}

impl Search {
    /// Returns the haystack with each match of [`Search::find_iter`] replaced by the replacement of its pattern. There
    /// has to be one replacement for each pattern, in the order of their numbers; otherwise the error is
    /// [`ReplaceError::NotOneForEach`]. A replacement may be empty. Allocates only if the answer is not empty.
    ///
    /// ```rust
    /// let words = [b"apple".as_slice(), b"maple"];
    /// let search = Search::new(alloc, MatchKind::LeftmostFirst, true, words)?;
    /// let text = search.replace_all(alloc, b"Maple or apple?", &[b"pear", b"oak"])?;
    /// assert!(rt; text.as_slice() == b"oak or pear?".as_slice());
    /// ```
    pub fn replace_all(
        &self,
        alloc: Global,
        haystack: &[u8],
        replacements: &[&[u8]],
    ) -> Result<Vec<u8>, ReplaceError>
        ensures ok { IfOk result
            (λ text. IsReplaced self.now haystack.now (map (λ r. r.now) replacements.now) text.items) }
        ensures error { IfErr result
            (RefusesToReplace self.now haystack.now (map (λ r. r.now) replacements.now)) }
    {
        self.replace_all_counted(alloc, haystack, replacements, &mut Tally::new())
    }

    /// Like [`Search::replace_all`], and counts each looked-up byte in the tally, as scanned: at least the bytes of the
    /// haystack, and at most three times as many, and once more for each whole 262,000 bytes of the longest pattern. If
    /// memory is refused, it may be fewer.
    pub fn replace_all_counted(
        &self,
        alloc: Global,
        haystack: &[u8],
        replacements: &[&[u8]],
        tally: &mut Tally,
    ) -> Result<Vec<u8>, ReplaceError>
        ensures ok { IfOk result
            (λ text. IsReplaced self.now haystack.now (map (λ r. r.now) replacements.now) text.items
            × (tally.old.scanned + length haystack.now ≤ tally.new.scanned)) }
        ensures error { IfErr result
            (RefusesToReplace self.now haystack.now (map (λ r. r.now) replacements.now)) }
        ensures bounded { ScansListAtMost self.now.query.patterns (length haystack.now) tally.old tally.new }
    {
        if replacements.len() != self.patterns_len() {
            return Err(ReplaceError::NotOneForEach);
        }
        let mut text = Vec::new(alloc);
        let mut at = 0;
        let end = haystack.len();
        let mut matches = self.find_iter_in(haystack, Span { start: 0, end });
        while let Some(found) = matches.next_counted(tally) {
            text.extend_from_slice(&haystack[at..found.start()])?;
            text.extend_from_slice(replacements[found.pattern().as_usize()])?;
            at = found.end();
        }
        text.extend_from_slice(&haystack[at..])?;
        Ok(text)
    }

    /// Returns the text with each match replaced by the replacement of its pattern, as [`Search::replace_all`] does.
    /// The patterns have to be valid UTF-8 too. Then each match begins and ends between characters
    /// ([`laws::matches_of_texts_lie_between_characters`](crate::laws::matches_of_texts_lie_between_characters)), and
    /// the result is not validated again. Allocates only if the answer is not empty.
    pub fn replace_all_str(
        &self,
        alloc: Global,
        haystack: &str,
        replacements: &[&str],
    ) -> Result<String, ReplaceError>
        requires { All IsUtf8 self.now.query.patterns }
        ensures ok { IfOk result (λ text.
            IsReplaced self.now haystack.now (map (λ r. r.now) replacements.now) (string_bytes text)) }
        ensures error { IfErr result
            (RefusesToReplace self.now haystack.now (map (λ r. r.now) replacements.now)) }
    {
        if replacements.len() != self.patterns_len() {
            return Err(ReplaceError::NotOneForEach);
        }
        let mut text = String::new(alloc);
        let mut at = 0;
        for found in self.find_iter(haystack.as_bytes()) {
            text.push_str(&haystack[at..found.start()])?;
            text.push_str(replacements[found.pattern().as_usize()])?;
            at = found.end();
        }
        text.push_str(&haystack[at..])?;
        Ok(text)
    }

    /// Returns the haystack with each match of [`Search::find_iter`] replaced by what a function writes for it. The
    /// function is called for one match after another, with the match, its bytes, and the text written so far. It has
    /// to accept any such arguments. If memory is refused, in a call or here, it returns that error, but never for an
    /// empty haystack.
    ///
    /// ```rust
    /// let search = Search::builder().build(alloc, [b"apple".as_slice(), b"maple"])?;
    /// let text = search.replace_all_with(alloc, b"apple, maple", |_, bytes, text| {
    ///     text.extend_from_slice(b"<")?;
    ///     text.extend_from_slice(bytes)?;
    ///     text.extend_from_slice(b">")
    /// })?;
    /// assert!(rt; text.as_slice() == b"<apple>, <maple>".as_slice());
    /// ```
    pub fn replace_all_with<F: FnMut(Match, &[u8], &mut Vec<u8>) -> Result<(), AllocError>>(
        &self,
        alloc: Global,
        haystack: &[u8],
        mut write: F,
    ) -> Result<Vec<u8>, AllocError>
        requires { F.IsAlwaysCallable write }
        ensures ok { IfOk result (λ text. IsWritten F.step self.now haystack.now write text.items) }
        ensures error { OnErr result (0 < length haystack.now) }
    {
        let mut text = Vec::new(alloc);
        let mut at = 0;
        for found in self.find_iter(haystack) {
            text.extend_from_slice(&haystack[at..found.start()])?;
            write(found, &haystack[found.start()..found.end()], &mut text)?;
            at = found.end();
        }
        text.extend_from_slice(&haystack[at..])?;
        Ok(text)
    }
}

impl WholeWords {
    /// Returns the haystack with each whole word of [`WholeWords::find_iter`] replaced by the replacement of its
    /// pattern. There has to be one replacement for each pattern, in the order of their numbers; otherwise the error is
    /// [`ReplaceError::NotOneForEach`]. A replacement may be empty. Allocates only if the answer is not empty.
    pub fn replace_all(
        &self,
        alloc: Global,
        haystack: &[u8],
        replacements: &[&[u8]],
    ) -> Result<Vec<u8>, ReplaceError>
        ensures ok { IfOk result
            (λ text. AreWordsReplaced self.now haystack.now (map (λ r. r.now) replacements.now) text.items) }
        ensures error { IfErr result
            (RefusesToReplaceWords self.now haystack.now (map (λ r. r.now) replacements.now)) }
    {
        self.replace_all_by_sides(alloc, haystack, haystack, replacements)
    }

    /// Returns the bytes of the text with each whole word of [`WholeWords::find_text_iter`] replaced by the replacement
    /// of its pattern, as [`WholeWords::replace_all`] does. Allocates only if the answer is not empty.
    ///
    /// ```rust
    /// let (set, words) = (WholeWords::ascii_word_bytes(), [b"lan".as_slice()]);
    /// let search = WholeWords::new(alloc, MatchKind::LeftmostFirst, false, set, words)?;
    /// let text = WordText::new(alloc, "élan, lan")?;
    /// let replaced = search.replace_text_all(alloc, &text, &[b"net"])?;
    /// assert!(rt; replaced.as_slice() == "élan, net".as_bytes());
    /// ```
    pub fn replace_text_all(
        &self,
        alloc: Global,
        text: &WordText<'_>,
        replacements: &[&[u8]],
    ) -> Result<Vec<u8>, ReplaceError>
        ensures ok { IfOk result
            (λ bytes. AreTextWordsReplaced self.now text.now (map (λ r. r.now) replacements.now) bytes.items) }
        ensures error { IfErr result
            (RefusesToReplaceTextWords self.now text.now (map (λ r. r.now) replacements.now)) }
    {
        self.replace_all_by_sides(alloc, text.as_bytes(), text.sides(), replacements)
    }

    /// Returns the text with each whole word replaced by the replacement of its pattern, as [`WholeWords::replace_all`]
    /// does. The patterns have to be valid UTF-8 too. Allocates only if the answer is not empty.
    pub fn replace_all_str(
        &self,
        alloc: Global,
        haystack: &str,
        replacements: &[&str],
    ) -> Result<String, ReplaceError>
        requires { All IsUtf8 self.now.search.query.patterns }
        ensures ok { IfOk result (λ text.
            AreWordsReplaced self.now haystack.now (map (λ r. r.now) replacements.now) (string_bytes text)) }
        ensures error { IfErr result
            (RefusesToReplaceWords self.now haystack.now (map (λ r. r.now) replacements.now)) }
    {
        self.replace_all_str_by_sides(alloc, haystack, haystack.as_bytes(), replacements)
    }

    /// Returns the text with each whole word of [`WholeWords::find_text_iter`] replaced by the replacement of its
    /// pattern, as [`WholeWords::replace_text_all`] does. The patterns have to be valid UTF-8 too. Allocates only if
    /// the answer is not empty.
    pub fn replace_text_all_str(
        &self,
        alloc: Global,
        text: &WordText<'_>,
        replacements: &[&str],
    ) -> Result<String, ReplaceError>
        requires { All IsUtf8 self.now.search.query.patterns }
        ensures ok { IfOk result (λ answer.
            AreTextWordsReplaced self.now text.now (map (λ r. r.now) replacements.now) (string_bytes answer)) }
        ensures error { IfErr result
            (RefusesToReplaceTextWords self.now text.now (map (λ r. r.now) replacements.now)) }
    {
        self.replace_all_str_by_sides(alloc, text.as_str(), text.sides(), replacements)
    }

    /// The text with each whole word by its sides replaced by the replacement of its pattern.
    fn replace_all_str_by_sides(
        &self,
        alloc: Global,
        haystack: &str,
        sides: &[u8],
        replacements: &[&str],
    ) -> Result<String, ReplaceError>
        requires sides { length sides.now ≡ length haystack.now }
        requires texts { All IsUtf8 self.now.search.query.patterns }
        ensures ok { IfOk result (λ text. IsReplacedBy (AreWordsFromBy self.now sides.now)
            (length self.now.search.query.patterns) haystack.now (map (λ r. r.now) replacements.now)
            (string_bytes text)) }
        ensures error { IfErr result (RefusesToReplaceBy (AreWordsFromBy self.now sides.now)
            (length self.now.search.query.patterns) haystack.now (map (λ r. r.now) replacements.now)) }
    {
        if replacements.len() != self.patterns_len() {
            return Err(ReplaceError::NotOneForEach);
        }
        let mut text = String::new(alloc);
        let mut at = 0;
        let end = haystack.len();
        for found in self.matches_by_sides(haystack.as_bytes(), sides, Span { start: 0, end }) {
            text.push_str(&haystack[at..found.start()])?;
            text.push_str(replacements[found.pattern().as_usize()])?;
            at = found.end();
        }
        text.push_str(&haystack[at..])?;
        Ok(text)
    }

    /// The haystack with each whole word by its sides replaced by the replacement of its pattern.
    fn replace_all_by_sides(
        &self,
        alloc: Global,
        haystack: &[u8],
        sides: &[u8],
        replacements: &[&[u8]],
    ) -> Result<Vec<u8>, ReplaceError>
        requires { length sides.now ≡ length haystack.now }
        ensures ok { IfOk result (λ text. IsReplacedBy (AreWordsFromBy self.now sides.now)
            (length self.now.search.query.patterns) haystack.now (map (λ r. r.now) replacements.now) text.items) }
        ensures error { IfErr result (RefusesToReplaceBy (AreWordsFromBy self.now sides.now)
            (length self.now.search.query.patterns) haystack.now (map (λ r. r.now) replacements.now)) }
    {
        if replacements.len() != self.patterns_len() {
            return Err(ReplaceError::NotOneForEach);
        }
        let mut text = Vec::new(alloc);
        let mut at = 0;
        let end = haystack.len();
        for found in self.matches_by_sides(haystack, sides, Span { start: 0, end }) {
            text.extend_from_slice(&haystack[at..found.start()])?;
            text.extend_from_slice(replacements[found.pattern().as_usize()])?;
            at = found.end();
        }
        text.extend_from_slice(&haystack[at..])?;
        Ok(text)
    }

    /// Returns the haystack with each whole word of [`WholeWords::find_iter`] replaced by what a function writes for
    /// it, called as in [`Search::replace_all_with`]. If memory is refused, in a call or here, it returns that error,
    /// but never for an empty haystack.
    pub fn replace_all_with<F: FnMut(Match, &[u8], &mut Vec<u8>) -> Result<(), AllocError>>(
        &self,
        alloc: Global,
        haystack: &[u8],
        mut write: F,
    ) -> Result<Vec<u8>, AllocError>
        requires { F.IsAlwaysCallable write }
        ensures ok { IfOk result (λ text. AreWordsWritten F.step self.now haystack.now write text.items) }
        ensures error { OnErr result (0 < length haystack.now) }
    {
        let mut text = Vec::new(alloc);
        let mut at = 0;
        for found in self.find_iter(haystack) {
            text.extend_from_slice(&haystack[at..found.start()])?;
            write(found, &haystack[found.start()..found.end()], &mut text)?;
            at = found.end();
        }
        text.extend_from_slice(&haystack[at..])?;
        Ok(text)
    }
}
