//! Replaces each match in the folding of a text.
ghost use Rattle.std.specs.Prelude.{IfErr, IfOk, map};
ghost use Rattle.literal_folding.specs.Replaced.{IsReplacedFolded, RefusesToReplaceFolded};

use crate::search::FoldedSearch;
use crate::text::FoldedText;
use literal_search::ReplaceError;
use std::alloc::Global;

impl FoldedSearch {
    /// Returns the text with each match of [`FoldedSearch::find_iter`] in its folding replaced by the replacement of
    /// its pattern. There has to be one replacement for each pattern, in the order of their numbers; otherwise the
    /// error is [`ReplaceError::NotOneForEach`]. Allocates, for the folded text and for the answer, only if the text is
    /// not empty.
    ///
    /// ```rust
    /// let search = FoldedSearch::new(alloc, MatchKind::LeftmostFirst, ["пример".as_bytes()])?;
    /// let text = search.replace_all(alloc, "Это ПРИМЕР.".as_bytes(), &["тест".as_bytes()])?;
    /// assert!(rt; text.as_slice() == "Это тест.".as_bytes());
    /// ```
    pub fn replace_all(
        &self,
        alloc: Global,
        text: &[u8],
        replacements: &[&[u8]],
    ) -> Result<Vec<u8>, ReplaceError>
        ensures ok { IfOk result
            (λ answer. IsReplacedFolded self.now text.now (map (λ r. r.now) replacements.now) answer.items) }
        ensures error { IfErr result
            (RefusesToReplaceFolded self.now text.now (map (λ r. r.now) replacements.now)) }
    {
        if replacements.len() != self.patterns_len() {
            return Err(ReplaceError::NotOneForEach);
        }
        let folded = FoldedText::new(alloc, text)?;
        let mut answer = Vec::new(alloc);
        let mut at = 0;
        for found in self.find_iter(&folded) {
            answer.extend_from_slice(&text[at..found.start()])?;
            answer.extend_from_slice(replacements[found.pattern().as_usize()])?;
            at = found.end();
        }
        answer.extend_from_slice(&text[at..])?;
        Ok(answer)
    }
}
