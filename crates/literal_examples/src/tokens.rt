//! Cuts a text into matches and the gaps between them.
ghost use Rattle.std.specs.Prelude.{◌≡◌, ◌<◌, ◌≤◌, ◌++◌, IfOk, OnErr, OnOk, length};
ghost use Rattle.literal_base.specs.Greedy.{IsGreedy};
ghost use Rattle.literal_examples.specs.Tokens.{GapsAreWhole, Tiles, gap, matched};

use literal_search::{PatternID, Search, Span};
use std::alloc::{AllocError, Global};

/// A part of a text: the match of a pattern, or a gap between two matches.
#[derive(Clone, Copy, Debug, PartialEq, Drop)]
pub struct Token {
    /// The offsets of the token in the text, in bytes.
    pub span: Span,
    /// The pattern that matches there, if one does.
    pub pattern: Option<PatternID>,
}

/// The tokens of a text: the matches from the left that do not overlap, and the gaps before, between and after them,
/// each as one token. No token is empty, and in order they are the whole text. Memory is requested only if the text is
/// not empty.
pub fn tokens(alloc: Global, search: &Search, haystack: &[u8]) -> Result<Vec<Token>, AllocError>
    ensures tiles { IfOk result (λ all. Tiles 0 (length haystack.now) all.items) }
    ensures matched { IfOk result (λ all. IsGreedy search.now.query search.now.ignore_case haystack.now 0
        (matched all.items)) }
    ensures whole { IfOk result (λ all. GapsAreWhole all.items) }
    ensures no_memory { OnErr result (0 < length haystack.now) }
{
    let mut all = Vec::new(alloc);
    let mut at = 0;
    for found in search.find_iter(haystack) {
        push_gap(&mut all, at, found.start())?;
        all.push(Token {
            span: found.span(),
            pattern: Some(found.pattern()),
        })?;
        at = found.end();
    }
    push_gap(&mut all, at, haystack.len())?;
    Ok(all)
}

/// Adds the bytes between two offsets as a token, unless there are none.
fn push_gap(all: &mut Vec<Token>, start: usize, end: usize) -> Result<(), AllocError>
    requires { start ≤ end }
    ensures ok { OnOk result (all.new.items ≡ all.old.items ++ gap start end) }
    ensures no_memory { OnErr result (start < end) }
{
    if start < end {
        all.push(Token {
            span: Span { start, end },
            pattern: None,
        })?;
    }
    Ok(())
}
