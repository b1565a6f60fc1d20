//! A lexer: it cuts a text into a sequence of words.
ghost use Rattle.std.specs.Prelude.{◌≡◌, ◌+◌, ◌*◌, ◌<◌, ◌≤◌, IfOk, OnErr, length};
ghost use Rattle.literal_search.specs.SearchValue.{longest_of};
ghost use Rattle.literal_examples.specs.Lexed.{IsLexed};

use literal_search::{Match, Search, Tally};
use std::alloc::{AllocError, Global};

/// The tokens of a text, and the offset where they end: the text's end, or the first offset where no word is.
#[derive(Drop)]
pub struct Lexed {
    pub tokens: Vec<Match>,
    pub end: usize,
}

/// The tokens at the beginning of a text: at each offset the word there, by the match kind the longest or the first,
/// and then the next one after it. Blanks are words too. It takes linear time: for each token, which has a byte or
/// more, and once at the end, it looks up at most as many bytes as the longest word has. It looks up at least the bytes
/// of the tokens. Memory is requested only if the text is not empty.
pub fn lex(
    alloc: Global,
    words: &Search,
    text: &[u8],
    tally: &mut Tally,
) -> Result<Lexed, AllocError>
    ensures lexed { IfOk result (λ lexed. IsLexed words.now text.now 0 lexed.tokens.items lexed.end) }
    ensures linear { IfOk result (λ lexed. tally.new.scanned
        ≤ tally.old.scanned + (length lexed.tokens.items + 1) * longest_of words.now.query.patterns) }
    ensures each { IfOk result (λ lexed. tally.old.scanned + lexed.end ≤ tally.new.scanned) }
    ensures others { tally.new ≡ record tally.old { scanned = tally.new.scanned } }
    ensures few { IfOk result (λ lexed. length lexed.tokens.items ≤ lexed.end) }
    ensures no_memory { OnErr result (0 < length text.now) }
{
    let mut tokens = Vec::new(alloc);
    let mut end = 0;
    while let Some(found) = words.match_at_counted(text, end, tally) {
        tokens.push(found)?;
        end = found.end();
    }
    Ok(Lexed { tokens, end })
}
