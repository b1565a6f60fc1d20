//! A text and its sides, in which Unicode's letters and digits are word characters.
ghost use Rattle.std.specs.Prelude.{◌≡◌, ◌++◌, ◌+◌, ◌-◌, ◌<◌, IfOk, OnErr, OnOk, length};
ghost use Rattle.std.specs.Str.{IsAscii};
ghost use Rattle.literal_words.specs.WordText.{side_of, sides_of, sides_of_char};
ghost use Rattle.literal_words.specs.Inside.WholeWords.{AreSidesOf};

use std::alloc::{AllocError, Global};
use std::marker::Model;

/// A text for `WholeWords::find_text`, and for each of its characters whether it is a word character. Contracts see the
/// bytes of the text.
///
/// An ASCII character is a word character if its byte is a word byte of the search. Any other character counts as the
/// letter `a` if [`char::is_alphanumeric`] holds, and otherwise as a space.
///
/// ```rust
/// let (set, words) = (WholeWords::ascii_word_bytes(), [b"lan".as_slice()]);
/// let search = WholeWords::new(alloc, MatchKind::LeftmostFirst, false, set, words)?;
/// let text = WordText::new(alloc, "élan, lan")?;
/// let found = search.find_text(&text).ok_or("nothing is found")?;
/// assert!(rt; found.range() == (7..10));
/// ```
#[derive(Drop)]
pub struct WordText<'h> {
    text: &'h str,
    own_sides: Vec<u8>,
}

impl<'h> Model for WordText<'h> {
    ghost use Rattle.std.specs.Prelude.{List, ℕ};
    ghost use Rattle.literal_words.specs.Inside.WholeWords.{AreSidesOf};

    ghost Value = { List ℕ };

    ghost view = { λ t. t.text.now };

    ghost invariant = { λ t. AreSidesOf t.text.now t.own_sides.items };
}

impl<'h> WordText<'h> {
    /// Returns the text with its sides. It borrows the text. Allocates only if the text has a character beyond ASCII.
    pub fn new(alloc: Global, text: &'h str) -> Result<WordText<'h>, AllocError>
        ensures ok { IfOk result (λ new. new ≡ text.now) }
        ensures no_memory { OnErr result (¬ IsAscii text.now) }
    {
        let own_sides = new_sides(alloc, text)?;
        Ok(WordText { text, own_sides })
    }

    /// Returns the bytes of the text.
    pub fn as_bytes(&self) -> &[u8]
        ensures { result.now ≡ self.now }
    {
        self.text.as_bytes()
    }

    /// Returns the text.
    pub fn as_str(&self) -> &str
        ensures { result.now ≡ self.now }
    {
        self.text
    }

    /// Returns its sides: as many bytes as the text has. An ASCII character is unchanged. Each byte of any other
    /// character is the letter `a` if [`char::is_alphanumeric`] holds, and otherwise a space.
    pub fn sides(&self) -> &[u8]
        ensures sides { result.now ≡ sides_of self.now }
        ensures len { length result.now ≡ length self.now }
    {
        if self.own_sides.is_empty() {
            self.text.as_bytes()
        } else {
            &self.own_sides
        }
    }
}

/// The sides of a text, or none if the text is its own sides.
fn new_sides(alloc: Global, text: &str) -> Result<Vec<u8>, AllocError>
    ensures ok { IfOk result (λ sides. AreSidesOf text.now sides.items) }
    ensures no_memory { OnErr result (¬ IsAscii text.now) }
{
    let mut all = Vec::new(alloc);
    if text.is_ascii() {
        return Ok(all);
    }
    all.reserve(text.len())?;
    for c in text.chars() {
        push_sides(c, &mut all)?;
    }
    Ok(all)
}

/// Appends the sides of a character.
fn push_sides(c: char, bytes: &mut Vec<u8>) -> Result<(), AllocError>
    ensures { OnOk result (bytes.new.items ≡ bytes.old.items ++ sides_of_char c) }
{
    let side = [side_of(c); 4];
    bytes.extend_from_slice(&side[..c.len_utf8()])
}

/// The byte that stands for a character at the side of an occurrence.
fn side_of(c: char) -> u8
    ensures { result ≡ side_of c }
{
    if c.is_ascii() {
        c as u8
    } else if c.is_alphanumeric() {
        b'a'
    } else {
        b' '
    }
}
