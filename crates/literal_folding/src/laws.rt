//! Laws of the folding. Each function does nothing; its contract is the law.
ghost use Rattle.std.specs.Prelude.{◌≡◌, ◌≤◌, ◌<◌, ◌⊎◌, ◌∷◌, ◌++◌, [], List, ℕ, length, map, slice_index, true};
ghost use Rattle.std.specs.Char.{IsScalar, encode_utf8, len_utf8, to_ascii_lowercase};
ghost use Rattle.std.specs.Str.{IsAscii, StartsWithNoChar, all_scalars, encode_utf8_all};
ghost use Rattle.literal_folding.specs.Folding.{NoneGoesOver, folded, folded_char};

/// The folding of a character is a character, has the same length in UTF-8, and is its own folding.
pub fn foldings_are_chars()
    ensures scalar { (c : ℕ) → IsScalar c → IsScalar (folded_char c) }
    ensures len { (c : ℕ) → len_utf8 (folded_char c) ≡ len_utf8 c }
    ensures twice { (c : ℕ) → folded_char (folded_char c) ≡ folded_char c }
{}

/// A character at the start of a text is folded, and so is the rest of the text. A byte with which no character begins
/// is unchanged. This determines the folding of any text.
pub fn each_char_is_folded()
    ensures empty { folded [] ≡ [] }
    ensures char { (c : ℕ) (text : List ℕ) → IsScalar c
        → folded (encode_utf8 c ++ text) ≡ encode_utf8 (folded_char c) ++ folded text }
    ensures other { (byte : ℕ) (text : List ℕ) → StartsWithNoChar (byte ∷ text)
        → folded (byte ∷ text) ≡ byte ∷ folded text }
{}

/// The folding of a text in UTF-8 is the text of the folded characters.
pub fn utf8_is_folded_by_chars()
    ensures { (chars : List ℕ) → all_scalars chars ≡ true
        → folded (encode_utf8_all chars) ≡ encode_utf8_all (map folded_char chars) }
{}

/// The folding has as many bytes as the text, so each offset stays.
pub fn lengths_stay()
    ensures { (text : List ℕ) → length (folded text) ≡ length text }
{}

/// A folded text is its own folding.
pub fn folded_twice_is_folded()
    ensures { (text : List ℕ) → folded (folded text) ≡ folded text }
{}

/// Without a byte above 127, Unicode's folding is that of ASCII.
pub fn ascii_is_folded_as_ascii()
    ensures { (text : List ℕ) → IsAscii text → folded text ≡ map to_ascii_lowercase text }
{}

/// The parts of a text are folded separately if no character crosses the cut between them. None does if the second part
/// begins with a byte that is below 128 or at least 192, or is empty.
pub fn parts_are_folded_separately()
    ensures parts { (before behind : List ℕ) → NoneGoesOver before behind
        → folded (before ++ behind) ≡ folded before ++ folded behind }
    ensures boundary { (before behind : List ℕ)
        → (slice_index behind 0 < 128) ⊎ (192 ≤ slice_index behind 0) → NoneGoesOver before behind }
{}
