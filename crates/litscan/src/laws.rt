//! Consequences of the definitions.
ghost use Rattle.std.specs.Prelude.{◌≡◌, ◌≢◌, ◌+◌, ◌-◌, ◌==◌, ◌||◌, ◌++◌, ◌∷◌, [], ◌<◌, ◌↔◌, ℕ, Bool, List, IfOk, Ok};
ghost use Rattle.std.specs.Prelude.{codes, false, length, not, slice_index_or, take, true};
ghost use Rattle.std.specs.Char.{is_ascii_digit};
ghost use Rattle.std.specs.List.{flat_map, list_any};
ghost use Rattle.literal_base.specs.Occurs.{AreEqualBytes, one_occurs, pattern_at, rest_from};
ghost use Rattle.literal_search.specs.SearchValue.{SearchValue};
ghost use Rattle.litscan.specs.Asked.{IsLineOf, OccursAsked, one_asked};
ghost use Rattle.litscan.specs.Context.{Mark, PrintsGroups, PrintsMarked, is_printed, left_out, printed_between};
ghost use Rattle.litscan.specs.Lines.{AreLinesOf, lines_of, with_end};
ghost use Rattle.litscan.specs.Names.{option_named};
ghost use Rattle.litscan.specs.Options.{takes_argument};
ghost use Rattle.litscan.specs.declared.names.Long.TheVariants.{Letter};
ghost use Rattle.litscan.specs.Request.{RequestValue, asked_from, result_and_then, with_any, with_letters, with_name};
ghost use Rattle.litscan.specs.Printed.{PrintsLine, PrintsLines, counts};
ghost use Rattle.litscan.specs.declared.options.Options.{Options};

use crate::request::Next;

/// The lines of a text, each followed by the byte that ends lines, make up the text, except that the last such byte may
/// be missing. No line contains that byte. No other list of lines has these properties.
pub fn lines_make_the_text()
    ensures are { (line_end : ℕ) (text : List ℕ) → AreLinesOf line_end text (lines_of line_end text) }
    ensures only { (line_end : ℕ) (text : List ℕ) (lines : List (List ℕ)) → AreLinesOf line_end text lines
        → lines ≡ lines_of line_end text }
{}

/// The output for a line follows the output for the lines before it. Its number is one more than the number of these
/// lines, and its offset is their length with their ends.
pub fn lines_are_printed_in_turn()
    ensures { (search : SearchValue) (options : Options) (front more : List (List ℕ))
        (name line out : List ℕ) → PrintsLines search options name 1 0 (front ++ line ∷ more) out
        → (before part after : List ℕ) × (out ≡ before ++ (part ++ after))
        × PrintsLines search options name 1 0 front before
        × PrintsLine (counts search options line) search options name (length front + 1)
        (length (flat_map (with_end options.line_end) front)) line part }
{}

/// In groups too, the output for a line follows the output for the lines before it. Its mark says how it is printed.
/// Its number is one more than the number of these lines, and its offset is their length with their ends. A
/// separator comes first if the line is printed, the line before it is not, and any line was printed before.
pub fn groups_are_printed_in_turn()
    ensures { (search : SearchValue) (options : Options) (any : Bool) (front more : List (List ℕ)) (marks : List Mark)
        (separator name line out : List ℕ)
        → PrintsGroups search options separator name any true 1 0 (front ++ line ∷ more) marks out
        → let at = length front in let mark = slice_index_or marks at left_out in
        let printed = any || list_any is_printed (take at marks) in
        let apart = at == 0 || not (is_printed (slice_index_or marks (at - 1) left_out)) in
        (before part after : List ℕ)
        × (out ≡ before ++ (printed_between options separator printed apart mark ++ (part ++ after)))
        × PrintsMarked mark search options name (at + 1) (length (flat_map (with_end options.line_end) front)) line
        part }
{}

/// The test is true exactly if a word has an allowed occurrence in the line. With neither `-w` nor `-x`, this means
/// that a word occurs. With `-x`, it means that the line is one of the words, up to ASCII case with `-i`, and
/// with `--crlf` up to a carriage return at its end.
pub fn lines_are_asked_for()
    ensures occurs { (search : SearchValue) (options : Options) (line : List ℕ)
        → (one_asked search options line ≡ true)
        ↔ ((i : ℕ) × (at : ℕ) × OccursAsked search options line (rest_from line 0) i at) }
    ensures any { (search : SearchValue) (options : Options) (line : List ℕ) → options.whole ≡ false
        → options.alone ≡ false
        → one_asked search options line ≡ one_occurs search.query.patterns search.ignore_case line }
    ensures whole { (search : SearchValue) (options : Options) (line : List ℕ) → options.whole ≡ true
        → (one_asked search options line ≡ true) ↔ ((i : ℕ) × (i < length search.query.patterns)
        × (text : List ℕ) × IsLineOf options line text
        × AreEqualBytes search.ignore_case text (pattern_at search.query.patterns i)) }
{}

/// Joined letters mean the same as separate ones, if the first takes no argument and is not a digit. A long name means
/// the same as its letter. After two dashes, each argument is a file.
pub fn options_are_asked_for()
    ensures joined { (letter next : ℕ) (more : List ℕ) (request : RequestValue) → takes_argument letter ≡ false
        → is_ascii_digit letter ≡ false → letter ≢ 45 → next ≢ 45 → with_any (45 ∷ letter ∷ next ∷ more) request
        ≡ result_and_then (with_any (45 ∷ next ∷ more)) (with_any (45 ∷ letter ∷ []) request) }
    ensures named { (name : List ℕ) (letter : ℕ) (request : RequestValue)
        → option_named request.at name ≡ Ok (Letter letter)
        → with_name name request ≡ with_letters (letter ∷ []) request }
    ensures dashes { (request : RequestValue)
        → with_any (codes "--") request ≡ Ok (record request { next = Next.File }) }
    ensures files { (at : ℕ) (words : List (List ℕ)) (request : RequestValue) → request.next ≡ Next.File
        → IfOk (asked_from at words request) (λ asked. (asked.files ≡ request.files ++ words)
        × (asked.options ≡ request.options) × (asked.sources ≡ request.sources)) }
{}
