//! The long names of options, which may be shortened, and the options that have no letter.
ghost use Rattle.std.specs.Prelude.{◌≡◌, map};
ghost use Rattle.litscan.specs.Names.{begins, is_other, named_in, one_differs, option_named, shortened_in};
ghost use Rattle.litscan.specs.Names.{value_of_named};

use crate::fault::Fault;
use std::io::Write;

/// An option that selects files or directories by name.
#[derive(Clone, Copy)]
pub enum Rule {
    /// `--exclude`: these files are left out.
    Exclude,
    /// `--exclude-dir`: these directories are left out.
    ExcludeFolder,
    /// `--exclude-from`: files that a line of this file fits are left out.
    ExcludeFrom,
    /// `--include`: these files are not left out.
    Include,
}

/// An option with an argument and only a long name. `--color` is not one: its argument is optional.
#[derive(Clone, Copy)]
pub enum Setting {
    /// `--binary-files`: how a file that is not text is handled.
    BinaryFiles,
    /// `--exclude`, `--exclude-dir`, `--exclude-from` or `--include`: which files are searched.
    Rule(Rule),
    /// `--label`: the name of standard input.
    Label,
    /// `--mask`: the byte that is printed for each byte of a match.
    Mask,
    /// `--group-separator`: the separator between groups of lines.
    Separator,
}

/// An option with only a long name, and no argument.
#[derive(Clone, Copy)]
pub enum Switch {
    /// `--line-buffered`: each line is written at once.
    LineBuffered,
    /// `--no-ignore-case`: ASCII case is not ignored.
    MindCase,
    /// `--no-group-separator`: nothing is printed between groups of lines.
    NoSeparator,
    /// `--crlf`: a carriage return at the end of a line belongs to its end.
    Crlf,
    /// `--skip-blank`: empty lines among the words are skipped.
    SkipBlank,
    /// `--which-word`: the number of its word is printed for each match.
    WhichWord,
}

/// The option of a long name.
#[derive(Clone, Copy)]
pub enum Long {
    /// `--color`: its argument is optional.
    Color,
    /// The option of this letter.
    Letter(u8),
    /// An option with an argument and no letter.
    Setting(Setting),
    /// An option with neither.
    Switch(Switch),
}

/// The long names, in the order in which a message lists them.
const LONG_NAMES: [(&str, Long); 50] = [
    ("--fixed-strings", Long::Letter(b'F')),
    ("--after-context", Long::Letter(b'A')),
    ("--before-context", Long::Letter(b'B')),
    ("--binary-files", Long::Setting(Setting::BinaryFiles)),
    ("--byte-offset", Long::Letter(b'b')),
    ("--context", Long::Letter(b'C')),
    ("--color", Long::Color),
    ("--colour", Long::Color),
    ("--count", Long::Letter(b'c')),
    ("--crlf", Long::Switch(Switch::Crlf)),
    ("--devices", Long::Letter(b'D')),
    ("--directories", Long::Letter(b'd')),
    ("--exclude", Long::Setting(Setting::Rule(Rule::Exclude))),
    (
        "--exclude-from",
        Long::Setting(Setting::Rule(Rule::ExcludeFrom)),
    ),
    (
        "--exclude-dir",
        Long::Setting(Setting::Rule(Rule::ExcludeFolder)),
    ),
    ("--file", Long::Letter(b'f')),
    ("--files-with-matches", Long::Letter(b'l')),
    ("--files-without-match", Long::Letter(b'L')),
    ("--group-separator", Long::Setting(Setting::Separator)),
    ("--help", Long::Letter(b'?')),
    ("--include", Long::Setting(Setting::Rule(Rule::Include))),
    ("--ignore-case", Long::Letter(b'i')),
    ("--no-ignore-case", Long::Switch(Switch::MindCase)),
    ("--initial-tab", Long::Letter(b'T')),
    ("--label", Long::Setting(Setting::Label)),
    ("--line-buffered", Long::Switch(Switch::LineBuffered)),
    ("--line-number", Long::Letter(b'n')),
    ("--line-regexp", Long::Letter(b'x')),
    ("--mask", Long::Setting(Setting::Mask)),
    ("--max-count", Long::Letter(b'm')),
    ("--no-filename", Long::Letter(b'h')),
    ("--no-group-separator", Long::Switch(Switch::NoSeparator)),
    ("--no-messages", Long::Letter(b's')),
    ("--null", Long::Letter(b'Z')),
    ("--null-data", Long::Letter(b'z')),
    ("--only-matching", Long::Letter(b'o')),
    ("--quiet", Long::Letter(b'q')),
    ("--recursive", Long::Letter(b'r')),
    ("--dereference-recursive", Long::Letter(b'R')),
    ("--regexp", Long::Letter(b'e')),
    ("--invert-match", Long::Letter(b'v')),
    ("--silent", Long::Letter(b'q')),
    ("--skip-blank", Long::Switch(Switch::SkipBlank)),
    ("--text", Long::Letter(b'a')),
    ("--binary", Long::Letter(b'U')),
    ("--unix-byte-offsets", Long::Letter(b'u')),
    ("--version", Long::Letter(b'V')),
    ("--which-word", Long::Switch(Switch::WhichWord)),
    ("--with-filename", Long::Letter(b'H')),
    ("--word-regexp", Long::Letter(b'w')),
];

/// The option of a long name, which may be shortened. `at` is the index of the argument.
#[tactic(auto, unfolding(crate::specs::Names::long_names))]
pub fn option_named(name: &[u8], at: usize) -> Result<Long, Fault>
    ensures { result ≡ option_named at name.now }
{
    match named_in(&LONG_NAMES, name) {
        Some(option) => Ok(option),
        None => shortened_in(&LONG_NAMES, name, at),
    }
}

/// The option in a table with exactly this name.
fn named_in(table: &[(&str, Long)], name: &[u8]) -> Option<Long>
    ensures { result ≡ named_in (map value_of_named table.now) name.now }
{
    for entry in table {
        if entry.0.as_bytes() == name {
            return Some(entry.1);
        }
    }
    None
}

/// The option in a table of the names that begin with these bytes. They need to have one option.
fn shortened_in(table: &[(&str, Long)], start: &[u8], at: usize) -> Result<Long, Fault>
    ensures { result ≡ shortened_in at start.now (map value_of_named table.now) }
{
    for (i, entry) in table.iter().enumerate() {
        if begins(entry.0, start) {
            if one_differs(entry.1, &table[i + 1..], start) {
                return Err(Fault::Ambiguous(at));
            }
            return Ok(entry.1);
        }
    }
    Err(Fault::UnknownName(at))
}

/// Whether a name in a table that begins with these bytes has another option.
fn one_differs(option: Long, table: &[(&str, Long)], start: &[u8]) -> bool
    ensures { result ≡ one_differs option start.now (map value_of_named table.now) }
{
    for entry in table {
        if begins(entry.0, start) && is_other(option, entry.1) {
            return true;
        }
    }
    false
}

/// Whether the options of two names differ. Of names that begin alike, only `--color` and `--colour` are the same
/// option.
fn is_other(option: Long, other: Long) -> bool
    ensures { result ≡ is_other option other }
{
    match (option, other) {
        (Long::Color, Long::Color) => false,
        _ => true,
    }
}

/// Whether a name begins with these bytes.
fn begins(name: &str, start: &[u8]) -> bool
    ensures { result ≡ begins name.now start.now }
{
    let name = name.as_bytes();
    start.len() <= name.len() && &name[..start.len()] == start
}

/// Reports on standard error that several long names begin with this argument, up to its equals sign.
pub fn tell_ambiguous(rt: &HostRuntime, word: &[u8]) {
    let mut log = rt.stderr();
    let _ = log.write_all(b"litscan: option '");
    let _ = log.write_all(word);
    let _ = log.write_all(b"' is ambiguous; possibilities:");
    let start = word.split(|byte| *byte == b'=').next().unwrap_or(word);
    for entry in &LONG_NAMES {
        if begins(entry.0, start) {
            let _ = write!(log, " '{}'", entry.0);
        }
    }
    let _ = log.write_all(b"\n");
}
