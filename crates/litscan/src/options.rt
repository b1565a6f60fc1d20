//! The options of a search, and the letters and arguments that set them.
ghost use Rattle.std.specs.Prelude.{◌≡◌, Some, true, unwrap_or};
ghost use Rattle.std.specs.Char.{is_ascii_digit};
ghost use Rattle.std.specs.Str.{bytes_eq};
ghost use Rattle.litscan.specs.Context.{as_context, has_context, lines_after, lines_before};
ghost use Rattle.litscan.specs.Options.{color_named, is_colored, is_enough, is_marked, is_replaced, is_silent};
ghost use Rattle.litscan.specs.Options.{is_walking, limit_of, no_options, number_of, on_output};
ghost use Rattle.litscan.specs.Options.{takes_action, takes_argument, takes_number, with_action, with_binary_files};
ghost use Rattle.litscan.specs.Options.{with_digit, with_digit_of_lines, with_letter, with_number, with_plain_letter};
ghost use Rattle.litscan.specs.Options.{skips_zero, with_mask, with_switch};
ghost use Rattle.litscan.specs.Printed.{has_head};

use crate::names::Switch;

/// When output is coloured.
#[derive(Clone, Copy)]
pub enum Color {
    /// Never.
    Never,
    /// If standard output is a terminal.
    Auto,
    /// Always.
    Always,
}

/// What is printed for a match.
#[derive(Clone, Copy)]
pub enum Shown {
    /// The match.
    Match,
    /// This byte for each byte of the match.
    Mask(u8),
    /// The number of the word that matches, from 1.
    Number,
}

/// How a directory is handled.
#[derive(Clone, Copy)]
pub enum Folders {
    /// It is read as a file, which fails.
    Read,
    /// It is skipped.
    Skip,
    /// The files in it are searched.
    Walk,
}

/// The options of a search.
#[derive(Clone, Copy)]
pub struct Options {
    /// `-i`: whether ASCII case is ignored.
    pub ignore_case: bool,
    /// `-v`: whether the lines without a word are selected.
    pub others: bool,
    /// `-c`: whether the number of selected lines is printed instead of the lines.
    pub count: bool,
    /// `-n`: whether the line number is printed before each line or match.
    pub numbers: bool,
    /// `-b`: whether the offset in the text, in bytes, is printed before each line or match.
    pub offsets: bool,
    /// `-o`: whether the matches in a line are printed instead of the line.
    pub only: bool,
    /// `-w`: whether words match only with no word byte right before or after them.
    pub alone: bool,
    /// `-x`: whether words match only as the whole line, regardless of `alone`.
    pub whole: bool,
    /// `-H`, `-h`: whether the file name is printed before each line or match, if one of them is given.
    pub named: Option<bool>,
    /// `-r`, `-R`, `-d`: how a directory is handled.
    pub folders: Folders,
    /// `-R`: whether symbolic links in directories are followed, and devices in directories are searched.
    pub follows: bool,
    /// `-D`: whether devices, pipes and sockets are searched, if it is given.
    pub devices: Option<bool>,
    /// `-I`: whether a file with a zero byte in its first block is searched as if it were empty.
    pub text_only: bool,
    /// The byte that ends a line: a line feed, or with `-z` a zero byte.
    pub line_end: u8,
    /// `-Z`: whether a zero byte follows a file name, instead of a colon or a line feed.
    pub zero: bool,
    /// `-T`: whether a tab is printed before a line or match that is not empty, if anything else is.
    pub tab: bool,
    /// The least width of a printed number or offset.
    pub width: usize,
    /// `-l`, `-L`: whether to print, instead of lines, the names of the files in which a line is selected (true) or of
    /// the others (false).
    pub listed: Option<bool>,
    /// `--color`: when names, numbers and matches are printed in colour.
    pub color: Color,
    /// `--mask`, `--which-word`: what is printed for a match.
    pub shown: Shown,
    /// `--line-buffered`: whether each line is written at once.
    pub line_buffered: bool,
    /// `-q`: whether nothing is printed.
    pub quiet: bool,
    /// `-s`: whether files that cannot be read are not reported.
    pub untold: bool,
    /// `-m`: how many lines of a file may be selected, if it is given.
    pub most: Option<u64>,
    /// `-B`: how many lines are printed before a selected line, if it is given.
    pub before: Option<u64>,
    /// `-A`: how many lines are printed after a selected line, if it is given.
    pub after: Option<u64>,
    /// `-C`, `-NUM`: the default for both `before` and `after`.
    pub around: Option<u64>,
    /// Whether the last letter read is a digit of `-NUM`.
    pub in_number: bool,
    /// Whether a separator is printed between groups; `--no-group-separator` clears it, `--group-separator` sets it.
    pub separated: bool,
    /// Whether a dash is printed instead of each colon, as for a context line.
    pub dashed: bool,
    /// `--crlf`: whether a carriage return at the end of a line belongs to its end.
    pub crlf: bool,
    /// `--skip-blank`: whether empty lines among the words are skipped.
    pub skip_blank: bool,
    /// `--help`: whether the help text is printed.
    pub help: bool,
    /// `-V`: whether the version is printed.
    pub version: bool,
}

impl Options {
    /// The options if none is given.
    pub fn none() -> Options
        ensures { result ≡ no_options }
    {
        Options {
            ignore_case: false,
            others: false,
            count: false,
            numbers: false,
            offsets: false,
            only: false,
            alone: false,
            whole: false,
            named: None,
            folders: Folders::Read,
            follows: false,
            devices: None,
            text_only: false,
            line_end: b'\n',
            zero: false,
            tab: false,
            width: 0,
            listed: None,
            color: Color::Never,
            shown: Shown::Match,
            line_buffered: false,
            quiet: false,
            untold: false,
            most: None,
            before: None,
            after: None,
            around: None,
            in_number: false,
            separated: true,
            dashed: false,
            crlf: false,
            skip_blank: false,
            help: false,
            version: false,
        }
    }

    /// Sets the option of this letter or digit. None if it is not an option without argument.
    pub fn with_letter(self, letter: u8) -> Option<Options>
        ensures { result ≡ with_letter self letter }
    {
        if letter.is_ascii_digit() {
            return Some(self.with_digit_of_lines(letter));
        }
        let mut options = self.with_plain_letter(letter)?;
        options.in_number = false;
        Some(options)
    }

    /// Adds a digit to the number of `-NUM`, which is limited to 2^64 - 1.
    fn with_digit_of_lines(self, digit: u8) -> Options
        requires { is_ascii_digit digit ≡ true }
        ensures { result ≡ with_digit_of_lines self digit }
    {
        let mut options = self;
        let number = if options.in_number {
            options.around.unwrap_or(0)
        } else {
            0
        };
        options.around = Some(
            number
                .saturating_mul(10)
                .saturating_add(u64::from(digit - b'0')),
        );
        options.in_number = true;
        options
    }

    /// Sets the option of this letter. None if it is not an option without argument.
    fn with_plain_letter(self, letter: u8) -> Option<Options>
        ensures { result ≡ with_plain_letter self letter }
    {
        let mut options = self;
        match letter {
            b'b' => options.offsets = true,
            b'c' => options.count = true,
            b'h' => options.named = Some(false),
            b'H' => options.named = Some(true),
            b'i' | b'y' => options.ignore_case = true,
            b'l' => options.listed = Some(true),
            b'L' => options.listed = Some(false),
            b'I' => options.text_only = true,
            b'n' => options.numbers = true,
            b'o' => options.only = true,
            b'q' => options.quiet = true,
            b'r' => options.folders = Folders::Walk,
            b'R' => {
                options.folders = Folders::Walk;
                options.follows = true;
            }
            b's' => options.untold = true,
            b'T' => options.tab = true,
            b'v' => options.others = true,
            b'V' => options.version = true,
            b'w' => options.alone = true,
            b'x' => options.whole = true,
            b'z' => options.line_end = 0,
            b'Z' => options.zero = true,
            b'?' => options.help = true,
            b'a' => options.text_only = false,
            b'F' | b'u' | b'U' => {}
            _ => return None,
        }
        Some(options)
    }

    /// Sets an option that has neither a letter nor an argument.
    pub fn with_switch(self, switch: Switch) -> Options
        ensures { result ≡ with_switch switch self }
    {
        let mut options = self;
        match switch {
            Switch::LineBuffered => options.line_buffered = true,
            Switch::MindCase => options.ignore_case = false,
            Switch::NoSeparator => options.separated = false,
            Switch::Crlf => options.crlf = true,
            Switch::SkipBlank => options.skip_blank = true,
            Switch::WhichWord => {
                options.only = true;
                options.shown = Shown::Number;
            }
        }
        options
    }

    /// Sets the option of this letter, A, B, C or m, to its number.
    pub fn with_number(self, letter: u8, number: u64) -> Options
        ensures { result ≡ with_number letter self number }
    {
        let mut options = self;
        match letter {
            b'A' => options.after = Some(number),
            b'B' => options.before = Some(number),
            b'C' => options.around = Some(number),
            _ => options.most = Some(number),
        }
        options
    }

    /// Sets the option of this letter, `-d` or `-D`, to an action. None if it has no such action.
    pub fn with_action(self, letter: u8, action: &[u8]) -> Option<Options>
        ensures { result ≡ with_action letter self action.now }
    {
        let mut options = self;
        match letter {
            b'D' if is_text(action, "read") => options.devices = Some(true),
            b'D' if is_text(action, "skip") => options.devices = Some(false),
            b'd' if is_text(action, "read") => options.folders = Folders::Read,
            b'd' if is_text(action, "skip") => options.folders = Folders::Skip,
            b'd' if is_text(action, "recurse") => options.folders = Folders::Walk,
            _ => return None,
        }
        Some(options)
    }

    /// Sets the option for this argument of `--binary-files`. None if the argument is not supported.
    pub fn with_binary_files(self, kind: &[u8]) -> Option<Options>
        ensures { result ≡ with_binary_files self kind.now }
    {
        if is_text(kind, "text") {
            return self.with_letter(b'a');
        }
        if is_text(kind, "without-match") {
            return self.with_letter(b'I');
        }
        None
    }

    /// Sets the byte that is printed for each byte of a match. None if the argument is not one byte.
    pub fn with_mask(self, mask: &[u8]) -> Option<Options>
        ensures { result ≡ with_mask self mask.now }
    {
        if mask.len() != 1 {
            return None;
        }
        let mut options = self;
        options.shown = Shown::Mask(mask[0]);
        Some(options)
    }

    /// Sets the least width of a printed number or offset.
    pub fn with_width(self, width: usize) -> Options
        ensures { result ≡ record self { width = width } }
    {
        let mut options = self;
        options.width = width;
        options
    }

    /// Sets whether file names are printed, unless `-H` or `-h` did.
    pub fn with_names(self, named: bool) -> Options
        ensures { result ≡ record self { named = Some (unwrap_or self.named named) } }
    {
        let mut options = self;
        options.named = Some(options.named.unwrap_or(named));
        options
    }

    /// Whether directories are searched.
    pub fn is_walking(self) -> bool
        ensures { result ≡ is_walking self.folders }
    {
        match self.folders {
            Folders::Walk => true,
            Folders::Read | Folders::Skip => false,
        }
    }

    /// Replaces `Color::Auto` by always if standard output is a terminal, and by never otherwise. On a terminal each
    /// line is written at once.
    pub fn on_output(self, is_terminal: bool) -> Options
        ensures { result ≡ on_output is_terminal self }
    {
        let mut options = self;
        if let Color::Auto = options.color {
            options.color = if is_terminal {
                Color::Always
            } else {
                Color::Never
            };
        }
        options.line_buffered = options.line_buffered || is_terminal;
        options
    }

    /// Whether output is always coloured.
    pub fn is_colored(self) -> bool
        ensures { result ≡ is_colored self }
    {
        match self.color {
            Color::Always => true,
            _ => false,
        }
    }

    /// Whether anything else than a match is printed for it.
    pub fn is_replaced(self) -> bool
        ensures { result ≡ is_replaced self.shown }
    {
        match self.shown {
            Shown::Match => false,
            Shown::Mask(_) | Shown::Number => true,
        }
    }

    /// Whether a line is printed otherwise than it is if it has a match.
    pub fn is_marked(self) -> bool
        ensures { result ≡ is_marked self }
    {
        self.is_colored() || self.is_replaced()
    }

    /// Whether a file with a zero byte is searched as if it were empty, with `-I`, unless a zero byte ends lines.
    pub fn skips_zero(self) -> bool
        ensures { result ≡ skips_zero self }
    {
        self.text_only && self.line_end != 0
    }

    /// Whether no line is printed: only the number of lines, file names, or nothing is requested.
    pub fn is_silent(self) -> bool
        ensures { result ≡ is_silent self }
    {
        self.count || self.quiet || self.listed.is_some()
    }

    /// Whether the file name, the line number or the offset is printed before a line.
    pub fn has_head(self) -> bool
        ensures { result ≡ has_head self }
    {
        self.named.unwrap_or(false) || self.numbers || self.offsets
    }

    /// The number of lines of a file that have to be selected before reading stops, if there is a limit. It is at most
    /// 1 if only the existence of such a line matters.
    pub fn limit(self) -> Option<u64>
        ensures { result ≡ limit_of self }
    {
        if self.quiet || self.listed.is_some() {
            return Some(self.most.unwrap_or(1).min(1));
        }
        self.most
    }
}

impl Options {
    /// Whether lines around selected lines are printed.
    pub fn has_context(self) -> bool
        ensures { result ≡ has_context self }
    {
        !self.is_silent()
            && (self.before.is_some() || self.after.is_some() || self.around.is_some())
    }

    /// How many lines are printed before a selected line.
    pub fn lines_before(self) -> u64
        ensures { result ≡ lines_before self }
    {
        self.before.unwrap_or(self.around.unwrap_or(0))
    }

    /// How many lines are printed after a selected line; 0 if none may be selected.
    pub fn lines_after(self) -> u64
        ensures { result ≡ lines_after self }
    {
        if is_enough(self.limit(), 0) {
            return 0;
        }
        self.after.unwrap_or(self.around.unwrap_or(0))
    }

    /// The options for a context line: a dash instead of each colon.
    pub fn as_context(self) -> Options
        ensures { result ≡ as_context self }
    {
        let mut options = self;
        options.dashed = true;
        options
    }
}

/// Whether this many lines reach the limit.
pub fn is_enough(limit: Option<u64>, count: u64) -> bool
    ensures { result ≡ is_enough limit count }
{
    match limit {
        Some(most) => count == most,
        None => false,
    }
}

/// Whether an option of this letter takes an argument.
pub fn takes_argument(letter: u8) -> bool
    ensures { result ≡ takes_argument letter }
{
    letter == b'e' || letter == b'f' || takes_number(letter) || takes_action(letter)
}

/// Whether an option of this letter takes the name of an action.
pub fn takes_action(letter: u8) -> bool
    ensures { result ≡ takes_action letter }
{
    letter == b'd' || letter == b'D'
}

/// Whether an option of this letter takes a number.
pub fn takes_number(letter: u8) -> bool
    ensures { result ≡ takes_number letter }
{
    letter == b'A' || letter == b'B' || letter == b'C' || letter == b'm'
}

/// The value of the colour option for this argument, if it is valid.
pub fn color_named(when: &[u8]) -> Option<Color>
    ensures { result ≡ color_named when.now }
{
    if is_text(when, "always") || is_text(when, "yes") || is_text(when, "force") {
        return Some(Color::Always);
    }
    if is_text(when, "never") || is_text(when, "no") || is_text(when, "none") {
        return Some(Color::Never);
    }
    if is_text(when, "auto") || is_text(when, "tty") || is_text(when, "if-tty") {
        return Some(Color::Auto);
    }
    None
}

/// Whether these bytes are this text.
fn is_text(bytes: &[u8], text: &str) -> bool
    ensures { result ≡ bytes_eq bytes.now text.now }
{
    bytes == text.as_bytes()
}

/// The number that these digits write. None if there is no digit, a byte is not a digit, or the number reaches 2^64.
pub fn number_of(digits: &[u8]) -> Option<u64>
    ensures { result ≡ number_of digits.now }
{
    if digits.is_empty() {
        return None;
    }
    let mut number = 0;
    for digit in digits {
        number = with_digit(number, *digit)?;
    }
    Some(number)
}

/// Appends a digit to a number. None if it is not a digit, or the number reaches 2^64.
fn with_digit(number: u64, digit: u8) -> Option<u64>
    ensures { result ≡ with_digit number digit }
{
    if !digit.is_ascii_digit() {
        return None;
    }
    number.checked_mul(10)?.checked_add(u64::from(digit - b'0'))
}
