//! Parses the command line.
ghost use Rattle.std.specs.Prelude.{◌≡◌, ◌<◌, ◌⊎◌, Err, Ok, IfSome, MatchResult, length, map};
ghost use Rattle.std.specs.List.{position};
ghost use Rattle.std.specs.Result.{IsOk};
ghost use Rattle.litscan.specs.Request.{Becomes, BecomesBy, SomeAreRight, completed, is_equals, is_long, is_option};
ghost use Rattle.litscan.specs.Request.{label_of, no_request, request_of, separator_of, value_of_choice};
ghost use Rattle.litscan.specs.Request.{value_of_request, value_of_source, with_any, with_argument, with_behind};
ghost use Rattle.litscan.specs.Request.{with_choice, with_file, with_files, with_label, with_letters, with_long};
ghost use Rattle.litscan.specs.Request.{with_name, with_named, with_separator, with_setting, with_source, with_word};
ghost use Rattle.litscan.specs.Request.{with_words};

use crate::fault::Fault;
use crate::input::INPUT;
use crate::names::{Long, Rule, Setting, option_named};
use crate::options::{
    Color, Options, color_named, number_of, takes_action, takes_argument, takes_number,
};
use std::alloc::Global;

/// A source of words to search for.
#[derive(Drop)]
pub enum Source {
    /// Each line of these bytes is a word. Without any byte, there is one word, the empty one.
    Words(Vec<u8>),
    /// Each line of the file of this name is a word.
    File(Vec<u8>),
}

/// A choice of files or directories to leave out, or of files to include.
#[derive(Drop)]
pub struct Choice {
    /// The option that gave it.
    pub rule: Rule,
    /// The pattern for the names.
    pub glob: Vec<u8>,
}

/// The kind of the next argument.
#[derive(Clone, Copy)]
pub enum Next {
    /// An option, or the name of a file.
    Any,
    /// The argument of the option of this letter.
    Argument(u8),
    /// The argument of this option.
    Setting(Setting),
    /// The name of a file, whatever it is.
    File,
}

/// The request, from the arguments read so far.
#[derive(Drop)]
pub struct Request {
    /// The options.
    pub options: Options,
    /// The sources of the words to search for.
    pub sources: Vec<Source>,
    /// The names of the files; `-` is standard input.
    pub files: Vec<Vec<u8>>,
    /// The choices of files and directories, in the order of the command line.
    pub choices: Vec<Choice>,
    /// The separator between groups of lines, if it is given.
    pub separator: Option<Vec<u8>>,
    /// The name of standard input, if it is given.
    pub label: Option<Vec<u8>>,
    /// The kind of the next argument.
    pub next: Next,
    /// The index of the argument being read, from 0.
    pub at: usize,
}

impl Request {
    /// Parses options and file names. If no option gives words to search for, the first name is taken as the words.
    /// There are no options after `--`.
    pub fn of(alloc: Global, args: &[Vec<u8>]) -> Result<Request, Fault>
        ensures { MatchResult result
            (λ request. request_of (map (λ word. word.items) args.now) ≡ Ok (value_of_request request))
            (λ fault. (request_of (map (λ word. word.items) args.now) ≡ Err fault) ⊎ ((fault ≡ Fault.OutOfMemory)
            × (IsOk (request_of (map (λ word. word.items) args.now))
            ⊎ SomeAreRight (map (λ word. word.items) args.now) no_request))) }
    {
        let mut request = Request::none(alloc);
        request.take_words(alloc, args)?;
        request.complete(alloc)?;
        Ok(request)
    }

    /// The request without any argument.
    fn none(alloc: Global) -> Request
        ensures { value_of_request result ≡ no_request }
    {
        Request {
            options: Options::none(),
            sources: Vec::new(alloc),
            files: Vec::new(alloc),
            choices: Vec::new(alloc),
            separator: None,
            label: None,
            next: Next::Any,
            at: 0,
        }
    }

    /// Reads several arguments.
    fn take_words(&mut self, alloc: Global, words: &[Vec<u8>]) -> Result<(), Fault>
        ensures { BecomesBy result (map (λ word. word.items) words.now) (value_of_request self.old)
            (value_of_request self.new) }
    {
        for (i, word) in words.iter().enumerate() {
            self.at = i;
            self.take_word(alloc, word.as_slice())?;
        }
        Ok(())
    }

    /// Reads an argument.
    fn take_word(&mut self, alloc: Global, word: &[u8]) -> Result<(), Fault>
        ensures { Becomes result (with_word word.now (value_of_request self.old)) (value_of_request self.new) }
    {
        match self.next {
            Next::Any => self.take_any(alloc, word),
            Next::Argument(letter) => {
                self.next = Next::Any;
                self.take_argument(alloc, letter, word)
            }
            Next::Setting(setting) => {
                self.next = Next::Any;
                self.take_setting(alloc, setting, word)
            }
            Next::File => self.add_file(alloc, word),
        }
    }

    /// Reads an argument that may be an option.
    fn take_any(&mut self, alloc: Global, word: &[u8]) -> Result<(), Fault>
        ensures { Becomes result (with_any word.now (value_of_request self.old)) (value_of_request self.new) }
    {
        if word == b"--".as_slice() {
            self.next = Next::File;
            return Ok(());
        }
        if is_long(word) {
            return self.take_long(alloc, word);
        }
        if is_option(word) {
            self.options.in_number = false;
            return self.take_letters(alloc, &word[1..]);
        }
        self.add_file(alloc, word)
    }

    /// Reads a long option, with or without an equals sign and an argument after it.
    fn take_long(&mut self, alloc: Global, word: &[u8]) -> Result<(), Fault>
        ensures { Becomes result (with_long word.now (value_of_request self.old)) (value_of_request self.new) }
    {
        let Some(at) = equals_in(word) else {
            return self.take_name(alloc, word);
        };
        self.take_named(alloc, &word[..at], &word[at + 1..])
    }

    /// Reads the name of a long option without an equals sign.
    fn take_name(&mut self, alloc: Global, name: &[u8]) -> Result<(), Fault>
        ensures { Becomes result (with_name name.now (value_of_request self.old)) (value_of_request self.new) }
    {
        match option_named(name, self.at)? {
            Long::Color => self.options.color = Color::Auto,
            Long::Letter(letter) => return self.take_letters(alloc, &[letter]),
            Long::Setting(setting) => self.next = Next::Setting(setting),
            Long::Switch(switch) => self.options = self.options.with_switch(switch),
        }
        Ok(())
    }

    /// Reads a long option, given its name and its argument.
    fn take_named(&mut self, alloc: Global, name: &[u8], argument: &[u8]) -> Result<(), Fault>
        ensures { Becomes result (with_named name.now argument.now (value_of_request self.old))
            (value_of_request self.new) }
    {
        match option_named(name, self.at)? {
            Long::Color => {
                self.options.color = color_named(argument).ok_or(Fault::Usage)?;
                Ok(())
            }
            Long::Letter(letter) if takes_argument(letter) => {
                self.take_argument(alloc, letter, argument)
            }
            Long::Setting(setting) => self.take_setting(alloc, setting, argument),
            Long::Letter(_) | Long::Switch(_) => Err(Fault::Usage),
        }
    }

    /// Reads joined option letters. The argument of the last one may follow.
    fn take_letters(&mut self, alloc: Global, letters: &[u8]) -> Result<(), Fault>
        ensures { Becomes result (with_letters letters.now (value_of_request self.old)) (value_of_request self.new) }
    {
        for (i, letter) in letters.iter().enumerate() {
            if takes_argument(*letter) {
                return self.take_behind(alloc, *letter, &letters[i + 1..]);
            }
            self.options = self
                .options
                .with_letter(*letter)
                .ok_or(Fault::UnknownLetter(*letter))?;
        }
        Ok(())
    }

    /// Reads the bytes after an option letter as its argument; if there are none, the next argument is.
    fn take_behind(&mut self, alloc: Global, letter: u8, behind: &[u8]) -> Result<(), Fault>
        ensures { Becomes result (with_behind letter behind.now (value_of_request self.old))
            (value_of_request self.new) }
    {
        if behind.is_empty() {
            self.next = Next::Argument(letter);
            return Ok(());
        }
        self.take_argument(alloc, letter, behind)
    }

    /// Reads the argument of an option that has a letter.
    fn take_argument(&mut self, alloc: Global, letter: u8, argument: &[u8]) -> Result<(), Fault>
        ensures { Becomes result (with_argument letter argument.now (value_of_request self.old))
            (value_of_request self.new) }
    {
        if takes_number(letter) {
            let number = number_of(argument).ok_or(Fault::Usage)?;
            self.options = self.options.with_number(letter, number);
            return Ok(());
        }
        if takes_action(letter) {
            self.options = self
                .options
                .with_action(letter, argument)
                .ok_or(Fault::Usage)?;
            return Ok(());
        }
        let argument = copy_of(alloc, argument)?;
        if letter == b'e' {
            return self.add_source(Source::Words(argument));
        }
        self.add_source(Source::File(argument))
    }

    /// Reads the argument of an option without a letter.
    fn take_setting(
        &mut self,
        alloc: Global,
        setting: Setting,
        argument: &[u8],
    ) -> Result<(), Fault>
        ensures { Becomes result (with_setting setting argument.now (value_of_request self.old))
            (value_of_request self.new) }
    {
        match setting {
            Setting::BinaryFiles => {
                self.options = self
                    .options
                    .with_binary_files(argument)
                    .ok_or(Fault::Usage)?;
                Ok(())
            }
            Setting::Label => self.set_label(alloc, argument),
            Setting::Mask => {
                self.options = self.options.with_mask(argument).ok_or(Fault::Usage)?;
                Ok(())
            }
            Setting::Separator => self.set_separator(alloc, argument),
            Setting::Rule(rule) => {
                let glob = copy_of(alloc, argument)?;
                self.add_choice(Choice { rule, glob })
            }
        }
    }

    /// Adds a choice of files or directories.
    fn add_choice(&mut self, choice: Choice) -> Result<(), Fault>
        ensures { Becomes result (Ok (with_choice (value_of_choice choice) (value_of_request self.old)))
            (value_of_request self.new) }
    {
        self.choices.push(choice).or(Err(Fault::OutOfMemory))
    }

    /// Sets the separator between groups of lines, and has it printed.
    fn set_separator(&mut self, alloc: Global, separator: &[u8]) -> Result<(), Fault>
        ensures { Becomes result (Ok (with_separator separator.now (value_of_request self.old)))
            (value_of_request self.new) }
    {
        self.separator = Some(copy_of(alloc, separator)?);
        self.options.separated = true;
        Ok(())
    }

    /// Sets the name of standard input.
    fn set_label(&mut self, alloc: Global, label: &[u8]) -> Result<(), Fault>
        ensures { Becomes result (Ok (with_label label.now (value_of_request self.old)))
            (value_of_request self.new) }
    {
        self.label = Some(copy_of(alloc, label)?);
        Ok(())
    }

    /// The name of standard input, as it is printed.
    pub fn label(&self) -> &[u8]
        ensures { result.now ≡ label_of (value_of_request self.now) }
    {
        match &self.label {
            Some(label) => label.as_slice(),
            None => INPUT,
        }
    }

    /// The separator between groups of lines.
    pub fn separator(&self) -> &[u8]
        ensures { result.now ≡ separator_of (value_of_request self.now) }
    {
        match &self.separator {
            Some(separator) => separator.as_slice(),
            None => b"--",
        }
    }

    /// Adds a source of words.
    fn add_source(&mut self, source: Source) -> Result<(), Fault>
        ensures { Becomes result (Ok (with_source (value_of_source source) (value_of_request self.old)))
            (value_of_request self.new) }
    {
        self.sources.push(source).or(Err(Fault::OutOfMemory))
    }

    /// Adds the name of a file.
    fn add_file(&mut self, alloc: Global, name: &[u8]) -> Result<(), Fault>
        ensures { Becomes result (Ok (with_file name.now (value_of_request self.old))) (value_of_request self.new) }
    {
        let name = copy_of(alloc, name)?;
        self.files.push(name).or(Err(Fault::OutOfMemory))
    }

    /// Completes the request after the last argument.
    fn complete(&mut self, alloc: Global) -> Result<(), Fault>
        ensures { Becomes result (completed (value_of_request self.old)) (value_of_request self.new) }
    {
        match self.next {
            Next::Argument(_) | Next::Setting(_) => return Err(Fault::Usage),
            _ => {}
        }
        if self.options.help || self.options.version {
            return Ok(());
        }
        self.find_words()?;
        self.find_files(alloc)
    }

    /// If there is no source of words, the first file name becomes one.
    fn find_words(&mut self) -> Result<(), Fault>
        ensures { Becomes result (with_words (value_of_request self.old)) (value_of_request self.new) }
    {
        if !self.sources.is_empty() {
            return Ok(());
        }
        if self.files.is_empty() {
            return Err(Fault::Usage);
        }
        let words = self.files.remove(0);
        self.add_source(Source::Words(words))
    }

    /// Adds standard input if there is no file, unless directories are searched. By default, file names are printed if
    /// there are several files.
    fn find_files(&mut self, alloc: Global) -> Result<(), Fault>
        ensures { Becomes result (Ok (with_files (value_of_request self.old))) (value_of_request self.new) }
    {
        if self.files.len() > 1 {
            self.options = self.options.with_names(true);
        }
        if self.files.is_empty() && !self.options.is_walking() {
            return self.add_file(alloc, b"-");
        }
        Ok(())
    }
}

/// A copy of these bytes.
fn copy_of(alloc: Global, bytes: &[u8]) -> Result<Vec<u8>, Fault>
    ensures { MatchResult result (λ copy. copy.items ≡ bytes.now) (λ fault. fault ≡ Fault.OutOfMemory) }
{
    Vec::from_slice(alloc, bytes).or(Err(Fault::OutOfMemory))
}

/// Whether an argument is an option: a dash, and at least one byte after it.
fn is_option(word: &[u8]) -> bool
    ensures { result ≡ is_option word.now }
{
    word.len() > 1 && word[0] == b'-'
}

/// Whether an argument is a long option: it begins with two dashes.
fn is_long(word: &[u8]) -> bool
    ensures { result ≡ is_long word.now }
{
    word.len() > 1 && word[0] == b'-' && word[1] == b'-'
}

/// The index of the first equals sign of an argument.
fn equals_in(word: &[u8]) -> Option<usize>
    ensures found { result ≡ position is_equals word.now }
    ensures inside { IfSome result (λ at. at < length word.now) }
{
    word.iter().position(|byte| *byte == b'=')
}
