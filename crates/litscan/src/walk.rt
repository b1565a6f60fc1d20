//! Finds the files to search: the named ones, and those in named directories.
ghost use Rattle.std.specs.Prelude.{◌≡◌, ◌++◌, ◌∷◌, [], Ok, List, OnOk, IfErr, IfOk, false, map};
ghost use Rattle.std.specs.List.{All, flat_map};
ghost use Rattle.litscan.specs.Request.{ChoiceValue, value_of_choice};
ghost use Rattle.litscan.specs.Walk.{AreReplaced, Excludes, IsReplaced, are_chosen, is_from};
ghost use Rattle.litscan.specs.Words.{StopsWords};
ghost use Rattle.litscan.specs.declared.fault.Fault.TheVariants.{OutOfMemory};

use crate::fault::Fault;
use crate::glob::fits;
use crate::input::{FileId, is_input, tell, tell_loop};
use crate::names::Rule;
use crate::options::{Folders, Options};
use crate::request::Choice;
use crate::words::add_file;
use std::alloc::Global;
use std::fs::{self, FileType};
use std::io::ErrorKind;
use std::str;

/// The files to search.
#[derive(Drop)]
pub struct Walk {
    /// Their names, in order.
    pub files: Vec<Vec<u8>>,
    /// Whether a directory was searched for files.
    pub walked: bool,
    /// Whether a directory could not be read.
    pub failed: bool,
}

/// How a file or directory is handled.
enum Turn {
    Search,
    Walk,
    Skip,
}

/// A named file or directory, or one found in a directory.
#[derive(Drop)]
struct Place {
    name: Vec<u8>,
    /// How many directories it is below the named FILE; 0 for the FILE itself.
    depth: usize,
}

/// A search of directories for files.
#[derive(Drop)]
struct Walker<'a> {
    rt: &'a HostRuntime,
    options: Options,
    choices: &'a [Choice],
    walk: Walk,
    /// The entries still to be handled, the next one last.
    places: Vec<Place>,
    /// The directory listed last, and those above it, outermost first.
    above: Vec<FileId>,
}

/// The files to search. A directory is replaced by the files in it, in the byte order of their names. Without names,
/// these are the files in the current directory.
pub fn files_of(
    rt: &HostRuntime,
    options: Options,
    choices: &[Choice],
    names: Vec<Vec<u8>>,
) -> Result<Walk, Fault>
    ensures named { are_chosen options (map value_of_choice choices.now) ≡ false
        → result ≡ Ok (record { files = names; walked = false; failed = false }) }
    ensures error { IfErr result (λ fault. fault ≡ OutOfMemory) }
{
    let mut walk = Walk {
        files: Vec::new(rt.alloc()),
        walked: false,
        failed: false,
    };
    if !are_chosen(options, choices) {
        walk.files = names;
        return Ok(walk);
    }
    let mut walker = Walker {
        rt,
        options,
        choices,
        walk,
        places: Vec::new(rt.alloc()),
        above: Vec::new(rt.alloc()),
    };
    walker.walk_through(names)?;
    Ok(walker.walk)
}

/// Whether the files to search may differ from the named ones.
fn are_chosen(options: Options, choices: &[Choice]) -> bool
    ensures { result ≡ are_chosen options (map value_of_choice choices.now) }
{
    let reads_folders = match options.folders {
        Folders::Read => true,
        _ => false,
    };
    !reads_folders || options.devices == Some(false) || !choices.is_empty()
}

impl<'a> Walker<'a> {
    /// Finds all files.
    fn walk_through(&mut self, names: Vec<Vec<u8>>) -> Result<(), Fault>
        ensures { IfErr result (λ fault. fault ≡ OutOfMemory) }
    {
        if names.is_empty() {
            self.list(b"", 0)?;
        }
        self.add(names, 0)?;
        // A bounded loop is proved to end. No directory tree reaches this bound.
        for _ in 0..u64::MAX {
            let Some(place) = self.places.pop() else {
                return Ok(());
            };
            let Place { name, depth } = place;
            match self.turn_of(name.as_slice(), depth)? {
                Turn::Search => self.walk.files.push(name).or(Err(Fault::OutOfMemory))?,
                Turn::Walk => self.list(name.as_slice(), depth)?,
                Turn::Skip => {}
            }
        }
        Err(Fault::OutOfMemory)
    }

    /// Adds files and directories. The first is handled next.
    fn add(&mut self, names: Vec<Vec<u8>>, depth: usize) -> Result<(), Fault>
        ensures { IfErr result (λ fault. fault ≡ OutOfMemory) }
    {
        let mut names = names;
        while let Some(name) = names.pop() {
            self.places
                .push(Place { name, depth })
                .or(Err(Fault::OutOfMemory))?;
        }
        Ok(())
    }

    /// How a file or directory is handled. If its kind cannot be read it is searched: opening it reports the cause.
    fn turn_of(&self, name: &[u8], depth: usize) -> Result<Turn, Fault>
        ensures { IfErr result (λ fault. fault ≡ OutOfMemory) }
    {
        if depth == 0 && is_input(name) {
            return Ok(Turn::Search);
        }
        let Some(kind) = self.kind_of(name, depth) else {
            return Ok(if depth > 0 && self.is_left_out(name, depth, false)? {
                Turn::Skip
            } else {
                Turn::Search
            });
        };
        if kind.is_symlink() || self.is_left_out(name, depth, kind.is_dir())? {
            return Ok(Turn::Skip);
        }
        if kind.is_dir() {
            return Ok(match self.options.folders {
                Folders::Read => Turn::Search,
                Folders::Skip => Turn::Skip,
                Folders::Walk => Turn::Walk,
            });
        }
        if kind.is_file() || self.reads_devices(depth) {
            return Ok(Turn::Search);
        }
        Ok(Turn::Skip)
    }

    /// Whether devices, pipes and sockets are searched. By default only named ones are, and with `-R` all.
    fn reads_devices(&self, depth: usize) -> bool {
        self.options
            .devices
            .unwrap_or(depth == 0 || self.options.follows)
    }

    /// The kind of a file: regular, directory, symbolic link, or other. Named links are followed, and with `-R` all
    /// links.
    fn kind_of(&self, name: &[u8], depth: usize) -> Option<FileType> {
        let path = str::from_utf8(name).ok()?;
        let found = if depth == 0 || self.options.follows {
            fs::metadata(self.rt, path)
        } else {
            fs::symlink_metadata(self.rt, path)
        };
        Some(found.ok()?.file_type())
    }

    /// Whether the choices leave out this file or directory. The last choice that fits decides. If none does, it is
    /// left out if the first choice is an `--include`.
    fn is_left_out(&self, name: &[u8], depth: usize, folder: bool) -> Result<bool, Fault>
        ensures { IfErr result (λ fault. fault ≡ OutOfMemory) }
    {
        let mut left_out = None;
        for choice in self.choices {
            let (includes, for_folders) = match choice.rule {
                Rule::Include => (true, false),
                // No choice is an `ExcludeFrom` here: `with_patterns` has replaced each.
                Rule::Exclude | Rule::ExcludeFrom => (false, false),
                Rule::ExcludeFolder => (false, true),
            };
            if for_folders != folder {
                continue;
            }
            if self.fits(choice, name, depth)? {
                left_out = Some(!includes);
            } else if left_out.is_none() {
                left_out = Some(includes);
            }
        }
        Ok(left_out.unwrap_or(false))
    }

    /// Whether a pattern fits the last part of a name. It fits the name of a FILE too if it fits the whole name, or all
    /// that follows one of its slashes.
    fn fits(&self, choice: &Choice, name: &[u8], depth: usize) -> Result<bool, Fault>
        ensures { IfErr result (λ fault. fault ≡ OutOfMemory) }
    {
        let glob = match choice.rule {
            Rule::ExcludeFolder => without_slashes(choice.glob.as_slice()),
            _ => choice.glob.as_slice(),
        };
        for at in 0..name.len() {
            let begins = at == 0 || name[at - 1] == b'/' && name[at] != b'/';
            let fitting = begins && (depth == 0 || !name[at..].contains(&b'/'));
            if fitting && fits(self.rt.alloc(), glob, &name[at..])? {
                return Ok(true);
            }
        }
        Ok(false)
    }

    /// Adds the entries of this directory, or of the current one if the name is empty. A directory that contains itself
    /// through a link is reported; so is one that cannot be read.
    fn list(&mut self, name: &[u8], depth: usize) -> Result<(), Fault>
        ensures { IfErr result (λ fault. fault ≡ OutOfMemory) }
    {
        let name = with_one_slash(name);
        let shown: &[u8] = if name.is_empty() { b"." } else { name };
        let Ok(path) = str::from_utf8(shown) else {
            return self.fail(shown, ErrorKind::InvalidData);
        };
        let listing = match fs::read_dir(self.rt, path) {
            Ok(listing) => listing,
            Err(error) => return self.fail(shown, error.kind()),
        };
        self.above.truncate(depth);
        let id = match fs::metadata(self.rt, path) {
            Ok(metadata) => FileId::of(&metadata),
            Err(error) => return self.fail(shown, error.kind()),
        };
        if self.above.contains(&id) {
            if !self.options.untold {
                tell_loop(self.rt, shown);
            }
            return Ok(());
        }
        self.above.push(id).or(Err(Fault::OutOfMemory))?;
        self.walk.walked = true;
        let mut names = Vec::new(self.rt.alloc());
        for entry in listing {
            match entry {
                Ok(entry) => {
                    let path = self.joined(name, entry.file_name())?;
                    names.push(path).or(Err(Fault::OutOfMemory))?;
                }
                // The name is not UTF-8.
                Err(error) if error.kind() == ErrorKind::InvalidFilename => {
                    self.fail(shown, ErrorKind::InvalidData)?
                }
                Err(error) => self.fail(shown, error.kind())?,
            }
        }
        names.sort_unstable();
        self.add(names, depth.saturating_add(1))
    }

    /// The path of a file in a directory: the directory's name, a slash and the file's name.
    fn joined(&self, folder: &[u8], name: &str) -> Result<Vec<u8>, Fault>
        ensures { IfErr result (λ fault. fault ≡ OutOfMemory) }
    {
        let mut path = Vec::from_slice(self.rt.alloc(), folder).or(Err(Fault::OutOfMemory))?;
        if !folder.is_empty() && !folder.ends_with(b"/") {
            path.push(b'/').or(Err(Fault::OutOfMemory))?;
        }
        path.extend_from_slice(name.as_bytes())
            .or(Err(Fault::OutOfMemory))?;
        Ok(path)
    }

    /// Reports that a directory cannot be read, unless `-s` is given.
    fn fail(&mut self, name: &[u8], kind: ErrorKind) -> Result<(), Fault>
        ensures { IfErr result (λ fault. fault ≡ OutOfMemory) }
    {
        if kind == ErrorKind::OutOfMemory {
            return Err(Fault::OutOfMemory);
        }
        self.walk.failed = true;
        if !self.options.untold {
            tell(self.rt, name, kind);
        }
        Ok(())
    }
}

/// The name of a directory, with several slashes at its end replaced by one. The name `//` stays.
fn with_one_slash(name: &[u8]) -> &[u8] {
    let mut end = name.len();
    if end == 2 {
        return name;
    }
    while end > 1 && name[end - 1] == b'/' && name[end - 2] == b'/' {
        end -= 1;
    }
    &name[..end]
}

/// The pattern without the slashes at its end.
fn without_slashes(glob: &[u8]) -> &[u8] {
    let mut end = glob.len();
    while end > 1 && glob[end - 1] == b'/' {
        end -= 1;
    }
    &glob[..end]
}

/// The choices, where each `--exclude-from` is replaced by an `--exclude` for each pattern in its file.
pub fn with_patterns(rt: &HostRuntime, choices: &[Choice]) -> Result<Vec<Choice>, Fault>
    ensures kept { IfOk result (λ all. (parts : List (List ChoiceValue))
        × AreReplaced (map value_of_choice choices.now) parts
        × (map value_of_choice all.items ≡ flat_map (λ part. part) parts)) }
    ensures error { IfErr result StopsWords }
{
    let mut all = Vec::new(rt.alloc());
    for choice in choices {
        replace(rt, choice, &mut all)?;
    }
    Ok(all)
}

/// Adds a choice, or instead of an `--exclude-from` an `--exclude` for each pattern in its file.
fn replace(rt: &HostRuntime, choice: &Choice, all: &mut Vec<Choice>) -> Result<(), Fault>
    ensures kept { OnOk result ((part : List ChoiceValue)
        × IsReplaced (is_from choice.now.rule) (value_of_choice choice.now) part
        × (map value_of_choice all.new.items ≡ map value_of_choice all.old.items ++ part)) }
    ensures error { IfErr result StopsWords }
{
    match choice.rule {
        Rule::ExcludeFrom => add_patterns(rt, choice.glob.as_slice(), all),
        rule => add_choice(rt.alloc(), rule, choice.glob.as_slice(), all),
    }
}

/// Adds a choice for each line of this file, without the white space at the line's end. Lines of white space alone are
/// ignored.
fn add_patterns(rt: &HostRuntime, name: &[u8], all: &mut Vec<Choice>) -> Result<(), Fault>
    ensures added { OnOk result ((part : List ChoiceValue) × All Excludes part
        × (map value_of_choice all.new.items ≡ map value_of_choice all.old.items ++ part)) }
    ensures error { IfErr result StopsWords }
{
    let mut lines = Vec::new(rt.alloc());
    add_file(rt, Options::none(), name, &mut lines)?;
    for line in &lines {
        add_pattern(rt.alloc(), line.trim_ascii_end(), all)?;
    }
    Ok(())
}

/// Adds an `--exclude` with a copy of this pattern, unless it is empty.
fn add_pattern(alloc: Global, glob: &[u8], all: &mut Vec<Choice>) -> Result<(), Fault>
    ensures added { OnOk result ((part : List ChoiceValue) × All Excludes part
        × (map value_of_choice all.new.items ≡ map value_of_choice all.old.items ++ part)) }
    ensures error { IfErr result StopsWords }
{
    if glob.is_empty() {
        return Ok(());
    }
    add_choice(alloc, Rule::Exclude, glob, all)
}

/// Adds a choice with a copy of this pattern.
fn add_choice(alloc: Global, rule: Rule, glob: &[u8], all: &mut Vec<Choice>) -> Result<(), Fault>
    ensures added { OnOk result (map value_of_choice all.new.items
        ≡ map value_of_choice all.old.items ++ record { rule = rule; glob = glob.now } ∷ []) }
    ensures error { IfErr result StopsWords }
{
    let glob = Vec::from_slice(alloc, glob).or(Err(Fault::OutOfMemory))?;
    all.push(Choice { rule, glob }).or(Err(Fault::OutOfMemory))
}
