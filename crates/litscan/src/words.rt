//! Reads the words, and builds the search for them.
ghost use Rattle.std.specs.Prelude.{◌≡◌, ◌<◌, ◌≤◌, ◌++◌, List, ℕ, IfErr, IfOk, IfSome, OnOk, length, map};
ghost use Rattle.std.specs.List.{flat_map};
ghost use Rattle.literal_base.specs.declared.packed.MatchKind.TheVariants.{LeftmostLongest};
ghost use Rattle.literal_search.specs.SearchValue.{search_by};
ghost use Rattle.litscan.specs.Fault.{RefusesWords};
ghost use Rattle.litscan.specs.Lines.{with_feed};
ghost use Rattle.litscan.specs.Request.{value_of_source};
ghost use Rattle.litscan.specs.Words.{AreTextsOf, IsTextOf, StopsWords, words_of_text};
ghost use Rattle.litscan.specs.declared.fault.Fault.TheVariants.{OutOfMemory};

use crate::device::Device;
use crate::fault::Fault;
use crate::input::{
    buffered, is_input, open, shown_name, tell, tell_empty_line, tell_return_lines,
};
use crate::lines::{add_lines, ends_in_return};
use crate::options::Options;
use crate::request::Source;
use literal_search::{MatchKind, Search};
use std::alloc::Global;
use std::io::{BufRead, ErrorKind};

/// The words of these sources.
pub fn words_of(
    rt: &HostRuntime,
    options: Options,
    sources: &[Source],
) -> Result<Vec<Vec<u8>>, Fault>
    ensures words { IfOk result (λ words. (texts : List (List ℕ))
        × AreTextsOf (map value_of_source sources.now) texts
        × (map (λ word. word.items) words.items ≡ flat_map (words_of_text options) texts)) }
    ensures error { IfErr result StopsWords }
{
    let mut words = Vec::new(rt.alloc());
    let mut given = 0;
    for source in sources {
        given = count_given(given, source);
        add_words(rt, options, source, given, &mut words)?;
    }
    Ok(words)
}

/// Adds 1 if the source is an argument of the command line.
fn count_given(given: u64, source: &Source) -> u64 {
    match source {
        Source::Words(_) => given.saturating_add(1),
        Source::File(_) => given,
    }
}

/// Adds the words of a source, if none of them is empty. An empty word is reported. `given` is the number of sources,
/// so far, that are arguments.
fn add_words(
    rt: &HostRuntime,
    options: Options,
    source: &Source,
    given: u64,
    words: &mut Vec<Vec<u8>>,
) -> Result<(), Fault>
    ensures added { OnOk result ((text : List ℕ) × IsTextOf (value_of_source source.now) text
        × (map (λ word. word.items) words.new.items
        ≡ map (λ word. word.items) words.old.items ++ words_of_text options text)) }
    ensures error { IfErr result StopsWords }
{
    let before = words.len();
    add_source(rt, options, source, words)?;
    let Some(at) = first_empty(words.as_slice(), before) else {
        return Ok(());
    };
    tell_empty(rt, source, given, at - before);
    Err(Fault::Told)
}

/// The index of the first empty word, at or after index `from`.
fn first_empty(words: &[Vec<u8>], from: usize) -> Option<usize>
    ensures found { IfSome result (λ at. (from ≤ at) × (at < length words.now)) }
{
    for at in from..words.len() {
        if words[at].is_empty() {
            return Some(at);
        }
    }
    None
}

/// Reports the position of an empty word: the file, or the number of the argument, and the line, counted from 0 here.
fn tell_empty(rt: &HostRuntime, source: &Source, given: u64, line: usize) {
    let number = line.saturating_add(1);
    match source {
        Source::Words(_) => {
            let _ = eprintln!(rt; "litscan: WORDS {given}, line {number}: empty word");
        }
        Source::File(name) => tell_empty_line(rt, shown_name(name.as_slice()), number),
    }
}

/// Adds the words of a source.
fn add_source(
    rt: &HostRuntime,
    options: Options,
    source: &Source,
    words: &mut Vec<Vec<u8>>,
) -> Result<(), Fault>
    ensures added { OnOk result ((text : List ℕ) × IsTextOf (value_of_source source.now) text
        × (map (λ word. word.items) words.new.items
        ≡ map (λ word. word.items) words.old.items ++ words_of_text options text)) }
    ensures error { IfErr result StopsWords }
{
    match source {
        Source::Words(bytes) => add_given(rt.alloc(), options, bytes.as_slice(), words),
        Source::File(name) => add_list(rt, options, name.as_slice(), words),
    }
}

/// Adds the word in each line of the bytes. The text after the last line feed is a line too, even if it is empty.
fn add_given(
    alloc: Global,
    options: Options,
    bytes: &[u8],
    words: &mut Vec<Vec<u8>>,
) -> Result<(), Fault>
    ensures added { OnOk result (map (λ word. word.items) words.new.items
        ≡ map (λ word. word.items) words.old.items ++ words_of_text options (with_feed bytes.now)) }
    ensures error { IfErr result (λ fault. fault ≡ OutOfMemory) }
{
    let mut text = Vec::from_slice(alloc, bytes).or(Err(Fault::OutOfMemory))?;
    text.push(b'\n').or(Err(Fault::OutOfMemory))?;
    let mut reader = Device::new(text.as_slice());
    add_lines(alloc, options, &mut reader, words).or(Err(Fault::OutOfMemory))
}

/// Adds the word in each line of this file, or of standard input. Without `--crlf`, reports if each line ends in a
/// carriage return, since no line of a text is likely to have one behind a word.
fn add_list(
    rt: &HostRuntime,
    options: Options,
    name: &[u8],
    words: &mut Vec<Vec<u8>>,
) -> Result<(), Fault>
    ensures added { OnOk result ((text : List ℕ)
        × (map (λ word. word.items) words.new.items
        ≡ map (λ word. word.items) words.old.items ++ words_of_text options text)) }
    ensures error { IfErr result StopsWords }
{
    let before = words.len();
    add_file(rt, options, name, words)?;
    if before < words.len() && all_end_in_return(words.as_slice(), before) {
        tell_return_lines(rt, shown_name(name));
    }
    Ok(())
}

/// Whether each word from index `from` on ends in a carriage return.
fn all_end_in_return(words: &[Vec<u8>], from: usize) -> bool {
    for at in from..words.len() {
        if !ends_in_return(words[at].as_slice()) {
            return false;
        }
    }
    true
}

/// Adds the word in each line of this file, or of standard input. A file that cannot be opened or read is reported.
pub fn add_file(
    rt: &HostRuntime,
    options: Options,
    name: &[u8],
    words: &mut Vec<Vec<u8>>,
) -> Result<(), Fault>
    ensures added { OnOk result ((text : List ℕ)
        × (map (λ word. word.items) words.new.items
        ≡ map (λ word. word.items) words.old.items ++ words_of_text options text)) }
    ensures error { IfErr result StopsWords }
{
    if is_input(name) {
        return add_told(
            rt,
            options,
            name,
            buffered(rt.alloc(), rt.stdin(), false)?,
            words,
        );
    }
    match open(rt, name) {
        Ok(file) => add_told(rt, options, name, buffered(rt.alloc(), file, false)?, words),
        Err(ErrorKind::OutOfMemory) => Err(Fault::OutOfMemory),
        Err(kind) => {
            tell(rt, name, kind);
            Err(Fault::Told)
        }
    }
}

/// Adds the word in each line of a text. If it cannot be read, that is reported.
fn add_told<R: BufRead + Drop>(
    rt: &HostRuntime,
    options: Options,
    name: &[u8],
    reader: Device<R>,
    words: &mut Vec<Vec<u8>>,
) -> Result<(), Fault>
    ensures added { OnOk result ((text : List ℕ)
        × (map (λ word. word.items) words.new.items
        ≡ map (λ word. word.items) words.old.items ++ words_of_text options text)) }
    ensures error { IfErr result StopsWords }
{
    let mut reader = reader;
    match add_lines(rt.alloc(), options, &mut reader, words) {
        Ok(()) => Ok(()),
        Err(Fault::ReadFailed) => {
            let kind = reader.failure().unwrap_or(ErrorKind::Other);
            tell(rt, shown_name(name), kind);
            Err(Fault::Told)
        }
        Err(fault) => Err(fault),
    }
}

/// The search for these words.
pub fn search_for(alloc: Global, ignore_case: bool, words: &[Vec<u8>]) -> Result<Search, Fault>
    ensures built { IfOk result (λ search. search
        ≡ search_by LeftmostLongest ignore_case (map (λ word. word.items) words.now)) }
    ensures error { IfErr result (RefusesWords ignore_case (map (λ word. word.items) words.now)) }
{
    let words = words.iter().map(|word| word.as_slice());
    match Search::new(alloc, MatchKind::LeftmostLongest, ignore_case, words) {
        Ok(search) => Ok(search),
        Err(error) => Err(Fault::of_build(error)),
    }
}
