//! Reads the words in the lines of a text.
ghost use Rattle.std.specs.Prelude.{◌≡◌, ◌⊎◌, ◌++◌, ℕ, List, map, IfErr, OnOk};
ghost use Rattle.std.specs.List.{flat_map};
ghost use Rattle.litscan.specs.Fault.{IsReadFault};
ghost use Rattle.litscan.specs.Lines.{last_line};
ghost use Rattle.litscan.specs.Printed.{ReadsAll};
ghost use Rattle.litscan.specs.Words.{ends_in_return, words_of_line, words_of_text};
ghost use Rattle.litscan.specs.declared.fault.Fault.TheVariants.{OutOfMemory};

use crate::device::Device;
use crate::fault::Fault;
use crate::options::Options;
use std::alloc::Global;
use std::io::BufRead;

/// Adds the word in each line of a text.
pub fn add_lines<R: BufRead>(
    alloc: Global,
    options: Options,
    reader: &mut Device<R>,
    words: &mut Vec<Vec<u8>>,
) -> Result<(), Fault>
    ensures read { OnOk result ((text : List ℕ)
        × ReadsAll (R.remaining reader.old.inner) (R.remaining reader.new.inner) text
        × (map (λ word. word.items) words.new.items
        ≡ map (λ word. word.items) words.old.items ++ words_of_text options text)) }
    ensures error { IfErr result (λ fault. IsReadFault reader.new.failure fault ⊎ (fault ≡ OutOfMemory)) }
{
    for _ in 0..u64::MAX {
        let mut line = Vec::new(alloc);
        if !reader.read_line(b'\n', &mut line)? {
            return add_last(options, line, words);
        }
        add_word(options, line, words)?;
    }
    Err(Fault::OutOfMemory)
}

/// Adds the word in the text after the last line feed, unless that is empty.
fn add_last(options: Options, last: Vec<u8>, words: &mut Vec<Vec<u8>>) -> Result<(), Fault>
    ensures added { OnOk result (map (λ word. word.items) words.new.items
        ≡ map (λ word. word.items) words.old.items ++ flat_map (words_of_line options) (last_line last.items)) }
    ensures error { IfErr result (λ fault. fault ≡ OutOfMemory) }
{
    if last.is_empty() {
        return Ok(());
    }
    add_word(options, last, words)
}

/// Adds the word in a line: with `--crlf` without a carriage return at its end, and with `--skip-blank` unless it is
/// empty.
fn add_word(options: Options, line: Vec<u8>, words: &mut Vec<Vec<u8>>) -> Result<(), Fault>
    ensures added { OnOk result (map (λ word. word.items) words.new.items
        ≡ map (λ word. word.items) words.old.items ++ words_of_line options line.items) }
    ensures error { IfErr result (λ fault. fault ≡ OutOfMemory) }
{
    let mut word = line;
    if options.crlf && ends_in_return(word.as_slice()) {
        word.truncate(word.len() - 1);
    }
    if options.skip_blank && word.is_empty() {
        return Ok(());
    }
    words.push(word).or(Err(Fault::OutOfMemory))
}

/// Whether a line ends in a carriage return.
pub fn ends_in_return(line: &[u8]) -> bool
    ensures { result ≡ ends_in_return line.now }
{
    !line.is_empty() && line[line.len() - 1] == b'\r'
}
