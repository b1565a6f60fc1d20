//! Prints the lines of files that contain a word, or the matches in them: `litscan [OPTION...] WORDS [FILE...]`.
#![tactic(auto)]

mod args;
mod asked;
mod buffered;
mod color;
mod context;
mod device;
mod fault;
mod files;
mod glob;
mod input;
mod laws;
mod lines;
mod names;
mod options;
mod passed;
mod printing;
mod request;
mod scan;
mod selected;
mod walk;
mod words;

use args::given_words;
use device::Device;
use fault::Fault;
use files::{Found, scan_files};
use input::{FileId, output_file, tell_unknown};
use names::tell_ambiguous;
use options::Options;
use request::Request;
use std::io::{BufWriter, IsTerminal};
use std::mem;
use std::process::ExitCode;
use walk::{files_of, with_patterns};
use words::{search_for, words_of};

/// The size of the output buffer, in bytes.
const BLOCK: usize = 65536;

/// The output of `--version`.
const VERSION: &str = "litscan 0.1.0\n";

/// The output of `--help`.
const HELP: &str = "usage: litscan [OPTION...] WORDS [FILE...]
       litscan [OPTION...] (-e WORDS | -f FILE)... [FILE...]
Prints the lines of each FILE in which one of the words occurs, as grep -F does. Each line of WORDS, and of the FILE of
-f, is a word. A FILE that is -, or none at all, is standard input.

  -e, --regexp=WORDS            look for these words
  -f, --file=FILE               look for the words in this file
  -i, -y, --ignore-case         ignore ASCII case
  --no-ignore-case              do not ignore it
  -v, --invert-match            select the lines without a match
  -w, --word-regexp             match words only with no letter, digit or _ next to them
  -x, --line-regexp             match words only as whole lines
  -m, --max-count=N             stop reading a file after N selected lines
  -A, --after-context=N         print N lines after each selected line
  -B, --before-context=N        print N lines before each selected line
  -C, --context=N               print N lines before and after each selected line, as -N does
  --group-separator=SEP         print SEP, in place of --, between groups of lines that do not follow each other
  --no-group-separator          print nothing between groups of lines
  -r, --recursive               search the files in directories; skip symbolic links there
  -R, --dereference-recursive   search the files in directories; follow symbolic links
  --include=GLOB                search only files with a name that GLOB fits
  --exclude=GLOB                skip files with a name that GLOB fits
  --exclude-dir=GLOB            skip directories with a name that GLOB fits
  --exclude-from=FILE           skip files with a name that a line of FILE fits
  -d, --directories=ACTION      read directories as files, skip them, or recurse as -r does
  -D, --devices=ACTION          read devices, pipes and sockets, or skip them
  -I                            search a file as if it were empty if its first block has a zero byte
  -a, --text                    search all files
  --binary-files=TYPE           do the same as -I for without-match, and as -a for text
  -b, --byte-offset             print the offset of each line, or match, in the file
  -n, --line-number             print the number of each line
  -H, --with-filename           print the name of the file before each line
  -h, --no-filename             print no names of files
  -T, --initial-tab             print a tab before each line, after its name, number and offset
  --label=LABEL                 print LABEL as the name of standard input
  -z, --null-data               end lines at a zero byte, in place of a line feed
  -Z, --null                    print a zero byte after the name of a file, in place of a colon or a line feed
  -o, --only-matching           print each match on a line of its own, instead of the lines
  --mask=BYTE                   print BYTE for each byte of a match
  --which-word                  print the number of its word, from 1, for each match, as -o prints the match
  -c, --count                   print the number of selected lines
  -l, --files-with-matches      print the names of the files with a selected line
  -L, --files-without-match     print the names of the files without one
  --color[=WHEN], --colour      print matches, names and numbers in colours: WHEN is always, never, or auto
  --line-buffered               write each line at once
  --crlf                        take a carriage return at the end of a line, also of words, as part of its end
  --skip-blank                  skip empty lines among the words, in place of an error
  -q, --quiet, --silent         print nothing on standard output
  -s, --no-messages             print no messages about files that cannot be read
  -F, -u, -U, --fixed-strings, --unix-byte-offsets, --binary  change nothing
  -V, --version                 print the version of litscan
  --help                        print this

The status is 0 if a line is selected, 1 if none is, and 2 after an error.
";

fn main(rt: HostRuntime) -> ExitCode {
    match run(&rt) {
        Ok(status) => ExitCode::from(status),
        Err(Fault::Unread) => ExitCode::from(0),
        Err(Fault::Told) => ExitCode::from(2),
        Err(fault) => {
            let _ = eprintln!(rt; "{fault}");
            ExitCode::from(2)
        }
    }
}

/// Runs the command line, and returns the exit status.
fn run(rt: &HostRuntime) -> Result<u8, Fault> {
    let words = given_words(rt)?;
    let mut request = asked_by(rt, words.as_slice())?;
    if request.options.help {
        return explain(rt, HELP);
    }
    if request.options.version {
        return explain(rt, VERSION);
    }
    search_files(rt, &mut request)
}

/// Parses the arguments. An unknown or ambiguous long option is reported by its name.
fn asked_by(rt: &HostRuntime, words: &[Vec<u8>]) -> Result<Request, Fault> {
    match Request::of(rt.alloc(), words) {
        Err(Fault::UnknownName(number)) if number < words.len() => {
            tell_unknown(rt, words[number].as_slice());
            Err(Fault::Told)
        }
        Err(Fault::Ambiguous(number)) if number < words.len() => {
            tell_ambiguous(rt, words[number].as_slice());
            Err(Fault::Told)
        }
        asked => asked,
    }
}

/// Prints a text to standard output.
fn explain(rt: &HostRuntime, text: &str) -> Result<u8, Fault> {
    let mut writer = Device::new(rt.stdout());
    writer.write_all(text.as_bytes())?;
    writer.flush()?;
    Ok(0)
}

/// Searches the files, and returns the exit status. Output is written when its buffer is full, and when the scan
/// flushes it.
fn search_files(rt: &HostRuntime, request: &mut Request) -> Result<u8, Fault> {
    let options = request.options;
    let words = words_of(rt, options, request.sources.as_slice())?;
    let search = search_for(rt.alloc(), options.ignore_case, words.as_slice())?;
    let names = mem::replace(&mut request.files, Vec::new(rt.alloc()));
    let choices = with_patterns(rt, request.choices.as_slice())?;
    let walk = files_of(rt, options, choices.as_slice(), names)?;
    let is_terminal = rt.stdout().is_terminal();
    let writer = BufWriter::with_capacity(rt.alloc(), BLOCK, rt.stdout()).or(Err(
        Fault::OutOfMemory,
    ))?;
    let mut writer = Device::new(writer);
    let found = scan_files(
        rt,
        &search,
        options.with_names(walk.walked).on_output(is_terminal),
        request.separator(),
        request.label(),
        walk.files.as_slice(),
        file_not_read(rt, options),
        &mut writer,
    )?;
    let found = Found {
        failed: found.failed || walk.failed,
        ..found
    };
    Ok(found.status(options.quiet))
}

/// The file that is not read, if any: the file that receives the output, since the output would be read in turn. Any
/// file may be read if no lines are printed, or at most one per file.
fn file_not_read(rt: &HostRuntime, options: Options) -> Option<FileId> {
    if options.is_silent() || options.most.unwrap_or(u64::MAX) <= 1 {
        return None;
    }
    output_file(rt)
}
