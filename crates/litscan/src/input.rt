//! Opens files and standard input as readers, and reports files that cannot be read.
ghost use Rattle.std.specs.Prelude.{◌≡◌, None, OnErr, IfOk, codes};
ghost use Rattle.litscan.specs.Files.{cause_text, input_name, is_input};
ghost use Rattle.litscan.specs.Options.{AreForFile};

use crate::device::Device;
use crate::fault::Fault;
use crate::options::Options;
use std::alloc::Global;
use std::fs::{self, File, Metadata};
use std::io::{self, BufReader, ErrorKind, Read, Write};
use std::os::unix::fs::MetadataExt;
use std::str;

/// The printed name of standard input, unless another is given.
pub const INPUT: &[u8] = b"(standard input)";

/// The size of a read buffer, in bytes.
const BLOCK: usize = 65536;

/// The smallest buffer, in bytes, for a file shorter than a block.
const LEAST: usize = 4096;

/// The greatest size of a file, in bytes.
const MOST: u64 = i64::MAX as u64;

/// Identifies a file by its device and its inode number.
#[derive(Clone, Copy, PartialEq, Eq)]
pub struct FileId {
    device: u64,
    node: u64,
}

impl FileId {
    /// The identity of the file with this metadata.
    pub fn of(metadata: &Metadata) -> FileId {
        FileId {
            device: metadata.dev(),
            node: metadata.ino(),
        }
    }
}

/// The file that is standard output, if it is a regular file.
pub fn output_file(rt: &HostRuntime) -> Option<FileId> {
    let metadata = fs::metadata(rt, "/dev/stdout").ok()?;
    if !metadata.is_file() {
        return None;
    }
    Some(FileId::of(&metadata))
}

/// Whether standard input is this file.
pub fn is_input_file(rt: &HostRuntime, id: FileId) -> bool {
    is_file_of(fs::metadata(rt, "/dev/stdin"), id)
}

/// Whether this metadata could be read and belongs to this file.
pub fn is_file_of(metadata: io::Result<Metadata>, id: FileId) -> bool {
    match metadata {
        Ok(metadata) => FileId::of(&metadata) == id,
        Err(_) => false,
    }
}

/// Opens the file of this name.
pub fn open(rt: &HostRuntime, name: &[u8]) -> Result<File, ErrorKind> {
    let path = str::from_utf8(name).or(Err(ErrorKind::InvalidData))?;
    fs::open(rt, path).map_err(|error| error.kind())
}

/// Whether a read of standard input may wait: it may unless it is a regular file.
pub fn input_may_wait(rt: &HostRuntime) -> bool {
    match fs::metadata(rt, "/dev/stdin") {
        Ok(metadata) => !metadata.is_file(),
        Err(_) => true,
    }
}

/// A reader of a file. A file shorter than a block gets a smaller buffer, since a new buffer is zeroed.
pub fn reader_of(alloc: Global, file: File) -> Result<Device<BufReader<File>>, Fault>
    ensures new { IfOk result (λ device. device.failure ≡ None) }
    ensures error { OnErr result (result ≡ Err Fault.OutOfMemory) }
{
    let (waits, room) = match file.metadata() {
        Ok(metadata) if metadata.is_file() => (false, room_for(metadata.len())),
        _ => (true, BLOCK),
    };
    with_room(alloc, file, waits, room)
}

/// The buffer size for a file of this length: one byte more, for the read that finds the end, within the two limits.
fn room_for(len: u64) -> usize {
    if len >= BLOCK as u64 {
        return BLOCK;
    }
    (len as usize + 1).max(LEAST)
}

/// A reader with a buffer of one block. `waits` says whether a read may wait for input.
pub fn buffered<R: Read + Drop>(
    alloc: Global,
    reader: R,
    waits: bool,
) -> Result<Device<BufReader<R>>, Fault>
    ensures new { IfOk result (λ device. device.failure ≡ None) }
    ensures error { OnErr result (result ≡ Err Fault.OutOfMemory) }
{
    with_room(alloc, reader, waits, BLOCK)
}

/// The same with a buffer of this size.
fn with_room<R: Read + Drop>(
    alloc: Global,
    reader: R,
    waits: bool,
    room: usize,
) -> Result<Device<BufReader<R>>, Fault>
    ensures new { IfOk result (λ device. device.failure ≡ None) }
    ensures error { OnErr result (result ≡ Err Fault.OutOfMemory) }
{
    match BufReader::with_capacity(alloc, room, reader) {
        Ok(reader) => Ok(Device::reading(reader, waits)),
        Err(_) => Err(Fault::OutOfMemory),
    }
}

/// The options for standard input.
pub fn options_for_input(rt: &HostRuntime, options: Options) -> Options
    ensures { AreForFile options result }
{
    if !options.tab {
        return options;
    }
    options_for(options, fs::metadata(rt, "/dev/stdin"))
}

/// The options for a file.
pub fn options_for_file(options: Options, file: &File) -> Options
    ensures { AreForFile options result }
{
    if !options.tab {
        return options;
    }
    options_for(options, file.metadata())
}

/// The options with the width of numbers for the file with this metadata: the digits of its size, or with `-n` of its
/// size plus 1. The size of a file that is not a regular file is not known.
fn options_for(options: Options, metadata: io::Result<Metadata>) -> Options
    ensures { result ≡ record options { width = result.width } }
{
    let most = match metadata {
        Ok(metadata) if metadata.is_file() => metadata
            .len()
            .saturating_add(u64::from(options.numbers))
            .min(MOST),
        _ => MOST,
    };
    options.with_width(digits_of(most))
}

/// The number of decimal digits of a number.
fn digits_of(number: u64) -> usize {
    let (mut digits, mut rest) = (1, number / 10);
    while rest > 0 {
        digits += 1;
        rest /= 10;
    }
    digits
}

/// Whether this is the name of standard input.
pub fn is_input(name: &[u8]) -> bool
    ensures { result ≡ is_input name.now }
{
    name.len() == 1 && name[0] == b'-'
}

/// Reports on standard error why a file cannot be opened or read.
pub fn tell(rt: &HostRuntime, name: &[u8], kind: ErrorKind) {
    tell_around(rt, "litscan: ", name, ": ", cause_of(kind));
}

/// Reports on standard error that a directory contains itself through a link.
pub fn tell_loop(rt: &HostRuntime, name: &[u8]) {
    tell_around(
        rt,
        "litscan: ",
        name,
        ": warning: ",
        "recursive directory loop",
    );
}

/// Reports on standard error that this argument is not an option.
pub fn tell_unknown(rt: &HostRuntime, word: &[u8]) {
    tell_around(
        rt,
        "litscan: unknown option ",
        word,
        "; ",
        "litscan --help lists the options",
    );
}

/// Reports on standard error that this line of a file of words is empty.
pub fn tell_empty_line(rt: &HostRuntime, name: &[u8], line: usize) {
    let mut log = rt.stderr();
    let _ = log.write_all(b"litscan: ");
    let _ = log.write_all(name);
    let _ = writeln!(log, ":{line}: empty word");
}

/// Reports on standard error that each line of a file of words ends in a carriage return.
pub fn tell_return_lines(rt: &HostRuntime, name: &[u8]) {
    tell_around(
        rt,
        "litscan: ",
        name,
        ": warning: ",
        "each line ends in a carriage return; see --crlf",
    );
}

/// The name of a file of words as it is shown in messages.
pub fn shown_name(name: &[u8]) -> &[u8]
    ensures { result.now ≡ input_name (codes "(standard input)") name.now }
{
    if is_input(name) { INPUT } else { name }
}

/// Writes a line to standard error, with `bytes` unchanged in it. If that fails, the failure is ignored.
fn tell_around(rt: &HostRuntime, before: &str, bytes: &[u8], between: &str, behind: &str) {
    let mut log = rt.stderr();
    let _ = log.write_all(before.as_bytes());
    let _ = log.write_all(bytes);
    let _ = writeln!(log, "{between}{behind}");
}

/// The message for an error of this kind.
fn cause_of(kind: ErrorKind) -> &'static str
    ensures { result.now ≡ cause_text kind }
{
    match kind {
        ErrorKind::NotFound => "No such file or directory",
        ErrorKind::PermissionDenied => "Permission denied",
        ErrorKind::IsADirectory => "Is a directory",
        ErrorKind::NotADirectory => "Not a directory",
        ErrorKind::InvalidFilename => "File name too long",
        ErrorKind::FilesystemLoop => "Too many levels of symbolic links",
        ErrorKind::FileTooLarge => "File too large",
        ErrorKind::InvalidData => "the name is not UTF-8",
        ErrorKind::Deadlock => "input file is also the output",
        _ => "cannot be read",
    }
}
