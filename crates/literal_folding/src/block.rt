//! Bytes of a reader, folded as far as no later byte can change them.
ghost use Rattle.std.specs.Prelude.{◌≡◌, ◌+◌, ◌++◌, ◌<◌, ◌≤◌, [], ℕ, List, drop, length, min, take, IfOk, OnErr, OnOk};
ghost use Rattle.std.specs.Bool.{MatchBool};
ghost use Rattle.std.specs.Io.KnownBytes.{Consumes, IsAtEnd, Keeps};
ghost use Rattle.literal_folding.specs.Folding.{NoneGoesOver, folded};
ghost use Rattle.literal_folding.specs.Inside.Blocks.{IsBlock, IsSound, bytes_behind_of, held, ready, rest_of};

use crate::fold::fold_in_place;
use std::alloc::{AllocError, Global};
use std::io::{self, Read};

/// The largest number of bytes that are read at a time.
const BLOCK: usize = 1 << 12;

/// The bytes up to `start` were given. Those from there up to `folded` are folded and ready. Those from there up to
/// `end` were read, and are not folded yet.
#[derive(Drop)]
pub(crate) struct Block {
    bytes: Vec<u8>,
    start: usize,
    folded: usize,
    end: usize,
}

impl Block {
    /// An empty block.
    pub(crate) fn new(alloc: Global) -> Result<Block, AllocError>
        ensures block { IfOk result IsBlock }
        ensures ready { IfOk result (λ b. ready b ≡ []) }
        ensures held { IfOk result (λ b. held b ≡ []) }
    {
        Ok(Block {
            bytes: vec![in alloc; 0; BLOCK]?,
            start: 0,
            folded: 0,
            end: 0,
        })
    }

    /// The folded bytes that are ready.
    fn ready(&self) -> &[u8]
        requires { IsBlock self.now }
        ensures { result.now ≡ ready self.now }
    {
        &self.bytes[self.start..self.folded]
    }

    /// The bytes that are not folded yet.
    fn held(&self) -> &[u8]
        requires { IsBlock self.now }
        ensures { result.now ≡ held self.now }
    {
        &self.bytes[self.folded..self.end]
    }

    /// Gives as many of the ready bytes as there is room for.
    pub(crate) fn give(&mut self, room: &mut [u8]) -> usize
        requires { IsBlock self.old }
        ensures block { IsBlock self.new }
        ensures count { result ≡ min (length (ready self.old)) (length room.old) }
        ensures given { take result room.new ≡ take result (ready self.old) }
        ensures ready { ready self.new ≡ drop result (ready self.old) }
        ensures held { held self.new ≡ held self.old }
    {
        let ready = self.ready();
        let count = ready.len().min(room.len());
        room[..count].copy_from_slice(&ready[..count]);
        self.start += count;
        count
    }

    /// Moves the held bytes to the front. No bytes are ready.
    fn make_room(&mut self)
        requires block { IsBlock self.old }
        requires none { ready self.old ≡ [] }
        ensures block { IsBlock self.new }
        ensures ready { ready self.new ≡ [] }
        ensures held { held self.new ≡ held self.old }
        ensures room { self.new.end ≡ length (held self.new) }
    {
        self.bytes.copy_within(self.folded..self.end, 0);
        self.end -= self.folded;
        self.start = 0;
        self.folded = 0;
    }

    /// Folds the first of the held bytes.
    fn fold(&mut self, count: usize)
        requires block { IsBlock self.old }
        requires within { count ≤ length (held self.old) }
        requires none { ready self.old ≡ [] }
        ensures block { IsBlock self.new }
        ensures ready { ready self.new ≡ folded (take count (held self.old)) }
        ensures held { held self.new ≡ drop count (held self.old) }
    {
        let end = self.folded + count;
        fold_in_place(&mut self.bytes[self.folded..end]);
        self.folded = end;
    }

    /// Reads more bytes after the held ones. No bytes are ready. If it reads none, the text has ended.
    fn read_more<R: Read>(&mut self, reader: &mut R) -> io::Result<usize>
        requires sound { IsSound self.old }
        requires none { ready self.old ≡ [] }
        ensures block { IsBlock self.new }
        ensures ready { ready self.new ≡ [] }
        ensures ok { IfOk result (λ count. (piece : List ℕ) × Consumes (R.remaining reader.old) (R.remaining reader.new)
            piece × (held self.new ≡ held self.old ++ piece) × (count ≡ length piece)
            × (count ≡ 0 → IsAtEnd (R.remaining reader.new))) }
        ensures error { OnErr result ((held self.new ≡ held self.old)
            × Keeps (R.remaining reader.old) (R.remaining reader.new)) }
    {
        self.make_room();
        let count = reader.read(&mut self.bytes[self.end..])?;
        self.end += count;
        Ok(count)
    }

    /// Reads more bytes, and folds those that no later byte can change. No bytes are ready. Returns whether some are
    /// ready then, or the text has ended.
    fn read_on<R: Read>(&mut self, reader: &mut R) -> io::Result<bool>
        requires sound { IsSound self.old }
        requires none { ready self.old ≡ [] }
        ensures sound { IsSound self.new }
        ensures keeps { Keeps (rest_of self.old (R.remaining reader.old)) (rest_of self.new (R.remaining reader.new)) }
        ensures filled { IfOk result (λ is_filled. MatchBool is_filled
            (ready self.new ≡ [] → IsAtEnd (rest_of self.new (R.remaining reader.new)))
            ((ready self.new ≡ []) × (length (held self.old) < length (held self.new)))) }
    {
        let count = self.read_more(reader)?;
        if count == 0 {
            let all = self.held().len();
            self.fold(all);
            return Ok(true);
        }
        let whole = whole_len(self.held());
        self.fold(whole);
        Ok(whole > 0)
    }

    /// Reads until some bytes are ready, or the text has ended.
    pub(crate) fn fill<R: Read>(&mut self, reader: &mut R) -> io::Result<()>
        requires { IsSound self.old }
        ensures sound { IsSound self.new }
        ensures keeps { Keeps (rest_of self.old (R.remaining reader.old)) (rest_of self.new (R.remaining reader.new)) }
        ensures filled { OnOk result
            (ready self.new ≡ [] → IsAtEnd (rest_of self.new (R.remaining reader.new))) }
    {
        if !self.ready().is_empty() {
            return Ok(());
        }
        'reading: loop {
            if self.read_on(reader)? {
                return Ok(());
            }
        }
    }
}

/// How many of the first bytes of a text can be folded before the next bytes are known: all, or all before the last
/// character, if it may be incomplete.
pub(crate) fn whole_len(text: &[u8]) -> usize
    ensures within { result ≤ length text.now }
    ensures most { length text.now ≤ result + 3 }
    ensures alone { (more : List ℕ) → NoneGoesOver (take result text.now) (drop result text.now ++ more) }
{
    let len = text.len();
    for back in 1..=len.min(3) {
        if bytes_behind(text[len - back]) >= back {
            return len - back;
        }
    }
    len
}

/// The number of bytes of a character after its first one.
fn bytes_behind(lead: u8) -> usize
    ensures { result ≡ bytes_behind_of lead }
{
    match lead {
        ..0xC0 => 0,
        ..0xE0 => 1,
        ..0xF0 => 2,
        _ => 3,
    }
}
