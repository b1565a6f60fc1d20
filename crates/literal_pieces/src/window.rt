//! The known part of a text that is read in pieces.
ghost use Rattle.std.specs.Prelude.{◌≡◌, ◌⊎◌, ◌+◌, ◌-◌, ◌<◌, ◌≤◌, ◌++◌, [], ℕ, List, None, drop, length, ◌/◌, max};
ghost use Rattle.std.specs.Prelude.{slice_range, IfOk};
ghost use Rattle.std.specs.Io.KnownBytes.{Consumes};
ghost use Rattle.literal_pieces.specs.Inside.Stream.{AreHeldFrom, HasReadOn, IsOpen, IsSoundReading, IsWindow, block};
ghost use Rattle.literal_pieces.specs.Inside.Stream.{held};

use crate::reading::Reading;
use std::alloc::{AllocError, Global};
use std::io::Read;

/// The number of bytes for which an empty window has room beside what a search needs.
const BLOCK: usize = 1 << 16;

/// The last bytes that were read, from the offset at which a search continues, or from a byte before it.
#[derive(Drop)]
pub struct Window {
    bytes: Vec<u8>,
    start: usize,
    end: usize,
    /// The number of bytes before the held ones that are kept too. With them these are the block, through which one
    /// search goes.
    passed: usize,
    /// The number of bytes of the text before them.
    pub offset: usize,
}

impl Window {
    /// An empty window with room for more than `len` bytes: for a block besides, or half as many bytes if that is
    /// more.
    pub fn new(alloc: Global, len: usize) -> Result<Window, AllocError>
        ensures window { IfOk result (λ w. IsWindow w) }
        ensures room { IfOk result (λ w. length w.bytes.items ≡ len + max BLOCK (len / 2) + 1) }
        ensures empty { IfOk result (λ w. held w ≡ []) }
        ensures first { IfOk result (λ w. w.offset ≡ 0) }
    {
        let room = len.saturating_add(BLOCK.max(len / 2)).saturating_add(1);
        let bytes = vec![in alloc; 0; room]?;
        Ok(Window {
            bytes,
            start: 0,
            end: 0,
            passed: 0,
            offset: 0,
        })
    }

    /// The held bytes.
    pub fn held(&self) -> &[u8]
        requires { IsWindow self.now }
        ensures { result.now ≡ held self.now }
    {
        &self.bytes[self.start..self.end]
    }

    /// The bytes of the block: the held ones, and those that were dropped since it began.
    pub fn block(&self) -> &[u8]
        requires { IsWindow self.now }
        ensures { result.now ≡ block self.now }
    {
        &self.bytes[self.start - self.passed..self.end]
    }

    /// The offset in the text at which the block begins.
    pub fn block_offset(&self) -> usize
        requires { IsWindow self.now }
        ensures { result ≡ self.now.offset - self.now.passed }
    {
        self.offset - self.passed
    }

    /// The held bytes between two offsets of the text.
    pub fn between(&self, from: usize, to: usize) -> &[u8]
        requires window { IsWindow self.now }
        requires ordered { (self.now.offset ≤ from) × (from ≤ to) }
        requires within { to ≤ self.now.offset + length (held self.now) }
        ensures { result.now ≡ slice_range (held self.now) (from - self.now.offset) (to - self.now.offset) }
    {
        &self.held()[from - self.offset..to - self.offset]
    }

    /// Drops the first held bytes. The block stays.
    #[tactic(auto, using(crate::proofs::lemmas::Streams::part_behind, crate::proofs::lemmas::Streams::length_part))]
    pub fn pass(&mut self, count: usize)
        requires window { IsWindow self.old }
        requires within { count ≤ length (held self.old) }
        ensures window { IsWindow self.new }
        ensures room { length self.new.bytes.items ≡ length self.old.bytes.items }
        ensures held { held self.new ≡ drop count (held self.old) }
        ensures block { block self.new ≡ block self.old }
        ensures offset { self.new.offset ≡ self.old.offset + count }
        ensures begins { self.new.offset - self.new.passed ≡ self.old.offset - self.old.passed }
    {
        self.start += count;
        self.passed += count;
        self.offset += count;
    }

    /// Drops the held bytes that lie more than `margin` bytes before an offset of the text.
    pub fn hold_from(&mut self, at: usize, margin: usize)
        requires window { IsWindow self.old }
        requires after { self.old.offset ≤ at - margin }
        requires within { at ≤ self.old.offset + length (held self.old) }
        ensures window { IsWindow self.new }
        ensures room { length self.new.bytes.items ≡ length self.old.bytes.items }
        ensures held { held self.new ≡ drop ((at - margin) - self.old.offset) (held self.old) }
        ensures block { block self.new ≡ block self.old }
        ensures begins { self.new.offset - self.new.passed ≡ self.old.offset - self.old.passed }
        ensures from { AreHeldFrom margin at self.new }
    {
        self.pass(at.saturating_sub(margin) - self.offset);
    }

    /// Reads more of the text, unless it ends or reading fails. The window has to have room.
    pub fn read_more<R: Read>(&mut self, reader: &mut R, reading: &mut Reading)
        requires window { IsWindow self.old }
        requires room { length (held self.old) < length self.old.bytes.items }
        requires open { IsOpen reading.old }
        requires no_failure { reading.old.failure ≡ None }
        ensures window { IsWindow self.new }
        ensures room { length self.new.bytes.items ≡ length self.old.bytes.items }
        ensures offset { self.new.offset ≡ self.old.offset }
        ensures read { (piece : List ℕ) × Consumes (R.remaining reader.old) (R.remaining reader.new) piece
            × (held self.new ≡ held self.old ++ piece) }
        ensures sound { IsSoundReading reading.new (R.remaining reader.new) }
        ensures more { IsOpen reading.new → length (held self.old) < length (held self.new) }
        ensures once { length (held self.new) ≤ length (held self.old) + reading.new.last }
        ensures begins { self.new.passed ≡ 0 }
    {
        self.passed = 0;
        let known = self.offset + (self.end - self.start);
        if known == usize::MAX {
            return reading.stop(known);
        }
        self.make_room();
        let room = (self.bytes.len() - self.end).min(usize::MAX - known);
        let count = reading.read(reader, &mut self.bytes[self.end..self.end + room]);
        self.end += count;
    }

    /// Begins a block. Reads until this many bytes are held, or no more can be read. Before the last read fewer were
    /// held.
    pub fn fill<R: Read>(&mut self, reader: &mut R, reading: &mut Reading, enough: usize)
        requires window { IsWindow self.old }
        requires room { enough ≤ length self.old.bytes.items }
        requires sound { IsSoundReading reading.old (R.remaining reader.old) }
        ensures window { IsWindow self.new }
        ensures room { length self.new.bytes.items ≡ length self.old.bytes.items }
        ensures offset { self.new.offset ≡ self.old.offset }
        ensures read { (piece : List ℕ) × Consumes (R.remaining reader.old) (R.remaining reader.new) piece
            × (held self.new ≡ held self.old ++ piece) × HasReadOn reading.old piece reading.new }
        ensures sound { IsSoundReading reading.new (R.remaining reader.new) }
        ensures enough { IsOpen reading.new → enough ≤ length (held self.new) }
        ensures needed { (held self.new ≡ held self.old) ⊎ (length (held self.new) < enough + reading.new.last) }
        ensures begins { self.new.passed ≡ 0 }
    {
        self.passed = 0;
        while reading.is_open() {
            if self.held().len() >= enough {
                return;
            }
            self.read_more(reader, reading);
        }
    }

    /// Moves the held bytes to the front if they reach the end of the room, or if there are none.
    fn make_room(&mut self)
        requires window { IsWindow self.old }
        requires begins { self.old.passed ≡ 0 }
        requires room { length (held self.old) < length self.old.bytes.items }
        ensures window { IsWindow self.new }
        ensures room { self.new.end < length self.new.bytes.items }
        ensures same_room { length self.new.bytes.items ≡ length self.old.bytes.items }
        ensures held { held self.new ≡ held self.old }
        ensures offset { self.new.offset ≡ self.old.offset }
        ensures begins { self.new.passed ≡ 0 }
    {
        if self.end == self.bytes.len() || self.start == self.end {
            self.bytes.copy_within(self.start..self.end, 0);
            self.end -= self.start;
            self.start = 0;
        }
    }
}
