//! Byte sets and byte classes.
ghost use Rattle.std.specs.Prelude.{◌≡◌, ◌==◌, ◌||◌, ◌+◌, ◌^◌, ◌≤◌, ◌↔◌, ℕ, true, false, IsTrue, length, slice_index};
ghost use Rattle.std.specs.Prelude.{slice_set};
ghost use Rattle.std.specs.Iterator.{YieldsFirst, item_count};
ghost use Rattle.std.specs.List.{range_with_len};
ghost use Rattle.literal_base.specs.Bytes.{by_byte, contains, no_bytes, opposite_case};
ghost use Rattle.literal_base.specs.Classes.{with_range_marked, class_of, alphabet_len_of, IsStride2, elements_of};
ghost use Rattle.literal_base.specs.Classes.{AreRuns};

use std::marker::Model;

/// The classes of the 256 bytes; each class is a number from 0 to 255. Contracts see the list of the classes, from that
/// of byte 0 up.
///
/// ```rust
/// let mut set = ByteClassSet::empty();
/// set.set_range(b'0', b'9');
/// let classes = set.byte_classes();
/// assert!(rt; classes.alphabet_len() == 3 && classes.stride2() == 2);
/// assert!(rt; classes.get(b'/') == 0 && classes.get(b'4') == 1 && classes.get(b'x') == 2);
/// ```
#[derive(Clone, Copy, Debug)]
pub struct ByteClasses {
    classes: [u8; 256],
}

impl Model for ByteClasses {
    ghost use Rattle.std.specs.Prelude.{◌≡◌, ℕ, List, length};

    ghost Value = { List ℕ };

    ghost view = { λ c. c.classes };

    ghost invariant = { λ c. length c.classes ≡ 256 };

    ghost inverse = { λ classes. record { classes = classes } };
}

impl ByteClasses {
    /// Gives all bytes class 0.
    pub fn empty() -> ByteClasses
        ensures { result ≡ by_byte (λ _. 0) }
    {
        ByteClasses { classes: [0; 256] }
    }

    /// Gives each byte its own number as its class.
    pub fn singletons() -> ByteClasses
        ensures { result ≡ by_byte (λ b. b) }
    {
        let mut classes = ByteClasses::empty();
        for byte in 0..=255 {
            classes.set(byte, byte);
        }
        classes
    }

    /// Changes the class of a byte.
    pub fn set(&mut self, byte: u8, class: u8)
        ensures { self.new ≡ slice_set self.old byte class }
    {
        self.classes[byte as usize] = class;
    }

    /// The class of a byte.
    pub fn get(&self, byte: u8) -> u8
        ensures { result ≡ slice_index self.now byte }
    {
        self.classes[byte as usize]
    }

    /// One more than the class of byte 255. This is the number of classes if they are numbered without a gap and byte
    /// 255 has the greatest, as in [`ByteClassSet::byte_classes`].
    pub fn alphabet_len(&self) -> usize
        ensures len { result ≡ alphabet_len_of self.now }
        ensures few { result ≤ 256 }
    {
        self.classes[255] as usize + 1
    }

    /// The exponent of the least power of two that is at least [`ByteClasses::alphabet_len`].
    pub fn stride2(&self) -> usize
        ensures stride2 { IsStride2 self.now result }
        ensures few { result ≤ 8 }
    {
        self.alphabet_len().next_power_of_two().ilog2() as usize
    }

    /// The least power of two that is at least [`ByteClasses::alphabet_len`].
    pub fn stride(&self) -> usize
        ensures { (k : ℕ) × IsStride2 self.now k × (result ≡ 2 ^ k) }
    {
        1 << self.stride2()
    }

    /// Whether [`ByteClasses::alphabet_len`] is 256, as if each byte has its own class.
    pub fn is_singleton(&self) -> bool
        ensures { IsTrue result ↔ (alphabet_len_of self.now ≡ 256) }
    {
        self.alphabet_len() == 256
    }

    /// The classes from 0 up, as many as [`ByteClasses::alphabet_len`].
    pub fn iter(&self) -> ByteClassIter<'_>
        ensures classes { result ≡ range_with_len 0 (alphabet_len_of self.now) }
        ensures few { length result ≤ 256 }
    {
        prove!(self.alphabet_len() <= 256);
        ByteClassIter {
            classes: self,
            class: 0,
        }
    }

    /// The bytes of a class, in ascending order.
    pub fn elements(&self, class: u8) -> ByteClassElements<'_>
        ensures bytes { result ≡ elements_of self.now class }
        ensures few { length result ≤ 256 }
    {
        let _ = &self.classes; // (a read, which gives the proof the invariant of the fields)
        ByteClassElements {
            classes: self,
            class,
            byte: 0,
        }
    }

    /// The maximal runs of the bytes of a class, each with its first and its last byte, in ascending order.
    pub fn element_ranges(&self, class: u8) -> ByteClassElementRanges<'_>
        ensures runs { AreRuns (elements_of self.now class) result }
        ensures few { length result ≤ 256 }
    {
        ByteClassElementRanges {
            elements: self.elements(class),
            range: None,
        }
    }
}

/// An iterator over classes. Contracts see the list of those that are left.
#[derive(Drop)]
pub struct ByteClassIter<'a> {
    classes: &'a ByteClasses,
    class: usize,
}

impl<'a> Model for ByteClassIter<'a> {
    ghost use Rattle.std.specs.Prelude.{◌≡◌, ℕ, List, length};
    ghost use Rattle.literal_base.specs.Inside.Classes.{classes_from};

    ghost Value = { List ℕ };

    ghost view = { λ i. classes_from i.classes.now i.class };
}

impl<'a> Iterator for ByteClassIter<'a> {
    type Item = u8;

    ghost next_gives = { YieldsFirst (λ left. left) };

    ghost remaining = { item_count (λ left. left) };

    fn next(&mut self) -> Option<u8> {
        let class = self.class;
        if class >= self.classes.alphabet_len() {
            return None;
        }
        self.class += 1;
        Some(class as u8)
    }
}

/// An iterator over the bytes of a class. Contracts see the list of those that are left.
#[derive(Drop)]
pub struct ByteClassElements<'a> {
    classes: &'a ByteClasses,
    class: u8,
    byte: usize,
}

impl<'a> Model for ByteClassElements<'a> {
    ghost use Rattle.std.specs.Prelude.{◌≡◌, ◌≤◌, ℕ, List, length};
    ghost use Rattle.literal_base.specs.Inside.Classes.{bytes_from};

    ghost Value = { List ℕ };

    ghost view = { λ e. bytes_from e.classes.now e.class e.byte };

    ghost invariant = { λ e. (length e.classes.now ≡ 256) × (e.byte ≤ 256) };
}

impl<'a> Iterator for ByteClassElements<'a> {
    type Item = u8;

    ghost next_gives = { YieldsFirst (λ left. left) };

    ghost remaining = { item_count (λ left. left) };

    fn next(&mut self) -> Option<u8> {
        while self.byte < 256 {
            let byte = self.byte as u8;
            self.byte += 1;
            if self.classes.get(byte) == self.class {
                return Some(byte);
            }
        }
        None
    }
}

/// An iterator over the maximal runs of a class's bytes. Contracts see the list of those that are left, each with its
/// first and its last byte.
#[derive(Drop)]
pub struct ByteClassElementRanges<'a> {
    elements: ByteClassElements<'a>,
    range: Option<(u8, u8)>,
}

impl<'a> Model for ByteClassElementRanges<'a> {
    ghost use Rattle.std.specs.Prelude.{ℕ, List};
    ghost use Rattle.literal_base.specs.Inside.Classes.{runs_after};

    ghost Value = { List (ℕ × ℕ) };

    ghost view = { λ r. runs_after r.range r.elements };
}

impl<'a> Iterator for ByteClassElementRanges<'a> {
    type Item = (u8, u8);

    ghost next_gives = { YieldsFirst (λ left. left) };

    ghost remaining = { item_count (λ left. left) };

    fn next(&mut self) -> Option<(u8, u8)> {
        while let Some(byte) = self.elements.next() {
            match self.range {
                None => self.range = Some((byte, byte)),
                Some((first, last)) if last as usize + 1 == byte as usize => {
                    self.range = Some((first, byte));
                }
                Some(range) => {
                    self.range = Some((byte, byte));
                    return Some(range);
                }
            }
        }
        self.range.take()
    }
}

/// A set of marked bytes, which separate classes: a class ends with each of them. Contracts see a boolean for each of
/// the 256 bytes.
#[derive(Clone, Debug, Drop)]
pub struct ByteClassSet {
    marked: ByteSet,
}

impl Model for ByteClassSet {
    ghost use Rattle.std.specs.Prelude.{◌≡◌, List, Bool, length};

    ghost Value = { List Bool };

    ghost view = { λ s. s.marked };

    ghost invariant = { λ s. length s.marked ≡ 256 };
}

impl ByteClassSet {
    /// No byte is marked, so all bytes have one class.
    pub fn empty() -> ByteClassSet
        ensures { result ≡ no_bytes }
    {
        ByteClassSet {
            marked: ByteSet::empty(),
        }
    }

    /// Separates the bytes from `start` to `end`, both included, from all others. It marks `end`, and the byte before
    /// `start` if there is one. `start` has to be at most `end`.
    pub fn set_range(&mut self, start: u8, end: u8)
        requires { start ≤ end }
        ensures { self.new ≡ with_range_marked self.old start end }
    {
        if start > 0 {
            self.marked.add(start - 1);
        }
        self.marked.add(end);
    }

    /// The class of each byte: the number of marked bytes below it.
    pub fn byte_classes(&self) -> ByteClasses
        ensures { result ≡ by_byte (class_of self.now) }
    {
        let mut classes = ByteClasses::empty();
        let mut class = 0usize;
        for byte in 0..=255 {
            classes.set(byte, class as u8);
            if self.marked.contains(byte) {
                class += 1;
            }
        }
        classes
    }
}

/// No marked byte.
impl Default for ByteClassSet {
    ghost use Rattle.std.specs.Prelude.{◌≡◌};
    ghost use Rattle.literal_base.specs.Bytes.{no_bytes};

    ghost is_default = { λ set. set ≡ no_bytes };

    fn default() -> ByteClassSet {
        ByteClassSet::empty()
    }
}

/// A set of bytes. Contracts see a boolean for each of the 256 bytes.
#[derive(Clone, Copy, Debug, PartialEq, Eq)]
pub struct ByteSet {
    members: [bool; 256],
}

impl Model for ByteSet {
    ghost use Rattle.std.specs.Prelude.{◌≡◌, List, Bool, length};

    ghost Value = { List Bool };

    ghost view = { λ s. s.members };

    ghost invariant = { λ s. length s.members ≡ 256 };

    ghost inverse = { λ members. record { members = members } };
}

impl ByteSet {
    /// The set of no byte.
    pub fn empty() -> ByteSet
        ensures all { result ≡ no_bytes }
        ensures each { (b : ℕ) → contains result b ≡ false }
    {
        ByteSet {
            members: [false; 256],
        }
    }

    /// Puts a byte into the set, if it is not there yet.
    pub fn add(&mut self, byte: u8)
        ensures all { self.new ≡ slice_set self.old byte true }
        ensures each { (b : ℕ) → contains self.new b ≡ (contains self.old b || b == byte) }
    {
        self.members[byte as usize] = true;
    }

    /// Whether a byte is in the set.
    pub fn contains(&self, byte: u8) -> bool
        ensures { result ≡ contains self.now byte }
    {
        self.members[byte as usize]
    }
}

/// No byte.
impl Default for ByteSet {
    ghost use Rattle.std.specs.Prelude.{◌≡◌};
    ghost use Rattle.literal_base.specs.Bytes.{no_bytes};

    ghost is_default = { λ set. set ≡ no_bytes };

    fn default() -> ByteSet {
        ByteSet::empty()
    }
}

/// The same letter in the other case for A to Z and a to z. Any other byte is unchanged.
pub fn opposite_ascii_case(byte: u8) -> u8
    ensures { result ≡ opposite_case byte }
{
    match byte {
        b'A'..=b'Z' => byte + 32,
        b'a'..=b'z' => byte - 32,
        _ => byte,
    }
}
