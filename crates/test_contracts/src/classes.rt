//! Byte sets, classes and ranks: callers that rely only on contracts, and worked cases.
ghost use Rattle.std.specs.Prelude.{◌≡◌, ◌<◌, ◌≤◌, ◌+◌, ◌↔◌, ℕ, [], Ok, IfOk, IsNone, IsTrue, length, slice_index};
ghost use Rattle.std.specs.Prelude.{false, slice_index_or};
ghost use Rattle.std.specs.List.{All, list_any};
ghost use Rattle.literal_base.specs.Bytes.{by_byte};
ghost use Rattle.literal_base.specs.Classes.{AreRuns, NonePart, alphabet_len_of, class_of, elements_of, holds};
ghost use Rattle.literal_base.specs.Classes.{marks_of};

use literal_base::alphabet::{ByteClassElements, ByteClassSet, ByteClasses};
use literal_base::laws;
use std::alloc::{AllocError, Global};

/// Classes that separate the bytes of each range from all others.
pub fn classes_of(ranges: &[(u8, u8)]) -> ByteClasses
    requires { All (λ range. range.0 ≤ range.1) ranges.now }
    ensures classes { result ≡ by_byte (class_of (marks_of ranges.now)) }
    ensures shared { (b : ℕ) → b < 255
        → (slice_index result b ≡ slice_index result (b + 1)) ↔ NonePart ranges.now b }
{
    let mut set = ByteClassSet::empty();
    for (start, end) in ranges {
        set.set_range(*start, *end);
    }
    set.byte_classes()
}

/// A copy of a set of marked bytes, which is never refused.
pub fn copied(set: &ByteClassSet) -> Result<ByteClassSet, AllocError>
    ensures { result ≡ Ok set.now }
{
    set.clone()
}

/// The number of items of an iteration over all classes.
pub fn count_of_classes(classes: &ByteClasses) -> usize
    ensures { result ≡ alphabet_len_of classes.now }
{
    classes.iter().count()
}

/// The number of bytes of a class.
pub fn count_of_elements(classes: &ByteClasses, class: u8) -> usize
    ensures { result ≡ length (elements_of classes.now class) }
{
    classes.elements(class).count()
}

/// The bytes of a class, one after another.
pub fn elements_taken(
    alloc: Global,
    classes: &ByteClasses,
    class: u8,
) -> Result<Vec<u8>, AllocError>
    ensures { IfOk result (λ bytes. bytes.items ≡ elements_of classes.now class) }
{
    let mut bytes = Vec::new(alloc);
    for byte in classes.elements(class) {
        bytes.push(byte)?;
    }
    Ok(bytes)
}

/// Whether each byte that a `for` reads from a class has that class. It always has.
pub fn have_their_class(classes: &ByteClasses, class: u8) -> bool
    ensures { IsTrue result }
{
    for byte in classes.elements(class) {
        if classes.get(byte) != class {
            return false;
        }
    }
    true
}

/// For each class whether its bytes are in one of the ranges. So a table with an entry for each class can answer like
/// one with an entry for each byte.
pub fn classes_inside(alloc: Global, ranges: &[(u8, u8)]) -> Result<Vec<bool>, AllocError>
    requires { All (λ range. range.0 ≤ range.1) ranges.now }
    ensures { IfOk result (λ inside. (b : ℕ) → b < 256
        → slice_index_or inside.items (slice_index (by_byte (class_of (marks_of ranges.now))) b) false
        ≡ list_any (λ range. holds range b) ranges.now) }
{
    let classes = classes_of(ranges);
    laws::classes_are_below_the_alphabet_len();
    laws::a_class_is_in_the_same_ranges();
    let mut inside = vec![in alloc; false; classes.alphabet_len()]?;
    for index in 0..256usize {
        let byte = index as u8;
        inside[usize::from(classes.get(byte))] = is_in_one(ranges, byte);
    }
    Ok(inside)
}

/// Whether a byte is in one of the ranges.
fn is_in_one(ranges: &[(u8, u8)], byte: u8) -> bool
    ensures { result ≡ list_any (λ range. holds range byte) ranges.now }
{
    ranges
        .iter()
        .any(|(start, end)| *start <= byte && byte <= *end)
}

/// The runs of a class's bytes, collected.
pub fn runs_collected(
    alloc: Global,
    classes: &ByteClasses,
    class: u8,
) -> Result<Vec<(u8, u8)>, AllocError>
    ensures { IfOk result (λ runs. AreRuns (elements_of classes.now class) runs.items) }
{
    classes.element_ranges(class).collect(alloc)
}

/// The next element after all that are left of an iteration: there is none, now and afterwards.
pub fn next_after_all(bytes: &mut ByteClassElements<'_>) -> Option<u8>
    ensures none { IsNone result }
    ensures ended { bytes.new ≡ [] }
{
    while bytes.next().is_some() {}
    bytes.next()
}
