//! Answers of byte classes.
use crate::case::Case;
use crate::refusal::Refusal;
use crate::told::push_word;
use literal_prefilters::alphabet::{ByteClassSet, ByteClasses};
use std::alloc::{AllocError, Global};

/// The classes after ranges of bytes were marked. The field of the patterns has the first and the last byte of each
/// range.
pub fn of_ranges(text: &mut String, alloc: Global, case: &Case<'_>) -> Result<(), Refusal> {
    let ranges = case.patterns(alloc)?;
    let set = marked_set(ranges.as_slice())?;
    push_classes(text, &set.byte_classes())
}

/// The set in which these ranges are marked.
fn marked_set(ranges: &[Vec<u8>]) -> Result<ByteClassSet, Refusal> {
    let mut set = ByteClassSet::empty();
    for range in ranges {
        let [first, last] = range.as_slice() else {
            return Err(Refusal::NoCase);
        };
        if first > last {
            return Err(Refusal::Unmet);
        }
        set.set_range(*first, *last);
    }
    Ok(set)
}

/// The classes after bytes were given other classes than 0. The field of the patterns has each byte and its class.
pub fn of_bytes(text: &mut String, alloc: Global, case: &Case<'_>) -> Result<(), Refusal> {
    let changes = case.patterns(alloc)?;
    let classes = changed_classes(changes.as_slice())?;
    push_classes(text, &classes)
}

/// The classes after these changes.
fn changed_classes(changes: &[Vec<u8>]) -> Result<ByteClasses, Refusal> {
    let mut classes = ByteClasses::empty();
    for change in changes {
        let [byte, class] = change.as_slice() else {
            return Err(Refusal::NoCase);
        };
        classes.set(*byte, *class);
    }
    Ok(classes)
}

/// Writes all properties of the classes.
fn push_classes(text: &mut String, classes: &ByteClasses) -> Result<(), Refusal> {
    push_numbers(text, classes)?;
    push_map(text, classes)?;
    Ok(push_lists(text, classes)?)
}

/// Writes the number of classes, and the numbers that depend on it.
fn push_numbers(text: &mut String, classes: &ByteClasses) -> Result<(), AllocError> {
    let len = classes.alphabet_len();
    let stride2 = classes.stride2();
    let stride = classes.stride();
    let singleton = classes.is_singleton();
    write!(
        text,
        "len={len} stride2={stride2} stride={stride} singleton={singleton}"
    )
}

/// Writes the class of each byte.
fn push_map(text: &mut String, classes: &ByteClasses) -> Result<(), AllocError> {
    text.push_str(" map=")?;
    for byte in 0..=255u8 {
        let class = classes.get(byte);
        write!(text, "{class:02x}")?;
    }
    Ok(())
}

/// Writes the number of bytes of each class, and their runs.
fn push_lists(text: &mut String, classes: &ByteClasses) -> Result<(), AllocError> {
    text.push_str(" classes=")?;
    for class in classes.iter() {
        if class > 0 {
            text.push(';')?;
        }
        let count = classes.elements(class).count();
        write!(text, "{class}:{count}:")?;
        push_runs(text, classes, class)?;
    }
    Ok(())
}

/// Writes the runs of the bytes of a class, each with its first byte and its last.
fn push_runs(text: &mut String, classes: &ByteClasses, class: u8) -> Result<(), AllocError> {
    let mut is_first = true;
    for (first, last) in classes.element_ranges(class) {
        if !is_first {
            text.push('+')?;
        }
        is_first = false;
        write!(text, "{first:02x}-{last:02x}")?;
    }
    Ok(())
}

/// The sizes of the classes after ranges of bytes were marked, and the classes of some bytes.
pub fn of_some(text: &mut String, alloc: Global, case: &Case<'_>) -> Result<(), Refusal> {
    let classes = classes_of(alloc, case)?;
    push_numbers(text, &classes)?;
    push_word(text, " classes=")?;
    let mut before = "";
    for byte in case.bytes(alloc, 4)?.iter() {
        let class = classes.get(*byte);
        write!(text, "{before}{class}")?;
        before = ",";
    }
    Ok(())
}

/// The number of bytes of a class, and their runs.
pub fn runs(text: &mut String, alloc: Global, case: &Case<'_>) -> Result<(), Refusal> {
    let classes = classes_of(alloc, case)?;
    let class = case.number(4)?;
    let count = classes.elements(class).count();
    write!(text, "{count}:")?;
    Ok(push_runs(text, &classes, class)?)
}

/// The classes of a case: after ranges were marked, or after bytes were given other classes.
fn classes_of(alloc: Global, case: &Case<'_>) -> Result<ByteClasses, Refusal> {
    made_of(case.field(2)?, case.patterns(alloc)?.as_slice())
}

/// The classes made from lists in this way.
fn made_of(way: &str, lists: &[Vec<u8>]) -> Result<ByteClasses, Refusal> {
    match way {
        "marked" => Ok(marked_set(lists)?.byte_classes()),
        "set" => changed_classes(lists),
        "singletons" => Ok(ByteClasses::singletons()),
        _ => Err(Refusal::NoCase),
    }
}
