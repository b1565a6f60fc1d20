//! The first pattern in a list that is a prefix of each, by sorting: among sorted patterns, all that lie between a
//! pattern and its prefix begin with this prefix too.
ghost use Rattle.std.specs.Prelude.{◌≡◌, ◌-◌, ◌<◌, ◌≤◌, ◌^◌, IfOk, length};
ghost use Rattle.std.specs.List.{range_with_len};
ghost use Rattle.literal_rows.specs.Inside.Classes.{symbols_in};
ghost use Rattle.literal_rows.specs.Inside.Prefixes.{AreFirstPrefixes, AreInOrder, AreLastPrefixes, AreSorted};
ghost use Rattle.literal_rows.specs.Inside.Prefixes.{IsLastPrefix, numbers_in, symbols_in_order};
ghost use Rattle.literal_rows.specs.Inside.Shadowed.{texts_by};

use std::alloc::{AllocError, Global};

/// A pattern as the classes of its bytes, with its number. The order is that of the classes; equal ones are in the
/// order of their numbers.
#[derive(PartialEq, Eq, PartialOrd, Ord, Drop)]
pub struct Numbered {
    pub symbols: Vec<u8>,
    pub number: u32,
}

/// For each pattern the smallest number of a pattern that is a prefix of it. Each is a prefix of itself.
pub fn first_prefixes(
    alloc: Global,
    classes: &[u8; 256],
    patterns: &[Vec<u8>],
) -> Result<Vec<u32>, AllocError>
    requires { length patterns.now ≤ 2 ^ 31 - 1 }
    ensures { IfOk result (λ firsts. AreFirstPrefixes (texts_by classes.now patterns.now) firsts.items) }
{
    let sorted = sorted(alloc, classes, patterns)?;
    let mut firsts = vec![in alloc; 0u32; patterns.len()]?;
    let mut before = Vec::new(alloc);
    for index in 0..sorted.len() {
        let number = sorted[index].number;
        let last = last_prefix(&sorted, &before, index);
        let first = match last {
            Some(at) => number.min(firsts[sorted[at].number as usize]),
            None => number,
        };
        firsts[number as usize] = first;
        before.push(last)?;
    }
    Ok(firsts)
}

/// The index of the last one before this one that is a prefix of it. `before` has these indices for all before it.
fn last_prefix(sorted: &[Numbered], before: &[Option<usize>], index: usize) -> Option<usize>
    requires sorted { AreInOrder (symbols_in_order sorted.now) }
    requires before { AreLastPrefixes (symbols_in_order sorted.now) before.now }
    requires here { length before.now ≡ index }
    requires inside { index < length sorted.now }
    ensures { IsLastPrefix (symbols_in_order sorted.now) index result }
{
    let mut last = index.checked_sub(1);
    while let Some(at) = last {
        if sorted[index].symbols.starts_with(&sorted[at].symbols) {
            return Some(at);
        }
        last = before[at];
    }
    None
}

/// The patterns with their numbers, in order.
fn sorted(
    alloc: Global,
    classes: &[u8; 256],
    patterns: &[Vec<u8>],
) -> Result<Vec<Numbered>, AllocError>
    requires { length patterns.now ≤ 2 ^ 31 - 1 }
    ensures { IfOk result (λ all. AreSorted (texts_by classes.now patterns.now) (symbols_in_order all.items)
        (numbers_in all.items)) }
{
    let mut all = with_numbers(alloc, classes, patterns)?;
    all.sort_unstable();
    Ok(all)
}

/// The patterns with their numbers, in the order of these.
fn with_numbers(
    alloc: Global,
    classes: &[u8; 256],
    patterns: &[Vec<u8>],
) -> Result<Vec<Numbered>, AllocError>
    requires { length patterns.now ≤ 2 ^ 31 - 1 }
    ensures words { IfOk result (λ all. symbols_in_order all.items ≡ texts_by classes.now patterns.now) }
    ensures numbers { IfOk result (λ all. numbers_in all.items ≡ range_with_len 0 (length patterns.now)) }
{
    let mut all = Vec::new(alloc);
    for number in 0..patterns.len() {
        let symbols = symbols_of(alloc, classes, &patterns[number])?;
        all.push(Numbered {
            symbols,
            number: number as u32,
        })?;
    }
    Ok(all)
}

/// The classes of bytes.
fn symbols_of(alloc: Global, classes: &[u8; 256], bytes: &[u8]) -> Result<Vec<u8>, AllocError>
    ensures { IfOk result (λ symbols. symbols.items ≡ symbols_in classes.now bytes.now) }
{
    let mut symbols = Vec::new(alloc);
    for byte in bytes {
        symbols.push(classes[*byte as usize])?;
    }
    Ok(symbols)
}
