//! Byte classes: numbers that distinguish the bytes of the patterns from each other and from all other bytes.
ghost use Rattle.std.specs.Prelude.{◌≡◌, ◌+◌, ◌<◌, ℕ, true, false, length, map, slice_index, slice_index_or};
ghost use Rattle.std.specs.Prelude.{◌⊎◌, count_by, min};
ghost use Rattle.literal_rows.specs.Patterns.{width_for};
ghost use Rattle.literal_rows.specs.Inside.Classes.{AreClasses, AreNumbers, IsFoldOfOne, LeavesLast, Marks, Tells};
ghost use Rattle.literal_rows.specs.Inside.Classes.{TellsMarked, folded};

/// How many numbers follow the rows of an automaton, so that any class can be looked up in any row.
pub const CLASSES_LEN: usize = 256;

/// How many of them hold the class of each byte, four in a number, the first in the lowest eight bits. Zeros follow.
pub const PACKED_LEN: usize = CLASSES_LEN / 4;

/// The class of each byte, and the number of classes, 1 to 256.
#[derive(Clone, Copy)]
pub struct Classes {
    pub table: [u8; 256],
    pub width: usize,
}

/// The classes for some patterns: they distinguish the bytes of the patterns. If case is ignored, both cases of a
/// letter share a class.
pub fn classes_for(ignore_case: bool, patterns: &[Vec<u8>]) -> Classes
    ensures classes { AreClasses result.table result.width }
    ensures tells { Tells ignore_case result.table (map (λ pattern. pattern.items) patterns.now) }
    ensures last { LeavesLast result.table result.width (map (λ pattern. pattern.items) patterns.now) }
    ensures width { result.width ≡ width_for ignore_case (map (λ pattern. pattern.items) patterns.now) }
{
    let mut seen = [false; 256];
    for pattern in patterns {
        mark(&mut seen, ignore_case, pattern);
    }
    folded_table(ignore_case, &seen, &numbers(&seen))
}

/// Marks the bytes of a pattern.
fn mark(seen: &mut [bool], ignore_case: bool, pattern: &[u8])
    requires { length seen.old ≡ 256 }
    ensures marks { Marks ignore_case seen.new pattern.now }
    ensures keeps { (b : ℕ) → slice_index_or seen.old b false ≡ true → slice_index_or seen.new b false ≡ true }
    ensures only { (b : ℕ) → slice_index_or seen.new b false ≡ true → (slice_index_or seen.old b false ≡ true)
        ⊎ IsFoldOfOne ignore_case pattern.now b }
{
    for byte in pattern {
        seen[fold(ignore_case, *byte) as usize] = true;
    }
}

/// The byte itself, or, if case is ignored, the lowercase letter for one of A to Z.
fn fold(ignore_case: bool, byte: u8) -> u8
    ensures { result ≡ folded ignore_case byte }
{
    if ignore_case {
        byte.to_ascii_lowercase()
    } else {
        byte
    }
}

/// Numbers the marked bytes from 0 up, and returns the next number too.
fn numbers(seen: &[bool]) -> Classes
    requires { length seen.now ≡ 256 }
    ensures numbers { AreNumbers seen.now result.table 256 result.width }
    ensures count { result.width ≡ count_by (λ is_seen. is_seen) seen.now }
{
    let mut table = [0; 256];
    let mut next = 0;
    for byte in 0usize..256 {
        if seen[byte] {
            table[byte] = next as u8;
            next += 1;
        }
    }
    Classes { table, width: next }
}

/// The class of each byte: the number of the folded byte, or the next number if it is not marked.
fn folded_table(ignore_case: bool, seen: &[bool], numbers: &Classes) -> Classes
    requires marked { length seen.now ≡ 256 }
    requires numbered { AreNumbers seen.now numbers.now.table 256 numbers.now.width }
    ensures classes { AreClasses result.table result.width }
    ensures tells { TellsMarked ignore_case seen.now result.table }
    ensures last { (byte : ℕ) → byte < 256 → slice_index_or seen.now (folded ignore_case byte) false ≡ true
        → slice_index result.table byte < numbers.now.width }
    ensures width { result.width ≡ min (numbers.now.width + 1) 256 }
{
    let mut table = [0; 256];
    let other = numbers.width.min(255) as u8;
    for byte in 0usize..256 {
        let small = fold(ignore_case, byte as u8) as usize;
        table[byte] = if seen[small] {
            numbers.table[small]
        } else {
            other
        };
    }
    Classes {
        table,
        width: other as usize + 1,
    }
}
