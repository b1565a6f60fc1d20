//! Bytes that are packed into numbers, four in each.
ghost use Rattle.std.specs.Prelude.{◌≡◌, ◌+◌, ◌*◌, ◌≤◌, length, slice_range};
ghost use Rattle.std.specs.Int.{from_le_bytes, w32};
ghost use Rattle.literal_rows.specs.Inside.Packed.{Puts, packed, unpacked};

/// Writes bytes into numbers, four in each, the first in the lowest eight bits.
pub(crate) fn pack(bytes: &[u8], numbers: &mut [u32])
    requires { length bytes.now ≡ 4 * length numbers.old }
    ensures packed { numbers.new ≡ packed (length numbers.old) bytes.now }
    ensures bytes { unpacked numbers.new ≡ bytes.now }
{
    for at in 0..numbers.len() {
        numbers[at] = number_at(bytes, 4 * at);
    }
}

/// The number that holds the four bytes from an index on.
fn number_at(bytes: &[u8], at: usize) -> u32
    requires { at + 4 ≤ length bytes.now }
    ensures { result ≡ from_le_bytes w32 (slice_range bytes.now at (at + 4)) }
{
    u32::from_le_bytes([bytes[at], bytes[at + 1], bytes[at + 2], bytes[at + 3]])
}

/// Writes the bytes that are packed into numbers.
#[inline(always)]
pub(crate) fn unpack(numbers: &[u32], bytes: &mut [u8])
    requires { length bytes.old ≡ 4 * length numbers.now }
    ensures { bytes.new ≡ unpacked numbers.now }
{
    for at in 0..numbers.len() {
        bytes[4 * at..4 * at + 4].copy_from_slice(&numbers[at].to_le_bytes());
    }
}

/// Writes numbers into an array, from an index on.
pub(crate) fn put_numbers(array: &mut [u32], at: usize, numbers: &[u32])
    requires { at + length numbers.now ≤ length array.old }
    ensures { Puts at numbers.now array.old array.new }
{
    array[at..at + numbers.len()].copy_from_slice(numbers);
}
