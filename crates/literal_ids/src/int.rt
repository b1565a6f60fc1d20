//! Conversions between integers. Their names say which part of the number they keep.
ghost use Rattle.std.specs.Prelude.{◌≡◌, ◌<◌, ◌^◌, ◌%◌, ◌/◌, ℕ, ℤ, pos, FitsSigned};
ghost use Rattle.std.specs.Int.{w8, w32, w64, IsNonNegative};
ghost use Rattle.literal_ids.specs.Bits.{bits_of, number_of};

/// Conversions of a `u8`.
pub trait U8 {
    /// The number of a value.
    ghost number: { Self → ℕ };

    /// The same number in the other type.
    fn as_usize(self) -> usize
        ensures { result ≡ number self };
}

impl U8 for u8 {
    ghost number = { λ n. n };

    fn as_usize(self) -> usize {
        self.into()
    }
}

/// Conversions of a `u16`.
pub trait U16 {
    /// The number of a value.
    ghost number: { Self → ℕ };

    /// The same number in the other type.
    fn as_usize(self) -> usize
        ensures { result ≡ number self };

    /// The low 8 bits: the remainder by 2^8.
    fn low_u8(self) -> u8
        ensures { result ≡ number self % 2 ^ 8 };

    /// The high 8 bits: the whole quotient by 2^8.
    fn high_u8(self) -> u8
        ensures { result ≡ number self / 2 ^ 8 };
}

impl U16 for u16 {
    ghost number = { λ n. n };

    fn as_usize(self) -> usize {
        usize::from(self)
    }

    fn low_u8(self) -> u8 {
        (self & 0xff) as u8
    }

    fn high_u8(self) -> u8 {
        (self >> 8) as u8
    }
}

/// Conversions of a `u32`.
pub trait U32 {
    /// The number of a value.
    ghost number: { Self → ℕ };

    /// The same number in the other type.
    fn as_usize(self) -> usize
        ensures { result ≡ number self };

    /// The low 8 bits: the remainder by 2^8.
    fn low_u8(self) -> u8
        ensures { result ≡ number self % 2 ^ 8 };

    /// The low 16 bits: the remainder by 2^16.
    fn low_u16(self) -> u16
        ensures { result ≡ number self % 2 ^ 16 };

    /// The high 16 bits: the whole quotient by 2^16.
    fn high_u16(self) -> u16
        ensures { result ≡ number self / 2 ^ 16 };
}

impl U32 for u32 {
    ghost number = { λ n. n };

    fn as_usize(self) -> usize {
        self as usize
    }

    fn low_u8(self) -> u8 {
        self.low_u16().low_u8()
    }

    fn low_u16(self) -> u16 {
        (self & 0xffff) as u16
    }

    fn high_u16(self) -> u16 {
        (self >> 16) as u16
    }
}

/// Conversions of a `u64`.
pub trait U64 {
    /// The number of a value.
    ghost number: { Self → ℕ };

    /// The same number in the other type.
    fn as_usize(self) -> usize
        ensures { result ≡ number self };

    /// The low 8 bits: the remainder by 2^8.
    fn low_u8(self) -> u8
        ensures { result ≡ number self % 2 ^ 8 };

    /// The low 16 bits: the remainder by 2^16.
    fn low_u16(self) -> u16
        ensures { result ≡ number self % 2 ^ 16 };

    /// The low 32 bits: the remainder by 2^32.
    fn low_u32(self) -> u32
        ensures { result ≡ number self % 2 ^ 32 };

    /// The high 32 bits: the whole quotient by 2^32.
    fn high_u32(self) -> u32
        ensures { result ≡ number self / 2 ^ 32 };
}

impl U64 for u64 {
    ghost number = { λ n. n };

    fn as_usize(self) -> usize {
        self as usize
    }

    fn low_u8(self) -> u8 {
        self.low_u32().low_u8()
    }

    fn low_u16(self) -> u16 {
        self.low_u32().low_u16()
    }

    fn low_u32(self) -> u32 {
        (self & 0xffff_ffff) as u32
    }

    fn high_u32(self) -> u32 {
        (self >> 32) as u32
    }
}

/// Conversions of an `i8`.
pub trait I8 {
    /// The number of a value.
    ghost number: { Self → ℤ };

    /// The number, which must not be negative.
    fn as_usize(self) -> usize
        requires { IsNonNegative (number self) }
        ensures { pos result ≡ number self };

    /// The 8 bits as an unsigned number: n if the number n is not negative, otherwise n + 2^8.
    fn to_bits(self) -> u8
        ensures value { pos result ≡ bits_of 8 (number self) }
        ensures range { FitsSigned w8 (number self) };

    /// The signed number with these 8 bits: n if n is below 2^7, otherwise n - 2^8.
    fn from_bits(n: u8) -> i8
        ensures { result ≡ number_of 8 (pos n) };
}

impl I8 for i8 {
    ghost number = { λ n. n };

    fn as_usize(self) -> usize {
        self as usize
    }

    fn to_bits(self) -> u8 {
        i8::cast_unsigned(self)
    }

    fn from_bits(n: u8) -> i8 {
        u8::cast_signed(n)
    }
}

/// Conversions of an `i32`.
pub trait I32 {
    /// The number of a value.
    ghost number: { Self → ℤ };

    /// The number, which must not be negative.
    fn as_usize(self) -> usize
        requires { IsNonNegative (number self) }
        ensures { pos result ≡ number self };

    /// The 32 bits as an unsigned number: n if the number n is not negative, otherwise n + 2^32.
    fn to_bits(self) -> u32
        ensures value { pos result ≡ bits_of 32 (number self) }
        ensures range { FitsSigned w32 (number self) };

    /// The signed number with these 32 bits: n if n is below 2^31, otherwise n - 2^32.
    fn from_bits(n: u32) -> i32
        ensures { result ≡ number_of 32 (pos n) };
}

impl I32 for i32 {
    ghost number = { λ n. n };

    fn as_usize(self) -> usize {
        self as usize
    }

    fn to_bits(self) -> u32 {
        i32::cast_unsigned(self)
    }

    fn from_bits(n: u32) -> i32 {
        u32::cast_signed(n)
    }
}

/// Conversions of an `i64`.
pub trait I64 {
    /// The number of a value.
    ghost number: { Self → ℤ };

    /// The number, which must not be negative.
    fn as_usize(self) -> usize
        requires { IsNonNegative (number self) }
        ensures { pos result ≡ number self };

    /// The 64 bits as an unsigned number: n if the number n is not negative, otherwise n + 2^64.
    fn to_bits(self) -> u64
        ensures value { pos result ≡ bits_of 64 (number self) }
        ensures range { FitsSigned w64 (number self) };

    /// The signed number with these 64 bits: n if n is below 2^63, otherwise n - 2^64.
    fn from_bits(n: u64) -> i64
        ensures { result ≡ number_of 64 (pos n) };
}

impl I64 for i64 {
    ghost number = { λ n. n };

    fn as_usize(self) -> usize {
        self as usize
    }

    fn to_bits(self) -> u64 {
        i64::cast_unsigned(self)
    }

    fn from_bits(n: u64) -> i64 {
        u64::cast_signed(n)
    }
}

/// Conversions of a `usize`.
pub trait Usize {
    /// The number of a value.
    ghost number: { Self → ℕ };

    /// The number, which has to be below 2^8.
    fn as_u8(self) -> u8
        requires { number self < 2 ^ 8 }
        ensures { result ≡ number self };

    /// The number, which has to be below 2^16.
    fn as_u16(self) -> u16
        requires { number self < 2 ^ 16 }
        ensures { result ≡ number self };

    /// The number, which has to be below 2^32.
    fn as_u32(self) -> u32
        requires { number self < 2 ^ 32 }
        ensures { result ≡ number self };

    /// The same number in the other type.
    fn as_u64(self) -> u64
        ensures { result ≡ number self };
}

impl Usize for usize {
    ghost number = { λ n. n };

    fn as_u8(self) -> u8 {
        self as u8
    }

    fn as_u16(self) -> u16 {
        self as u16
    }

    fn as_u32(self) -> u32 {
        self as u32
    }

    fn as_u64(self) -> u64 {
        self as u64
    }
}
