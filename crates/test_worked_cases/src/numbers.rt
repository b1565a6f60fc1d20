//! Answers of numbers and of bytes.
use crate::bytes::push_bytes;
use crate::case::Case;
use crate::refusal::Refusal;
use literal_prefilters::alphabet::opposite_ascii_case;
use literal_prefilters::byte_frequencies::{BYTE_FREQUENCIES, freq_rank};
use literal_prefilters::int::{I8, I32, I64, U8, U16, U32, U64, Usize};
use std::alloc::{AllocError, Global};

/// The ranks of all bytes, or of 16 of them from one on.
pub fn ranks(text: &mut String, case: &Case<'_>) -> Result<(), Refusal> {
    let (first, last): (u8, u8) = match case.field(1) {
        Ok(_) => {
            let first: u8 = case.number(1)?;
            (first, first.saturating_add(15))
        }
        Err(_) => (0, 255),
    };
    Ok(push_ranks(text, first, last)?)
}

/// Writes the ranks of bytes.
fn push_ranks(text: &mut String, first: u8, last: u8) -> Result<(), AllocError> {
    let mut before = "";
    for byte in first..=last {
        let rank = freq_rank(byte);
        write!(text, "{before}{rank}")?;
        let listed = BYTE_FREQUENCIES[byte as usize];
        if listed != rank {
            write!(text, " / {listed}")?;
        }
        before = " ";
    }
    Ok(())
}

/// The other case of each byte.
pub fn opposite(text: &mut String, alloc: Global, case: &Case<'_>) -> Result<(), Refusal> {
    let mut bytes = case.bytes(alloc, 1)?;
    for byte in bytes.iter_mut() {
        *byte = opposite_ascii_case(*byte);
    }
    Ok(push_bytes(text, bytes.as_slice())?)
}

/// The conversions of a number of an integer type.
pub fn int(text: &mut String, case: &Case<'_>) -> Result<(), Refusal> {
    match case.field(1)? {
        "u8" => of_u8(text, case),
        "u16" => of_u16(text, case),
        "u32" => of_u32(text, case),
        "u64" => of_u64(text, case),
        "i8" => of_i8(text, case),
        "i32" => of_i32(text, case),
        "i64" => of_i64(text, case),
        "usize" => of_usize(text, case),
        _ => Err(Refusal::NoCase),
    }
}

fn of_u8(text: &mut String, case: &Case<'_>) -> Result<(), Refusal> {
    let n: u8 = case.number(2)?;
    let signed = i8::from_bits(n);
    let (index, back) = (n.as_usize(), signed.to_bits());
    Ok(write!(text, "usize={index} i8={signed} back={back}")?)
}

fn of_u16(text: &mut String, case: &Case<'_>) -> Result<(), Refusal> {
    let n: u16 = case.number(2)?;
    let (index, high, low) = (n.as_usize(), n.high_u8(), n.low_u8());
    write!(text, "usize={index}")?;
    push_part(text, "high_u8", high.as_usize())?;
    Ok(push_part(text, "low_u8", low.as_usize())?)
}

/// Writes a part of a number.
fn push_part(text: &mut String, name: &str, part: usize) -> Result<(), AllocError> {
    write!(text, " {name}={part:#x}")
}

fn of_u32(text: &mut String, case: &Case<'_>) -> Result<(), Refusal> {
    let n: u32 = case.number(2)?;
    let (index, signed) = (n.as_usize(), i32::from_bits(n));
    write!(text, "usize={index} i32={signed}")?;
    push_part(text, "high_u16", n.high_u16().as_usize())?;
    push_part(text, "low_u16", n.low_u16().as_usize())?;
    Ok(push_part(text, "low_u8", n.low_u8().as_usize())?)
}

fn of_u64(text: &mut String, case: &Case<'_>) -> Result<(), Refusal> {
    let n: u64 = case.number(2)?;
    let (index, signed) = (n.as_usize(), i64::from_bits(n));
    write!(text, "usize={index} i64={signed}")?;
    push_part(text, "high_u32", n.high_u32().as_usize())?;
    push_part(text, "low_u32", n.low_u32().as_usize())?;
    push_part(text, "low_u16", n.low_u16().as_usize())?;
    Ok(push_part(text, "low_u8", n.low_u8().as_usize())?)
}

/// Writes the bits of a number, the number of these bits, and the number as an index, if it is one.
fn push_signed(
    text: &mut String,
    bits: u64,
    back: i64,
    index: Option<usize>,
) -> Result<(), AllocError> {
    write!(text, "bits={bits} back={back}")?;
    match index {
        Some(index) => write!(text, " usize={index}"),
        None => Ok(()),
    }
}

fn of_i8(text: &mut String, case: &Case<'_>) -> Result<(), Refusal> {
    let n: i8 = case.number(2)?;
    let index = if n >= 0 { Some(n.as_usize()) } else { None };
    let bits = n.to_bits();
    Ok(push_signed(text, bits as u64, i8::from_bits(bits) as i64, index)?)
}

fn of_i32(text: &mut String, case: &Case<'_>) -> Result<(), Refusal> {
    let n: i32 = case.number(2)?;
    let index = if n >= 0 { Some(n.as_usize()) } else { None };
    let bits = n.to_bits();
    Ok(push_signed(text, bits as u64, i32::from_bits(bits) as i64, index)?)
}

fn of_i64(text: &mut String, case: &Case<'_>) -> Result<(), Refusal> {
    let n: i64 = case.number(2)?;
    let index = if n >= 0 { Some(n.as_usize()) } else { None };
    let bits = n.to_bits();
    Ok(push_signed(text, bits, i64::from_bits(bits), index)?)
}

/// Writes the number in each type that has room for it.
fn of_usize(text: &mut String, case: &Case<'_>) -> Result<(), Refusal> {
    let n: usize = case.number(2)?;
    let long = n.as_u64();
    write!(text, "u64={long}")?;
    if n <= u32::MAX as usize {
        push_number(text, "u32", n.as_u32().as_usize())?;
    }
    if n <= u16::MAX as usize {
        push_number(text, "u16", n.as_u16().as_usize())?;
    }
    if n <= u8::MAX as usize {
        push_number(text, "u8", n.as_u8().as_usize())?;
    }
    Ok(())
}

/// Writes a number of a type.
fn push_number(text: &mut String, name: &str, number: usize) -> Result<(), AllocError> {
    write!(text, " {name}={number}")
}
