//! Files of rows.
use crate::answers::push_answer;
use crate::refusal::Refusal;
use std::alloc::{AllocError, Global};

/// The text between a case and the expected answer.
const WANTS: &str = " = ";

/// Writes how many rows of a file agree, and the answers of the others.
pub fn push_report(
    text: &mut String,
    alloc: Global,
    name: &str,
    file: &str,
) -> Result<(), AllocError> {
    let mut others = String::new(alloc);
    let (mut rows, mut agree) = (0u32, 0u32);
    for (number, line) in file.lines().enumerate() {
        if line.is_empty() || line.starts_with('#') {
            continue;
        }
        rows = rows.saturating_add(1);
        if agrees(&mut others, alloc, number.saturating_add(1), line)? {
            agree = agree.saturating_add(1);
        }
    }
    writeln!(text, "{name}: {agree} of {rows} rows agree")?;
    text.push_str(others.as_str())
}

/// Whether the row of a line agrees. If it does not, this writes the answer.
fn agrees(text: &mut String, alloc: Global, number: usize, line: &str) -> Result<bool, AllocError> {
    let Some((case, wanted)) = line.split_once(WANTS) else {
        push_line(text, number, line)?;
        text.push_str("    no answer is wanted\n")?;
        return Ok(false);
    };
    let mut came = String::new(alloc);
    let refused = push_answer(&mut came, alloc, case)?;
    if refused.is_none() && came.as_str() == wanted {
        return Ok(true);
    }
    push_line(text, number, case)?;
    push_other(text, wanted, came.as_str())?;
    Ok(false)
}

/// Writes a line, with its number.
fn push_line(text: &mut String, number: usize, line: &str) -> Result<(), AllocError> {
    writeln!(text, "  line {number}: {line}")
}

/// Writes the expected answer, and the actual one.
fn push_other(text: &mut String, wanted: &str, came: &str) -> Result<(), AllocError> {
    writeln!(text, "    wanted {wanted}\n    came   {came}")
}
