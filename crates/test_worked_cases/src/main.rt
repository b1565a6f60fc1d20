//! Worked cases of the public calls. Each is a row of a file in `data/`, with the expected answer. For each file that
//! an argument names, the program prints how many rows agree, and the actual answer of each other row. For the argument
//! `-` it prints an answer for each line of standard input, by which `checks/original` compares these calls with the
//! original. Users do not need this program.
//!
//! A row is a case, then ` = `, then the expected answer. A line that is empty or begins with `#` is no row. A row
//! without an expected answer, or with a case that is not valid or breaks a condition of the call, never agrees. A case
//! has fields, separated by `|`, each without spaces at its ends. The first field is the call; most others have:
//!
//! - the match kind, `standard`, `first` or `longest`; or `leftmost`, which is both `first` and `longest`, or `any`,
//!   which is all three: then each kind has to give the answer;
//! - whether ASCII case is `kept` or ignored, `nocase`; for the packed search `kept`, or the largest number of patterns
//!   of its builder;
//! - the patterns, separated by commas, or `.` for none;
//! - the haystack;
//! - the span, `START..END`, in bytes of the haystack; without one it is the whole haystack.
//!
//! Bytes are text, but `_` alone is no byte, `\xNN` is a byte in two hexadecimal digits, and `{N}` after a byte says
//! that it is there N times in all. The bytes ``\ , | { }`` and `#` at the start of a line are written as `\xNN`.
//!
//! A match is the pattern's number and the offsets at which it starts and ends. Calls that have to give the same answer
//! are all made: if one gives another answer, this follows after ` / `.
#![tactic(auto)]

mod answers;
mod bytes;
mod case;
mod classes;
mod identifiers;
mod numbers;
mod overlapping;
mod packed_search;
mod pattern_lists;
mod prefilters;
mod refusal;
mod rows;
mod searches;
mod spans;
mod tables;
mod told;
mod whole_words;

use answers::push_answers;
use rows::push_report;
use std::{env, fs, io};

fn main(rt: HostRuntime) -> io::Result<()> {
    for name in env::args(&rt)?.skip(1) {
        let mut text = String::new(rt.alloc());
        if name.as_str() == "-" {
            let lines = io::read_to_string(rt.alloc(), rt.reader())?;
            push_answers(&mut text, rt.alloc(), lines.as_str())?;
        } else {
            let rows = fs::read_to_string(&rt, name.as_str())?;
            push_report(&mut text, rt.alloc(), name.as_str(), rows.as_str())?;
        }
        rt.print(text.as_str())?;
    }
    Ok(())
}
