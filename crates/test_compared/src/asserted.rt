//! Assertions as calls. If an assertion with a message is written out in a function, the proof of that function
//! includes the formatting of the message, and takes many times as long.
ghost use Rattle.std.specs.Prelude.{IsTrue};

use std::fmt::{Debug, Display};
use std::process::Abort;

/// Both values are equal. The note says where this is asserted.
pub fn assert_same<T: PartialEq + Debug + Copy, N: Display + Drop>(
    rt: &impl Abort,
    found: T,
    wanted: T,
    note: N,
) {
    assert_eq!(rt; found, wanted, "{note}");
}

/// The condition holds. The note says where this is asserted.
pub fn assert_holds<N: Display + Drop>(rt: &impl Abort, holds: bool, note: N)
    ensures { IsTrue holds }
{
    assert!(rt; holds, "{note}");
}
