//! Assertions, each in a function of its own: the prover goes through all that an assertion's macro becomes, wherever
//! it stands. Each crate of tests that takes them has this same file, since no library's function may take an `Abort`.

use std::fmt::{Debug, Display};
use std::process::Abort;

/// Ends the test if the value found isn't the one wanted, and says at what.
pub fn same<T: PartialEq + Debug + Copy>(rt: &impl Abort, found: T, wanted: T, at: &impl Display) {
    assert_eq!(rt; found, wanted, "{at}");
}

/// The same of bytes.
pub fn same_bytes(rt: &impl Abort, found: &[u8], wanted: &[u8], at: &impl Display) {
    assert_eq!(rt; found, wanted, "{at}");
}

/// Ends the test if something doesn't hold, and says of what.
pub fn holds(rt: &impl Abort, is_so: bool, at: &impl Display) {
    assert!(rt; is_so, "{at}");
}
