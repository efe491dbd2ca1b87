//! The one assertion of these tests: an `assert_eq!` takes seconds to prove wherever it stands, and a
//! call of this function next to none.

use std::fmt::Debug;
use std::process::Abort;

/// Stops the test unless what was found is what was wanted, and prints both with the case.
pub(crate) fn assert_same<T: PartialEq + Debug + Drop, C: Debug + Drop, R: Abort>(
    rt: &R,
    found: T,
    wanted: T,
    case: C,
) {
    assert_eq!(rt; found, wanted, "{case:?}");
}
