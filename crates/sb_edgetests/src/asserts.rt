// Assertions by call. One that is made in place walks all that is held there, and so its proof is the longer the more
// that is; by a call it is as short as the call. What fails is told here, and not where the call stands: so each says
// what was looked at, where the two values don't.
use std::fmt::Debug;
use std::process::Abort;

// What was found is what was wanted.
pub(crate) fn assert_is<T: PartialEq + Debug + Drop>(rt: &impl Abort, found: T, wanted: T) {
    assert_eq!(rt; found, wanted);
}

// This holds.
pub(crate) fn assert_that(rt: &impl Abort, holds: bool, what: &str) {
    assert!(rt; holds, "{what}");
}
