//! The comparison for all tests. Written at each place, `assert_eq!` puts its message and the end of the process there, and
//! each copy is proved.
use std::alloc::Global;
use std::fmt::{Debug, Display};
use std::process::Abort;

/// Asserts that what was found in a case is what is wanted there.
pub(crate) fn assert_same<C: Debug + Copy, T: Debug + PartialEq + Copy>(
    rt: &impl Abort,
    case: C,
    found: T,
    wanted: T,
) {
    assert_eq!(rt; found, wanted, "at {case:?}");
}

/// Asserts that each fault says the text beside it.
pub(crate) fn assert_messages<F: Display>(rt: &impl Abort, alloc: Global, messages: &[(F, &str)]) {
    for (fault, text) in messages {
        let message = fault.to_string(alloc).expect(rt, text);
        assert_same(rt, *text, message.as_str(), text);
    }
}
