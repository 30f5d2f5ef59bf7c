//! What a test looks at. Where it is not so, the case is told by its title, or what is missing.

ghost use Rattle.std.specs.Prelude.{IsTrue, false};

use std::fmt::Debug;
use std::process::Abort;

/// Both are the same.
pub fn same<T: Debug + PartialEq>(rt: &impl Abort, case: &str, found: &T, want: &T) {
    assert_eq!(rt; found, want, "in case {case}");
}

/// Both are the same, as this line of the case says.
pub fn same_by<T: Debug + PartialEq>(rt: &impl Abort, case: &str, line: &str, found: &T, want: &T) {
    assert_eq!(rt; found, want, "in case {case}: {line}");
}

/// It holds.
pub fn must(rt: &impl Abort, case: &str, holds: bool)
    ensures { IsTrue holds }
{
    assert!(rt; holds, "{case}");
}

/// What an option has, which must be something.
pub fn found<T>(rt: &impl Abort, what: &str, option: Option<T>) -> T {
    match option {
        Some(value) => value,
        None => panic!(rt; "not found: {what}"),
    }
}

/// What an option has, which must be something in this case.
pub fn found_in<T>(rt: &impl Abort, case: &str, what: &str, option: Option<T>) -> T {
    match option {
        Some(value) => value,
        None => panic!(rt; "in case {case}: not found: {what}"),
    }
}

/// This keeps a rule.
pub fn rule(rt: &impl Abort, rule: &str, at: &str, holds: bool)
    ensures { IsTrue holds }
{
    assert!(rt; holds, "{rule}: {at}");
}

/// This keeps no rule, or is not so in a case. It does not return.
pub fn fail_by(rt: &impl Abort, rule: &str, at: &str)
    ensures { IsTrue false }
{
    panic!(rt; "{rule}: {at}")
}

/// Something came that must not. It does not return.
pub fn fail(rt: &impl Abort, what: &str)
    ensures { IsTrue false }
{
    panic!(rt; "{what}")
}
