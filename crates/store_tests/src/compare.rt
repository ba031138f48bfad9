// What a store wrote.
use std::fmt::Debug;
use std::process::Abort;

// One row or slot differs, and it has become this one.
pub(crate) fn check_one<T: PartialEq + Debug>(
    rt: &impl Abort,
    before: &[T; 3],
    after: &[T; 3],
    written: &T,
) {
    let mut differing = before.iter().zip(after.iter()).filter(|(a, b)| a != b);
    assert_eq!(rt; differing.next().map(|(_, b)| b), Some(written));
    assert!(rt; differing.next().is_none());
}
