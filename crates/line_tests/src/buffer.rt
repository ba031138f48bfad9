// What stands in an answer buffer.
use reading::Fault;
use std::process::Abort;

// The byte that fills a buffer before a call. No line has it.
pub(crate) const UNTOUCHED: u8 = b'.';

// The call gave the length of the line, and the line stands in the buffer.
pub(crate) fn check_line(
    rt: &impl Abort,
    written: Result<usize, Fault>,
    buffer: &[u8],
    line: &[u8],
) {
    assert_eq!(rt; written, Ok(line.len()));
    check_written(rt, buffer, line);
}

// The buffer has the line at its front, and past it what filled it before the call.
pub(crate) fn check_written(rt: &impl Abort, buffer: &[u8], line: &[u8]) {
    assert!(rt; line.len() <= buffer.len());
    let (front, rest) = buffer.split_at(line.len());
    assert_eq!(rt; front, line);
    assert!(rt; rest.iter().all(|byte| *byte == UNTOUCHED));
}
