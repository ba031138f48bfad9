// A failure that says where it came about.
// The other test crate has this file too: a library of both would take an Abort bound out of the tests.
use std::fmt::Display;
use std::process::Abort;

// A handle whose failures begin with a note, as the number of a case.
#[derive(Drop)]
pub(crate) struct Noted<R, N>(pub(crate) R, pub(crate) N);

impl<R: Abort, N: Display> Abort for Noted<R, N> {
    fn abort(&self) -> ! {
        self.0.abort()
    }

    fn exit(&self, code: i32) -> ! {
        self.0.exit(code)
    }

    fn panic<D: Display + Drop>(&self, message: D) -> ! {
        let note = &self.1;
        self.0.panic(format_args!("{note}: {message}"))
    }
}
