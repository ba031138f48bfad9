// Answers to standard output, one for each line.
ghost use Rattle.std.specs.Prelude.{◌≡◌, ◌<◌, ◌≤◌, length as length_of, slice_set};

use crate::reader::LineReader;
use frame::LINE;
use std::io;
use std::io::Write;

// An answer line and its line feed.
pub const BUFFER: usize = LINE + 1;

// The length of an answer, and what was found, where the lines end with this one.
#[derive(Drop)]
pub struct Answered<T> {
    pub length: usize,
    pub found: Option<T>,
    ghost fits: { length ≤ 128 },
}

impl LineReader {
    // Answers each line at once, until something is found or the input ends.
    pub fn answer<T: Drop, F>(&mut self, rt: &HostRuntime, mut step: F) -> io::Result<Option<T>>
    where
        F: FnMut(&[u8], &mut [u8; BUFFER]) -> io::Result<Answered<T>>,
        requires { F.IsAlwaysCallable step }
    {
        for _ in 0..u64::MAX {
            if !self.advance(rt)? {
                break;
            }
            let mut buffer = [0; BUFFER];
            let answered = step(self.line(), &mut buffer)?;
            write_line(rt, &mut buffer, answered.length)?;
            if answered.found.is_some() {
                return Ok(answered.found);
            }
        }
        Ok(None)
    }
}

// Writes the first bytes of a buffer as a line, at once. The line feed is put behind them. The length stands beside the
// buffer, since the calls that fill the caller's buffer answer a length.
pub fn write_line(rt: &HostRuntime, buffer: &mut [u8], length: usize) -> io::Result<()>
    requires { length < length_of buffer.old }
    ensures { buffer.new ≡ slice_set buffer.old length 10 }
{
    buffer[length] = b'\n';
    rt.stdout().write_all(&buffer[0..length + 1])
}
