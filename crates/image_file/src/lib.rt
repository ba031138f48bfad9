// An image kept in a file.
#![tactic(auto)]

ghost use Rattle.std.specs.Prelude.{◌≤◌, IfOk, vec_len};

use slot::SLOT;
use std::fs::{File, OpenFile};
use std::io::{Read, Write};
use std::{env, fs, io};
use store::MOST;

// One slot more than an image may have: enough to refuse a longer file for its length.
const LIMIT: usize = (MOST + 1) * SLOT;

// The file that the program's one argument names, or nothing where there is another number of them.
pub fn argument(rt: &HostRuntime) -> io::Result<Option<String>> {
    let mut arguments = env::args(rt)?.skip(1);
    let Some(first) = arguments.next() else {
        return Ok(None);
    };
    match arguments.next() {
        None => Ok(Some(first)),
        Some(_) => Ok(None),
    }
}

// The bytes of a file, as far as the limit.
pub fn read(rt: &HostRuntime, path: &str) -> io::Result<Vec<u8>>
    ensures { IfOk result (λ bytes. vec_len bytes ≤ 434600) }
{
    let mut file = File::open(rt, path)?.take(LIMIT as u64);
    let mut bytes = Vec::new(rt.alloc());
    file.read_to_end(&mut bytes)?;
    // The read stops at the limit, which its contract does not say.
    bytes.truncate(LIMIT);
    Ok(bytes)
}

// Writes the bytes to a file beside this one, and then puts that in its place: at any time the file is whole.
pub fn write(rt: &HostRuntime, path: &str, bytes: &[u8]) -> io::Result<()> {
    let new = format!(in rt.alloc(); "{path}.new")?;
    let mut file = File::create(rt, new.as_str())?;
    file.write_all(bytes)?;
    file.sync_data()?;
    fs::rename(rt, new.as_str(), path)
}
