// For the commissioning bench: whether an image can be taken into use, and what it holds. Nothing is written.
#![tactic(auto)]

mod listing;

use listing::Listing;
use slot::{decode, head};
use slots::{check, slots_of};
use std::io;
use std::process::ExitCode;

const USAGE: &str = "usage: image FILE

Says whether FILE can be taken into use as a retentive image, and lists the
site months that it holds, a line for each. It ends with status 1 where the
image cannot be taken into use. FILE is only read.";

// As in the program coop-lines, where the reason stands why both have it.
fn main(rt: HostRuntime) -> io::Result<ExitCode> {
    let Some(path) = image_file::argument(&rt)? else {
        rt.eprintln(USAGE)?;
        return Ok(ExitCode::FAILURE);
    };
    match image_file::read(&rt, path.as_str()) {
        Ok(bytes) => judge(&rt, &bytes),
        Err(error) => {
            eprintln!(rt; "image: cannot read {path}: {error}")?;
            Ok(ExitCode::FAILURE)
        }
    }
}

// What becomes of the image, and what it holds.
fn judge(rt: &HostRuntime, bytes: &[u8]) -> io::Result<ExitCode> {
    match check(bytes) {
        Ok(()) => {
            list(rt, bytes)?;
            Ok(ExitCode::SUCCESS)
        }
        Err(flaw) => {
            println!(rt; "cannot be taken into use: {flaw}")?;
            Ok(ExitCode::FAILURE)
        }
    }
}

// A line for the image and one for each site month.
fn list(rt: &HostRuntime, bytes: &[u8]) -> io::Result<()> {
    let slots = slots_of(bytes);
    let all = slots.len();
    let used = slots.iter().filter(|slot| head(*slot).is_some()).count();
    println!(rt; "can be taken into use: {used} of {all} slots in use")?;
    for (slot, bytes) in slots.iter().enumerate() {
        if let Ok(Some(kept)) = decode(bytes) {
            let listing = Listing { slot, kept };
            println!(rt; "{listing}")?;
        }
    }
    Ok(())
}
