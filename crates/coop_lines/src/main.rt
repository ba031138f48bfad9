// The tariff block by the cooperative's schedule, on an image kept in a file: lines on standard input, one answer line for
// each on standard output.
#![tactic(auto)]

use account::serve;
use cooperative::Cooperative;
use image_store::Image;
use line_reader::{Answered, BUFFER, LineReader};
use slot::SLOT;
use slots::check;
use std::process::ExitCode;
use std::{fs, io};
use store::Store;

const USAGE: &str = "usage: coop-lines IMAGE

Answers lines from standard input by the cooperative's schedule, one line for
each. IMAGE is the file of a retentive image: it is written back after each
line that is accepted. A missing file starts as 64 empty slots.";

// How many slots a new image has.
const SLOTS: usize = 64;

// As in the program image, but for the usage, the name, how the bytes come and what follows: with these as arguments one
// function for both is no plainer.
fn main(rt: HostRuntime) -> io::Result<ExitCode> {
    let Some(path) = image_file::argument(&rt)? else {
        rt.eprintln(USAGE)?;
        return Ok(ExitCode::FAILURE);
    };
    match image(&rt, path.as_str()) {
        Ok(bytes) => serve_image(&rt, path.as_str(), bytes),
        Err(error) => {
            eprintln!(rt; "coop-lines: cannot read {path}: {error}")?;
            Ok(ExitCode::FAILURE)
        }
    }
}

// The bytes of the file, or those of a new image where it is missing.
fn image(rt: &HostRuntime, path: &str) -> io::Result<Vec<u8>> {
    if fs::exists(rt, path)? {
        return image_file::read(rt, path);
    }
    let bytes = vec![in rt.alloc(); 0; SLOTS * SLOT]?;
    Ok(bytes)
}

// Takes the image into use, and answers lines.
fn serve_image(rt: &HostRuntime, path: &str, mut bytes: Vec<u8>) -> io::Result<ExitCode> {
    if check(&bytes).is_err() {
        eprintln!(rt; "coop-lines: {path} cannot be taken into use; the program image says why")?;
        return Ok(ExitCode::FAILURE);
    }
    let mut image = Image::open(bytes.as_mut_slice());
    run(rt, path, &mut image)?;
    Ok(ExitCode::SUCCESS)
}

// Answers lines. The image is safe in its file before an accepted line is answered.
fn run(rt: &HostRuntime, path: &str, image: &mut Image<'_>) -> io::Result<()> {
    let mut reader = LineReader::new();
    reader.answer(rt, |line, buffer| {
        let answered = answer_request(image, line, buffer);
        // Accepted, unless the answer's kind is a refusal's: the serving call gives the length alone, and to read the answer
        // back as a kind is no plainer.
        if !buffer.starts_with(b"7F") {
            image_file::write(rt, path, image.bytes())?;
        }
        Ok(answered)
    })?;
    Ok(())
}

// Answers a line as a request. oregon_serve does the same by another call, which is all that the step is.
fn answer_request(image: &mut Image<'_>, line: &[u8], buffer: &mut [u8; BUFFER]) -> Answered<()> {
    let Ok(length) = serve(&Cooperative, image, line, buffer) else {
        unreachable()
    };
    Answered {
        length,
        found: None,
    }
}
