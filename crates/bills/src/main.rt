// Bills for a person at a desk: a card and readings on standard input, the amounts of each reading on standard output.
#![tactic(auto)]

mod bill;
mod card;
mod csv;
mod desk;
mod fields;
mod line;
mod number;
mod problem;
mod statement;
mod utility;

use desk::{Desk, Form};
use std::io::Read;
use std::process::ExitCode;
use std::{env, io};

const USAGE: &str = "usage: bills [--csv]

Reads a card line from standard input, and then readings, one to a line, of
ten fields with commas between them: book (oregon or cooperative), schedule,
flags, kWh, off-hours kWh, demand and peak-hours demand in tenths of a kW,
kvar, power factor in percent, load size in kW. Prints a statement of each.

  --csv    print the thirteen amounts of each reading in cents instead
  --help   print this text";

// What the arguments ask for.
#[derive(Clone, Copy, Debug, PartialEq, Eq)]
enum Command {
    Serve(Form),
    Help,
}

impl Command {
    // Nothing where an argument is unknown, as one that is no text is.
    fn read(rt: &HostRuntime) -> Option<Command> {
        let mut form = Form::Statement;
        for argument in env::args(rt).ok()?.skip(1) {
            match argument.as_str() {
                "--csv" => form = Form::Csv,
                "--help" => return Some(Command::Help),
                _ => return None,
            }
        }
        Some(Command::Serve(form))
    }
}

fn main(rt: HostRuntime) -> io::Result<ExitCode> {
    match Command::read(&rt) {
        Some(Command::Serve(form)) => serve(&rt, form)?,
        Some(Command::Help) => rt.println(USAGE)?,
        None => {
            rt.eprintln(USAGE)?;
            return Ok(ExitCode::FAILURE);
        }
    }
    Ok(ExitCode::SUCCESS)
}

// Answers lines until the input ends. By its bytes and not by a line reader, which keeps the front of a line: here the
// fields of a line of any length count.
fn serve(rt: &HostRuntime, form: Form) -> io::Result<()> {
    let mut input = rt.stdin();
    let mut desk = Desk::new(form);
    // A chunk of its own size: the line reader's is no matter of this program.
    let mut chunk = [0; 4096];
    for _ in 0..u64::MAX {
        let count = input.read(&mut chunk)?;
        if count == 0 {
            break;
        }
        desk.receive(rt, &chunk[0..count])?;
    }
    desk.finish(rt)
}
