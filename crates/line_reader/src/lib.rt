// Lines from standard input, each in bounded memory, and answers to standard output.
#![tactic(auto)]

mod answers;
mod reader;

pub use answers::{Answered, BUFFER, write_line};
pub use reader::LineReader;
