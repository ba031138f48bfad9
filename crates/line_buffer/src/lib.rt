// A line as it arrives, in a bounded amount of memory.
#![tactic(auto)]

mod buffer;

pub use buffer::LineBuffer;
