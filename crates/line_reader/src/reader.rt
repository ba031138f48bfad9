// Lines from standard input.
ghost use Rattle.std.specs.Prelude.{◌≡◌, ℕ, ◌≤◌, false, List, [], take, Ok, MatchResult};
ghost use Rattle.line_buffer.specs.Received.{received, StandsFor};
ghost use Rattle.line_reader.specs.Ends.{after_read};
ghost use Rattle.line_reader.specs.declared.reader.AtEnd.TheVariants.{GoOn, Stop, Stopped};

use line_buffer::LineBuffer;
use std::io;
use std::io::Read;

const CHUNK: usize = 4096;

// What a reader does where the input ends.
#[derive(Clone, Copy, Debug, PartialEq, Eq)]
enum AtEnd {
    // The next line is read all the same: a terminal can give more.
    GoOn,
    // It reads no more.
    Stop,
    // It has stopped.
    Stopped,
}

// What was read and not yet taken, the line so far, and what is done at the end of the input. The chunk is kept by hand in
// fixed memory: the library's buffered reader takes heap, which no program that serves rows needs.
#[derive(Clone, Copy)]
pub struct LineReader {
    chunk: [u8; CHUNK],
    next: usize,
    count: usize,
    line: LineBuffer,
    at_end: AtEnd,
    ghost taken: { next ≤ count },
    ghost fits: { count ≤ 4096 },
}

impl LineReader {
    // Nothing is read yet. Where the input has ended, it is asked again for the next line.
    pub fn new() -> LineReader
        ensures empty { received result.line ≡ [] }
        ensures goes_on { result.at_end ≡ GoOn }
    {
        LineReader::with_end(AtEnd::GoOn)
    }

    // Nothing is read yet. Where the input has ended, no more is read.
    pub fn fused() -> LineReader
        ensures empty { received result.line ≡ [] }
        ensures stops { result.at_end ≡ Stop }
    {
        LineReader::with_end(AtEnd::Stop)
    }

    // Nothing is read yet, and at the end of the input this is done.
    fn with_end(at_end: AtEnd) -> LineReader
        ensures empty { received result.line ≡ [] }
        ensures end { result.at_end ≡ at_end }
    {
        LineReader {
            chunk: [0; CHUNK],
            next: 0,
            count: 0,
            line: LineBuffer::new(),
            at_end,
        }
    }

    // Reads the next line: false where the input has ended. A last line without a line feed is a line too. The line itself
    // is asked of `line`, whose clauses say what it stands for: the result of an Option has none.
    pub fn advance(&mut self, rt: &HostRuntime) -> io::Result<bool>
        ensures goes_on { self.old.at_end ≡ GoOn → self.new.at_end ≡ GoOn }
        ensures stopped { self.old.at_end ≡ Stopped → (result ≡ Ok false) × ((received self.new.line ≡ []) × (self.new.at_end ≡ Stopped)) }
    {
        let mut line = LineBuffer::new();
        let found = self.take_line(rt, &mut line);
        self.line = line;
        found
    }

    // Takes what is left of a line: false where there is none, as `advance` says it.
    fn take_line(&mut self, rt: &HostRuntime, line: &mut LineBuffer) -> io::Result<bool>
        ensures goes_on { self.old.at_end ≡ GoOn → self.new.at_end ≡ GoOn }
        ensures stopped { self.old.at_end ≡ Stopped → (result ≡ Ok false) × ((received line.new ≡ received line.old) × (self.new.at_end ≡ Stopped)) }
    {
        if self.at_end == AtEnd::Stopped {
            return Ok(false);
        }
        for _ in 0..u64::MAX {
            if self.next == self.count && self.fill(rt)? == 0 {
                return Ok(!line.is_empty());
            }
            let rest = &self.chunk[self.next..self.count];
            match rest.iter().position(|b| *b == b'\n') {
                Some(end) => {
                    line.extend(&rest[..end]);
                    self.next += end + 1;
                    return Ok(true);
                }
                None => {
                    line.extend(rest);
                    self.next = self.count;
                }
            }
        }
        Ok(false)
    }

    // The line that was read last, or the front of it that is answered as the line would be.
    pub fn line(&self) -> &[u8]
        ensures value { result.now ≡ received self.now.line }
        ensures stands { (line : List ℕ) → received self.now.line ≡ take 129 line → StandsFor line result.now }
    {
        self.line.line()
    }

    // Reads more, and says how much. The end of the input stops a reader that is to stop.
    fn fill(&mut self, rt: &HostRuntime) -> io::Result<usize>
        ensures { MatchResult result (λ count. self.new.at_end ≡ after_read self.old.at_end count) (λ _. self.new.at_end ≡ self.old.at_end) }
    {
        let mut chunk = [0; CHUNK];
        let count = rt.stdin().read(&mut chunk)?;
        self.chunk = chunk;
        self.next = 0;
        self.count = count;
        if count == 0 && self.at_end == AtEnd::Stop {
            self.at_end = AtEnd::Stopped;
        }
        Ok(count)
    }
}
