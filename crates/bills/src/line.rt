// A line as it arrives.
use line_buffer::LineBuffer;

pub const FIELDS: usize = 10;

// Only the front of a long line or a long field is kept: one that long is no card, no name and no number.
#[derive(Clone, Copy)]
pub struct Line {
    // The line, for a card.
    characters: LineBuffer,
    // Its first ten fields, for a reading.
    fields: [LineBuffer; FIELDS],
    // Its commas, counted up to ten. A vector of the fields would need room for an eleventh to tell ten from more.
    commas: usize,
    // A carriage return was the last character. It is held back, since it counts only if no line feed follows. A flag
    // holds it whole, for the character is known.
    returned: bool,
}

impl Line {
    pub fn new() -> Line {
        Line {
            characters: LineBuffer::new(),
            fields: [LineBuffer::new(); FIELDS],
            commas: 0,
            returned: false,
        }
    }

    pub fn push(&mut self, byte: u8) {
        self.release();
        if byte == b'\r' {
            self.returned = true;
        } else {
            self.put(byte);
        }
    }

    // Counts a carriage return that was held back.
    pub fn release(&mut self) {
        if self.returned {
            self.put(b'\r');
            self.returned = false;
        }
    }

    fn put(&mut self, byte: u8) {
        self.characters.push(byte);
        if self.commas < FIELDS {
            if byte == b',' {
                self.commas += 1;
            } else {
                self.fields[self.commas].push(byte);
            }
        }
    }

    // Begins another line.
    pub fn clear(&mut self) {
        self.characters.clear();
        for field in &mut self.fields {
            field.clear();
        }
        self.commas = 0;
        self.returned = false;
    }

    pub fn is_empty(&self) -> bool {
        self.characters.is_empty() && !self.returned
    }

    pub fn characters(&self) -> &[u8] {
        self.characters.line()
    }

    // The fields, if there are ten.
    pub fn fields(&self) -> Option<&[LineBuffer; FIELDS]> {
        (self.commas == FIELDS - 1).then_some(&self.fields)
    }
}
