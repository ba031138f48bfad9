// Receiving a line byte by byte.
ghost use Rattle.std.specs.Prelude.{◌≡◌, ℕ, List, [], ◌∷◌, ◌++◌, length, take, ◌==◌};
ghost use Rattle.line_buffer.specs.Received.{received, StandsFor};

use crate::buffer::{KEPT, LineBuffer};

impl LineBuffer {
    // No line yet.
    pub fn new() -> LineBuffer
        ensures { received result ≡ [] }
    {
        LineBuffer {
            bytes: [0; KEPT],
            len: 0,
        }
    }

    // One character more. Those past the 129th are not kept.
    #[tactic(auto, using(crate::proofs::Fronts::push_room, crate::proofs::Fronts::push_full))]
    pub fn push(&mut self, byte: u8)
        ensures { received self.new ≡ take 129 (received self.old ++ byte ∷ []) }
    {
        if self.len < KEPT {
            self.bytes[self.len] = byte;
            self.len += 1;
        }
    }

    // More characters. Those past the 129th are not kept.
    #[tactic(auto, using(crate::proofs::Fronts::extended))]
    pub fn extend(&mut self, bytes: &[u8])
        ensures { received self.new ≡ take 129 (received self.old ++ bytes.now) }
    {
        let room = (KEPT - self.len).min(bytes.len());
        let end = self.len + room;
        self.bytes[self.len..end].copy_from_slice(&bytes[..room]);
        self.len = end;
    }

    // Begins another line.
    pub fn clear(&mut self)
        ensures { received self.new ≡ [] }
    {
        self.len = 0;
    }

    pub fn is_empty(&self) -> bool
        ensures { result ≡ (length (received self.now) == 0) }
    {
        self.len == 0
    }

    // The line, or the front of it that is answered as the line would be.
    #[tactic(auto, using(crate::proofs::Fronts::stands))]
    pub fn line(&self) -> &[u8]
        ensures value { result.now ≡ received self.now }
        ensures stands { (line : List ℕ) → received self.now ≡ take 129 line → StandsFor line result.now }
    {
        &self.bytes[0..self.len]
    }
}
