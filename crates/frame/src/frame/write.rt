// Making a frame, and writing it as a line.
ghost use Rattle.std.specs.Prelude.{◌≡◌, ◌+◌, ◌*◌, ◌≤◌, length, take, OnOk};
ghost use Rattle.frame.specs.Held.{held};
ghost use Rattle.frame.specs.Line.{spelled};
ghost use Rattle.frame.specs.Seal.{check_byte, framed};
ghost use Rattle.frame.specs.Tests.{ReadsBack};
ghost use Rattle.frame.specs.Written.{fronted, Written};

use crate::digit::digit_of;
use crate::frame::read::sum_of;
use crate::frame::{Frame, LINE, SIZE};
use reading::Fault;

impl Frame {
    // The frame of a kind and a payload.
    #[tactic(auto, using(crate::proofs::Assembly::sealed_framed, crate::proofs::Assembly::framed_below, crate::proofs::Bytes::each_below, crate::proofs::Bytes::slice_below))]
    pub fn new(kind: u8, payload: &[u8]) -> Frame
        requires { length payload.now ≤ 61 }
        ensures { held result ≡ framed kind payload.now }
    {
        let mut bytes = [0; SIZE];
        put_frame(kind, payload, &mut bytes);
        Frame {
            bytes,
            len: payload.len() + 3,
        }
    }

    // Writes the frame as a line at the front of a buffer of at least 128 bytes, and answers the line's length.
    pub fn write(&self, buffer: &mut [u8]) -> Result<usize, Fault>
        ensures written { Written (spelled (held self.now)) buffer.old buffer.new result }
        ensures reads_back { OnOk result (ReadsBack (held self.now)) }
    {
        if buffer.len() < LINE {
            return Err(Fault::Buffer);
        }
        let bytes = self.bytes();
        spell(bytes, buffer);
        Ok(2 * bytes.len())
    }
}

// Puts the frame of a kind and a payload at the front of some bytes.
fn put_frame(kind: u8, payload: &[u8], bytes: &mut [u8; SIZE])
    requires { length payload.now ≤ 61 }
    ensures { take (length payload.now + 3) bytes.new ≡ framed kind payload.now }
{
    let body = payload.len() + 2;
    bytes[0] = kind;
    bytes[1] = payload.len() as u8;
    bytes[2..body].copy_from_slice(payload);
    bytes[body] = check_of(&bytes[0..body]);
}

// The check byte that belongs behind some bytes.
fn check_of(body: &[u8]) -> u8
    ensures { result ≡ check_byte body.now }
{
    0u8.wrapping_sub(sum_of(body))
}

// Writes some bytes as digits at the front of a buffer. In place: a line of its own, pushed and then copied, takes four times
// as long.
fn spell(bytes: &[u8], buffer: &mut [u8])
    requires { 2 * length bytes.now ≤ length buffer.old }
    ensures { buffer.new ≡ fronted (spelled bytes.now) buffer.old }
{
    for (i, b) in bytes.iter().enumerate() {
        buffer[2 * i] = digit_of(*b / 16);
        buffer[2 * i + 1] = digit_of(*b % 16);
    }
}
