// What is read into a lent buffer and written there: decimal numbers, and what is left of a block of a stream.
#![tactic(auto)]

pub mod digits;

ghost use Rattle.std.specs.Prelude.{◌≡◌, ◌+◌, ◌≤◌, leb, length, take};
ghost use Rattle.std.specs.Io.KnownBytes.{Consumes};
ghost use Rattle.buffers.specs.Buffers.{Writes, left_in};

use std::io;

// Reads until the buffer is full, the input ends or a read fails, and answers how many bytes there are.
pub fn read_full<R: io::Read>(input: &mut R, buffer: &mut [u8]) -> usize
    ensures within { result ≤ length buffer.new }
    ensures bytes { Consumes (R.remaining input.old) (R.remaining input.new) (take result buffer.new) }
{
    let mut held = 0;
    while held < buffer.len() {
        match input.read(&mut buffer[held..]) {
            Ok(0) | Err(_) => return held,
            Ok(count) => held += count,
        }
    }
    held
}

// Carries what is left of the bytes held in a block, after those taken, to its front, and answers how many these are.
pub fn carry(block: &mut [u8], taken: usize, held: usize) -> usize
    ensures { Writes block.old block.new 0 (left_in taken held block.old) result }
{
    let end = held.min(block.len());
    if end <= taken {
        return 0;
    }
    block.copy_within(taken..end, 0);
    end - taken
}

// Whether a buffer of so many bytes has so many from a place on.
pub fn has_room(length: usize, at: usize, wanted: usize) -> bool
    ensures { result ≡ leb (at + wanted) length }
{
    wanted <= length && at <= length - wanted
}
