// How a stream of records is cut into events: each byte belongs to exactly one.
ghost use Rattle.std.specs.Prelude.{◌≡◌, ◌≤◌};
ghost use Rattle.records.specs.Stream.{bearers_in, request_in, piece_of};

use crate::{Kind, Record, SIZE};

// The event at the front of some bytes.
#[derive(Clone, Copy)]
pub struct Piece {
    // its record; one of zeros, which is malformed, where fewer bytes than a record has are left
    pub head: Record,
    // how many bytes it has, the bearer records of a request with it; none at the end of a stream
    pub size: usize,
    // whether it is the same whatever comes after these bytes
    pub whole: bool,
}

// The event at the front of some bytes: the next one starts after it.
#[tactic(auto, using(crate::proofs::Cutting::bearers_within))]
pub fn cut(bytes: &[u8]) -> Piece
    ensures { result ≡ piece_of bytes.now }
{
    let Some(head) = Record::read(bytes, 0) else {
        return Piece {
            head: Record::zeros(),
            size: bytes.len(),
            whole: false,
        };
    };
    if !head.takes_bearers() {
        return Piece {
            head,
            size: SIZE,
            whole: true,
        };
    }
    let size = SIZE + SIZE * bearers_in(&bytes[SIZE..], head.number);
    request(head, size, bytes.len())
}

// A request of so many bytes, at the front of so many: it takes no more if it has all its bearers, or another record stands after it.
fn request(head: Record, size: usize, length: usize) -> Piece
    requires { size ≤ length }
    ensures { result ≡ request_in head size length }
{
    Piece {
        head,
        size,
        whole: (size == SIZE + head.number as usize * SIZE) | (SIZE <= length - size),
    }
}

// How many bearer records stand at the front, at most so many.
fn bearers_in(rest: &[u8], most: u32) -> usize
    ensures { result ≡ bearers_in most rest.now }
{
    let (records, _) = rest.as_chunks::<SIZE>();
    for (i, record) in records.iter().enumerate() {
        if i == most as usize || record[0] != Kind::Bearer as u8 {
            return i;
        }
    }
    records.len()
}
