// UE CONTEXT RELEASE and HANDOVER CANCEL in aligned PER: a record written as its message.
#![tactic(auto)]

ghost use Rattle.std.specs.Prelude.{◌≡◌, length};
ghost use Rattle.wire.specs.Parts.{shape_for};
ghost use Rattle.writing.specs.Writing.{judged, cause_in, put_answer, put_left, written_of, left_in};

use fields::fault_of;
use records::{Kind, Record};
use wire::causes::cause_of;
use wire::{Refusal, Reply, Shape};

// Whether a record is of one of the two kinds, and well formed.
#[tactic(auto, unfolding(crate::specs::Writing::judged))]
fn judged(r: Record) -> Result<(), Refusal>
    ensures { result ≡ judged r }
{
    if r.kind != Kind::ContextRelease as u8 && r.kind != Kind::HandoverCancel as u8 {
        return Err(Refusal::new(Reply::Other, 0));
    }
    if let Some(fault) = fault_of(r) {
        return Err(Refusal {
            reply: fault.reply,
            at: fault.offset as usize,
        });
    }
    Ok(())
}

// The message of a record of one of the two kinds.
fn shape_for(r: Record) -> Shape
    ensures { result ≡ shape_for r }
{
    if r.kind == Kind::ContextRelease as u8 {
        return Shape::Release;
    }
    if r.new.0 == 65535 {
        return Shape::ShortCancel;
    }
    Shape::Cancel
}

// The Cause of a cancel.
fn cause_in(r: Record) -> Result<u8, Refusal>
    ensures { result ≡ cause_in r }
{
    cause_of(r.reason).ok_or(Refusal::new(Reply::NotAllowed, 0))
}

// Puts octets at the front of a buffer, if it has room for them, and says how many.
#[tactic(auto, unfolding(crate::specs::Writing::put_answer, crate::specs::Writing::put_left))]
fn put(octets: &[u8], buffer: &mut [u8]) -> Result<usize, Refusal>
    ensures answer { result ≡ put_answer octets.now (length buffer.old) }
    ensures left { buffer.new ≡ put_left octets.now buffer.old }
{
    let size = octets.len();
    if buffer.len() < size {
        return Err(Refusal::new(Reply::NoRoom, 0));
    }
    buffer[..size].copy_from_slice(octets);
    Ok(size)
}

// Writes a record's message at the front of a buffer and says how many octets it has, or why not, and leaves the buffer as it is.
pub fn write(message: Record, buffer: &mut [u8]) -> Result<usize, Refusal>
    ensures answer { result ≡ written_of message (length buffer.old) }
    ensures left { buffer.new ≡ left_in message buffer.old }
{
    judged(message)?;
    let [old, old_low] = message.old.0.to_be_bytes();
    let [new, new_low] = message.new.0.to_be_bytes();
    match shape_for(message) {
        Shape::Release => put(
            &[
                0, 5, 0x40, 15, 0, 0, 2, // a release
                0, 10, 0, 2, old, old_low, // the Old ID
                0, 9, 0, 2, new, new_low, // the New ID
            ],
            buffer,
        ),
        Shape::Cancel => {
            let cause = cause_in(message)?;
            put(
                &[
                    0, 1, 0x40, 20, 0, 0, 3, // a cancel
                    0, 10, 0, 2, old, old_low, // its Old ID
                    0, 9, 0x40, 2, new, new_low, // its New ID
                    0, 5, 0x40, 1, cause,
                ],
                buffer,
            )
        }
        Shape::ShortCancel => {
            let cause = cause_in(message)?;
            put(
                &[
                    0, 1, 0x40, 14, 0, 0, 2, // one without a New ID
                    0, 10, 0, 2, old, old_low, // and its Old ID
                    0, 5, 0x40, 1, cause,
                ],
                buffer,
            )
        }
    }
}
