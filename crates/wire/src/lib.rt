// UE CONTEXT RELEASE and HANDOVER CANCEL in aligned PER, two messages of X2AP: what may stand at each place of them, and the Causes.
#![tactic(auto)]

ghost use Rattle.std.specs.Prelude.{◌≡◌};
ghost use Rattle.wire.specs.Numbers.{number_of};

pub mod causes;
pub mod rules;

// Why a message is not read, or a record not written.
#[derive(Clone, Copy)]
pub enum Reply {
    // the neighbour given is out of range
    Far = 11,
    // the buffer is too short
    NoRoom = 15,
    // a byte is promised and not there
    Truncated = 17,
    // it is neither of the two messages
    Other = 18,
    // an IE is missing, repeated, unknown or out of order
    Misplaced = 19,
    // a value, a criticality or a form that is not allowed
    NotAllowed = 20,
    // the message is over and a byte stands there
    LeftOver = 21,
}

// The messages; a cancel may have no New ID.
#[derive(Clone, Copy)]
pub enum Shape {
    Release,
    Cancel,
    ShortCancel,
}

// A refusal, and the byte that decided it.
#[derive(Clone, Copy)]
pub struct Refusal {
    pub reply: u8,
    pub at: usize,
}

impl Refusal {
    pub fn new(reply: Reply, at: usize) -> Refusal
        ensures { result ≡ record { reply = number_of reply; at = at } }
    {
        Refusal {
            reply: reply as u8,
            at,
        }
    }
}

// The part of a message that is an IE's value.
#[derive(Clone, Copy)]
pub struct Part {
    pub at: usize,
    pub size: usize,
}
