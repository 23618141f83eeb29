// What a station answers to an event: a reply, an ending, a message to send; and what is wrong where the event is malformed.
#![tactic(auto)]

ghost use Rattle.std.specs.Prelude.{◌≡◌};
ghost use Rattle.answers.specs.Answers.{refusal as refusal_of, quiet as quiet_of, said as said_of, missing as missing_of, flaw_in};

use bearers::Flaw;
use fields::fault_of;
use handover::events::silence;
use records::Record;

// What a step answers: the message is all zeros if none is to be sent. With a reply for what is malformed come the first byte of the field that
// is wrong and the place of the bearer, 0 for the event itself.
#[derive(Clone, Copy)]
pub struct Outcome {
    pub reply: u8,
    pub ending: u8,
    pub offset: u8,
    pub place: u16,
    pub count: u32,
    pub message: Record,
}

// A reply that changes nothing and sends nothing, and what it is for.
pub fn refusal(flaw: Flaw) -> Outcome
    ensures { result ≡ refusal_of flaw }
{
    Outcome {
        reply: flaw.reply,
        ending: 0,
        offset: flaw.offset,
        place: flaw.place,
        count: 0,
        message: silence(),
    }
}

// A reply that changes nothing and sends nothing.
pub fn quiet(reply: u8) -> Outcome
    ensures { result ≡ quiet_of reply }
{
    refusal(Flaw {
        reply,
        offset: 0,
        place: 0,
    })
}

// An answer that says so, and sends or ends something.
pub fn said(reply: u8, ending: u8, count: u32, message: Record) -> Outcome
    ensures { result ≡ said_of reply ending count message }
{
    Outcome {
        reply,
        ending,
        offset: 0,
        place: 0,
        count,
        message,
    }
}

// What is wrong with a malformed event by itself: its kind or a field, else a request's count or its bearers.
pub fn flaw_in(e: Record) -> Flaw
    ensures { result ≡ flaw_in e }
{
    match fault_of(e) {
        Some(fault) => Flaw::at(fault, 0),
        None => missing(),
    }
}

// The count of a request is none, or its bearers are not all there.
pub fn missing() -> Flaw
    ensures { result ≡ missing_of }
{
    Flaw::missing()
}
