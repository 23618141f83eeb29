// UE CONTEXT RELEASE and HANDOVER CANCEL read off the wire: the record, or why it is refused and at which byte.
#![tactic(auto)]

mod whole;

ghost use Rattle.std.specs.Prelude.{◌≡◌, ◌+◌, ◌≤◌, ◌<◌, IfSome, option_map, get_or};
ghost use Rattle.reading.specs.Reading.{shape_of, layout_of, rule_in, end_in, judged_of, number_at, number_in, reason_in, record_of, read_of, value_of};

use records::{NewId, OldId, Record};
use wire::causes::reason_of;
use wire::rules::Rule;
use wire::{Part, Refusal, Reply, Shape};

// The octet at a place; 0 beyond the end.
fn octet_at(message: &[u8], at: usize) -> u8
    ensures { result ≡ get_or message.now at 0 }
{
    message.get(at).copied().unwrap_or(0)
}

// The number of two octets from a place, the higher first.
fn number_at(message: &[u8], at: usize) -> u16
    requires { at < 256 }
    ensures { result ≡ number_at message.now at }
{
    u16::from_be_bytes([octet_at(message, at), octet_at(message, at + 1)])
}

// Which message it is: by its procedure code, and for a cancel by the id of its second IE.
fn shape_of(message: &[u8]) -> Shape
    ensures { result ≡ shape_of message.now }
{
    match (octet_at(message, 1), octet_at(message, 14)) {
        (5, _) => Shape::Release,
        (_, 9) => Shape::Cancel,
        _ => Shape::ShortCancel,
    }
}

// What a message says of itself: which it is, where its list of IEs ends by its count, where its value ends by its length, and whether its count
// is that of all its IEs.
#[derive(Clone, Copy)]
pub struct Layout {
    pub shape: Shape,
    pub list: usize,
    pub value: usize,
    pub complete: bool,
}

impl Layout {
    fn of(message: &[u8]) -> Layout
        ensures { result ≡ layout_of message.now }
    {
        let shape = shape_of(message);
        let count = number_at(message, 5) as usize;
        Layout {
            shape,
            list: shape.list_end(count),
            value: 4 + octet_at(message, 3) as usize,
            complete: shape.is_complete(count),
        }
    }

    // What may stand at a place.
    fn rule_at(self, place: usize) -> Rule
        ensures { result ≡ rule_in self place }
    {
        if place < self.list {
            if place == self.value {
                return Rule::none(Reply::Truncated);
            }
            return self.shape.rule_at(place);
        }
        Rule::none(if self.complete {
            Reply::LeftOver
        } else {
            Reply::Misplaced
        })
    }

    // What is said of a message that ends well so far.
    fn ended(self, size: usize) -> Result<(), Refusal>
        ensures { result ≡ end_in self size }
    {
        if size < self.list || size < self.value {
            return Err(Refusal::new(Reply::Truncated, size));
        }
        if !self.complete {
            return Err(Refusal::new(Reply::Misplaced, size));
        }
        Ok(())
    }
}

// Whether a message is in order, or its refusal, at the first octet that may not stand there or at its end.
fn judged(message: &[u8]) -> Result<(), Refusal>
    ensures { result ≡ judged_of message.now }
{
    if whole::is_whole(message) {
        return Ok(());
    }
    let layout = Layout::of(message);
    for (place, octet) in message.iter().enumerate() {
        let rule = layout.rule_at(place);
        if !rule.allows(*octet) {
            return Err(rule.refusal_by(*octet, place));
        }
    }
    layout.ended(message.len())
}

// An ID, by the part of the message that has it; 65,535 if it is absent.
fn number_in(message: &[u8], part: Option<Part>) -> u16
    requires { IfSome part (λ p. p.at + p.size ≤ 24) }
    ensures { result ≡ number_in message.now part }
{
    match part {
        Some(part) => number_at(message, part.at),
        None => 65535,
    }
}

// The reason of a message: its Cause's, and none for a release.
fn reason_in(message: &[u8], part: Option<Part>) -> u8
    ensures { result ≡ reason_in message.now part }
{
    match part {
        Some(part) => reason_of(octet_at(message, part.at)).unwrap_or(0),
        None => 0,
    }
}

// The record of a message that is in order.
fn record_of(message: &[u8], neighbour: u8) -> Record
    ensures { result ≡ record_of message.now neighbour }
{
    let shape = shape_of(message);
    Record {
        kind: shape.kind(),
        neighbour,
        old: OldId(number_in(message, shape.part_of(10))),
        new: NewId(number_in(message, shape.part_of(9))),
        reason: reason_in(message, shape.part_of(5)),
        ..Record::zeros()
    }
}

// The record of a message that a neighbour sent, or why there is none.
pub fn read(message: &[u8], neighbour: u8) -> Result<Record, Refusal>
    ensures { result ≡ read_of message.now neighbour }
{
    if 31 < neighbour {
        return Err(Refusal::new(Reply::Far, 1));
    }
    judged(message)?;
    Ok(record_of(message, neighbour))
}

// The part of a message that holds the value of an IE, by its id, if the message is in order and has it.
pub fn ie(message: &[u8], id: u16) -> Option<&[u8]>
    ensures { option_map (λ v. v.now) result ≡ value_of message.now id }
{
    judged(message).ok()?;
    let part = shape_of(message).part_of(id)?;
    Some(&message[part.at..part.at + part.size])
}
