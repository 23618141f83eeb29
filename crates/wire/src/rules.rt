// What may stand at each place of a message.
ghost use Rattle.std.specs.Prelude.{◌≡◌, ◌+◌, ◌≤◌, IfSome, get_or, length};
ghost use Rattle.wire.specs.Parts.{rule, exactly, any, none, id_ie, cause, code_of, kind_of, ies_of, header, ie_rules, row_of, list_end, is_complete, part_of};
ghost use Rattle.wire.specs.Numbers.{number_of, form_number};
ghost use Rattle.wire.specs.Rules.{allows, reply_by, refusal_by};

use crate::causes::reason_of;
use crate::{Part, Refusal, Reply, Shape};
use records::Kind;

// What an octet has more to it than its bounds: nothing, or it is the choice of the message, a Cause, or the second octet of an id.
#[derive(Clone, Copy)]
enum Form {
    Plain,
    Choice,
    Cause,
    IdEnd,
}

// The criticalities.
const REJECT: u8 = 0x00;

const IGNORE: u8 = 0x40;

// The rule of an octet: the least and the most that it may be, the refusal of another, and what it is.
#[derive(Clone, Copy)]
pub struct Rule {
    pub least: u8,
    pub most: u8,
    pub reply: u8,
    pub form: u8,
}

impl Rule {
    fn new(least: u8, most: u8, reply: Reply, form: Form) -> Rule
        ensures { result ≡ rule least most (number_of reply) (form_number form) }
    {
        Rule {
            least,
            most,
            reply: reply as u8,
            form: form as u8,
        }
    }

    fn exactly(octet: u8) -> Rule
        ensures { result ≡ exactly octet }
    {
        Rule::new(octet, octet, Reply::NotAllowed, Form::Plain)
    }

    fn any() -> Rule
        ensures { result ≡ any }
    {
        Rule::new(0, 255, Reply::NotAllowed, Form::Plain)
    }

    // Where no octet may stand.
    pub fn none(reply: Reply) -> Rule
        ensures { result ≡ none (number_of reply) }
    {
        Rule::new(1, 0, reply, Form::Plain)
    }

    // Whether an octet may stand where a rule does.
    pub fn allows(self, octet: u8) -> bool
        ensures { result ≡ allows self octet }
    {
        self.least <= octet
            && octet <= self.most
            && (self.form != Form::Cause as u8 || reason_of(octet).is_some())
    }

    // What is said of an octet that may not.
    fn reply_by(self, octet: u8) -> u8
        ensures { result ≡ reply_by self octet }
    {
        if self.form == Form::Choice as u8 && 32 <= octet {
            Reply::Other as u8
        } else {
            self.reply
        }
    }

    // And where: of an id at its first octet.
    pub fn refusal_by(self, octet: u8, at: usize) -> Refusal
        ensures { result ≡ refusal_by self octet at }
    {
        let reply = self.reply_by(octet);
        if self.form == Form::IdEnd as u8 {
            return Refusal {
                reply,
                at: at.saturating_sub(1),
            };
        }
        Refusal { reply, at }
    }
}

// An octet of an IE whose value is an ID.
fn of_id(id: u8, criticality: u8, at: usize) -> Rule
    ensures { result ≡ get_or (ie_rules (id_ie id criticality)) at (none 19) }
{
    match at {
        0 => Rule::new(0, 0, Reply::Misplaced, Form::Plain),
        1 => Rule::new(id, id, Reply::Misplaced, Form::IdEnd),
        2 => Rule::exactly(criticality),
        3 => Rule::exactly(2), // length of the value
        4 => Rule::new(0, 15, Reply::NotAllowed, Form::Plain),
        5 => Rule::any(),
        _ => Rule::none(Reply::Misplaced),
    }
}

// An octet of the Cause.
fn of_cause(at: usize) -> Rule
    ensures { result ≡ get_or (ie_rules cause) at (none 19) }
{
    match at {
        0 => Rule::new(0, 0, Reply::Misplaced, Form::Plain),
        1 => Rule::new(5, 5, Reply::Misplaced, Form::IdEnd),
        2 => Rule::exactly(IGNORE),
        3 => Rule::exactly(1), // length of the value
        4 => Rule::new(0, 255, Reply::NotAllowed, Form::Cause),
        _ => Rule::none(Reply::Misplaced),
    }
}

impl Shape {
    // The kind of a message's record.
    pub fn kind(self) -> u8
        ensures { result ≡ kind_of self }
    {
        match self {
            Shape::Release => Kind::ContextRelease as u8,
            Shape::Cancel | Shape::ShortCancel => Kind::HandoverCancel as u8,
        }
    }

    fn code(self) -> u8
        ensures { result ≡ code_of self }
    {
        match self {
            Shape::Release => 5,
            Shape::Cancel | Shape::ShortCancel => 1,
        }
    }

    // An octet before the first IE.
    fn header(self, at: usize) -> Rule
        ensures { result ≡ get_or (header self) at (none 19) }
    {
        match at {
            0 => Rule::new(0, 0, Reply::NotAllowed, Form::Choice), // X2AP-PDU, the choice initiatingMessage
            1 => Rule::new(self.code(), self.code(), Reply::Other, Form::Plain),
            2 => Rule::exactly(IGNORE),
            3 => Rule::new(0, 127, Reply::NotAllowed, Form::Plain), // length of the value
            4 => Rule::exactly(0), // no extension
            5 | 6 => Rule::any(), // how many IEs
            _ => Rule::none(Reply::Misplaced),
        }
    }

    // An octet after the Old ID.
    fn rest(self, at: usize) -> Rule
        ensures { result ≡ get_or (row_of self) (13 + at) (none 19) }
    {
        match self {
            Shape::Release => of_id(9, REJECT, at),
            Shape::Cancel if at < 6 => of_id(9, IGNORE, at),
            Shape::Cancel => of_cause(at - 6),
            Shape::ShortCancel => of_cause(at),
        }
    }

    // The rule at a place.
    pub fn rule_at(self, place: usize) -> Rule
        ensures { result ≡ get_or (row_of self) place (none 19) }
    {
        match place {
            0..=6 => self.header(place),
            7..=12 => of_id(10, REJECT, place - 7),
            _ => self.rest(place - 13),
        }
    }

    // Where a list of so many IEs ends; from four on it is the same.
    pub fn list_end(self, count: usize) -> usize
        ensures { result ≡ list_end self count }
    {
        let ends = match self {
            Shape::Release => [7, 13, 19, 20, 20],
            Shape::Cancel => [7, 13, 19, 24, 25],
            Shape::ShortCancel => [7, 13, 18, 19, 19],
        };
        ends[count.min(4)]
    }

    // Whether so many IEs are all.
    pub fn is_complete(self, count: usize) -> bool
        ensures { result ≡ is_complete self count }
    {
        match self {
            Shape::Cancel => count == 3,
            Shape::Release | Shape::ShortCancel => count == 2,
        }
    }

    // The part of a message that is the value of an IE, by its id.
    pub fn part_of(self, id: u16) -> Option<Part>
        ensures part { result ≡ part_of self id }
        ensures inside { IfSome result (λ p. p.at + p.size ≤ 24) }
    {
        match (self, id) {
            (_, 10) => Some(Part { at: 11, size: 2 }),
            (Shape::Release | Shape::Cancel, 9) => Some(Part { at: 17, size: 2 }),
            (Shape::Cancel, 5) => Some(Part { at: 23, size: 1 }),
            (Shape::ShortCancel, 5) => Some(Part { at: 17, size: 1 }),
            _ => None,
        }
    }
}
