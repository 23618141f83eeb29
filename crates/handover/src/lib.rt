// One handover: its record in a station's table, which event is about it, and what an event does to it.
#![tactic(auto)]

pub mod events;
pub mod numbers;

use records::{NewId, OldId, Record};

// The states of a record; a free place of the table has none of the others. The state of an entry is any byte.
#[derive(Clone, Copy)]
pub enum State {
    Free = 0,
    Preparing = 1,
    Prepared = 2,
    Held = 3,
    Serving = 4,
}

// A record of the table.
#[derive(Clone, Copy)]
pub struct Entry {
    pub state: u8,
    pub neighbour: u8,
    pub old: OldId,
    pub new: NewId,
    pub requested: u16,
    pub admitted: u16,
    pub status: u16,
    pub units: u32,
    pub deadline: u64,
}

// What a record does at an event: it does not take it, or comes to the ending of that number, or to something that is no ending.
// A free place is where a record is started or held.
#[derive(Clone, Copy, PartialEq, Eq)]
pub enum Action {
    Untaken = 0,
    Failed = 1,
    Cancelled = 2,
    Moved = 3,
    Overtime = 4,
    Returned = 5,
    Lapsed = 6,
    CalledOff = 7,
    Arrived = 8,
    Left = 9,
    Reset = 10,
    Prepared = 11,
    StatusStored = 12,
    StatusSent = 13,
    Started = 14,
    Held = 15,
}

// The replies to a well-formed event, and that to settings out of range.
#[derive(Clone, Copy)]
pub enum Reply {
    Done = 0,
    NoRecord = 2,
    Repeated = 3,
    Full = 4,
    NoneAdmitted = 5,
    Untaken = 6,
    Unfit = 7,
    Early = 8,
    NoneDue = 9,
    BadSetting = 16,
}

// What an event does to the record it is about.
#[derive(Clone, Copy)]
pub struct Decision {
    pub reply: u8,
    pub ending: u8,
    pub message: Record,
    pub entry: Entry,
}
