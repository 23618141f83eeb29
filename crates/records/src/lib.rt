// The 32-byte record in which events and messages come: its fields, read and written at a place of lent bytes, and
// how a stream of records is cut into events.
#![tactic(auto)]

pub mod stream;

ghost use Rattle.std.specs.Prelude.{◌≡◌, ◌+◌, ◌≤◌, take, drop};
ghost use Rattle.records.specs.Record.{record_of, bytes_of, zeros, read_at, room_at, written_at};
ghost use Rattle.records.specs.Stream.{takes_bearers};

// How many bytes a record has.
pub const SIZE: usize = 32;

// A handover's number at its source.
#[derive(Clone, Copy, PartialEq, Eq, Default)]
pub struct OldId(pub u16);

// A handover's number at its target.
#[derive(Clone, Copy, PartialEq, Eq, Default)]
pub struct NewId(pub u16);

// The kinds of events and of messages, by their numbers. The kind of a record is any byte, one of these or none.
#[derive(Clone, Copy)]
pub enum Kind {
    Request = 1,
    Acknowledge = 2,
    Failure = 3,
    StatusTransfer = 4,
    ContextRelease = 5,
    HandoverCancel = 6,
    ResetRequest = 7,
    ResetResponse = 8,
    Start = 9,
    Cancel = 10,
    Arrived = 11,
    Returned = 12,
    Left = 13,
    Reset = 14,
    Tick = 15,
    Bearer = 16,
    SendStatus = 17,
    ReleaseUe = 20,
}

// All fields of a record, those that its kind does not use among them.
#[derive(Clone, Copy, Default)]
pub struct Record {
    pub kind: u8,
    pub neighbour: u8,
    pub old: OldId,
    pub new: NewId,
    pub first: u16,
    pub second: u16,
    pub reason: u8,
    pub byte11: u8,
    pub number: u32,
    pub time: u64,
    pub erab: u8,
    pub qci: u8,
    pub priority: u8,
    pub flags: u8,
    pub bytes28: u32,
}

impl Record {
    // A record of zeros.
    pub fn zeros() -> Record
        ensures { result ≡ zeros }
    {
        Record::default()
    }

    // Whether it takes bearer records after it: a request whose count is 1 to 256.
    pub fn takes_bearers(self) -> bool
        ensures { result ≡ takes_bearers self }
    {
        self.kind == Kind::Request as u8 && 1 <= self.number && self.number <= 256
    }

    // The record at a place, if there are as many bytes as one has.
    pub fn read(bytes: &[u8], at: usize) -> Option<Record>
        ensures { result ≡ read_at bytes.now at }
    {
        let found = bytes.get(at..)?.first_chunk()?;
        Some(Record::of(found))
    }

    // The record that so many bytes are.
    pub fn of(bytes: &[u8; SIZE]) -> Record
        ensures { result ≡ record_of bytes.now }
    {
        Record {
            kind: bytes[0],
            neighbour: bytes[1],
            old: OldId(u16::from_le_bytes(part(bytes, 2))),
            new: NewId(u16::from_le_bytes(part(bytes, 4))),
            first: u16::from_le_bytes(part(bytes, 6)),
            second: u16::from_le_bytes(part(bytes, 8)),
            reason: bytes[10],
            byte11: bytes[11],
            number: u32::from_le_bytes(part(bytes, 12)),
            time: u64::from_le_bytes(part(bytes, 16)),
            erab: bytes[24],
            qci: bytes[25],
            priority: bytes[26],
            flags: bytes[27],
            bytes28: u32::from_le_bytes(part(bytes, 28)),
        }
    }

    // The record written at a place, where there is room for it: whether there was. Other bytes stay.
    pub fn write(self, buffer: &mut [u8], at: usize) -> bool
        ensures { (result ≡ room_at buffer.old at) × (buffer.new ≡ written_at self buffer.old at) }
    {
        if buffer.len() < at || buffer.len() - at < SIZE {
            return false;
        }
        buffer[at..at + SIZE].copy_from_slice(&self.bytes());
        true
    }

    // Its bytes.
    fn bytes(self) -> [u8; SIZE]
        ensures { result ≡ bytes_of self }
    {
        let [o0, o1] = self.old.0.to_le_bytes();
        let [n0, n1] = self.new.0.to_le_bytes();
        let [f0, f1] = self.first.to_le_bytes();
        let [s0, s1] = self.second.to_le_bytes();
        let [c0, c1, c2, c3] = self.number.to_le_bytes();
        let [t0, t1, t2, t3, t4, t5, t6, t7] = self.time.to_le_bytes();
        let [z0, z1, z2, z3] = self.bytes28.to_le_bytes();
        [
            self.kind,
            self.neighbour,
            o0,
            o1,
            n0,
            n1,
            f0,
            f1,
            s0,
            s1,
            self.reason,
            self.byte11,
            c0,
            c1,
            c2,
            c3,
            t0,
            t1,
            t2,
            t3,
            t4,
            t5,
            t6,
            t7,
            self.erab,
            self.qci,
            self.priority,
            self.flags,
            z0,
            z1,
            z2,
            z3,
        ]
    }
}

// So many bytes from a place on.
fn part<const N: usize>(bytes: &[u8; SIZE], at: usize) -> [u8; N]
    requires { at + N ≤ 32 }
    ensures { result ≡ take N (drop at bytes.now) }
{
    *bytes[at..].first_chunk().unwrap()
}
