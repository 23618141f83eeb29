// The table of kinds: which fields a kind uses, within what limits, and of which sort of event it is.
ghost use Rattle.std.specs.Prelude.{◌≡◌};
ghost use Rattle.fields.specs.Fields.{most, fits, offends, row_of, limits_in};

use crate::Sort;
use Limit::{
    AnyByte, AnyNumber, Bit, Id, IdOrAbsent, Neighbour, Set, Small, SomeSet, Time, Units, Unused,
};

// How many fields a record has, its kind apart.
pub const FIELDS: usize = 14;

// The limits of fields.
#[derive(Clone, Copy, PartialEq, Eq)]
pub enum Limit {
    Unused, // a field that the kind does not use
    Neighbour,
    Id,
    IdOrAbsent, // an ID, or 65,535: absent
    Set,
    SomeSet, // a set that is not empty
    AnyByte,
    AnyNumber,
    Time,
    Units,
    Small, // an E-RAB ID or a priority
    Bit,
}

// By field the limit of its values, and the sort of event that the kind is.
#[derive(Clone, Copy)]
pub struct Row {
    pub neighbour: Limit,
    pub old: Limit,
    pub new: Limit,
    pub first: Limit,
    pub second: Limit,
    pub reason: Limit,
    pub byte11: Limit,
    pub number: Limit,
    pub time: Limit,
    pub erab: Limit,
    pub qci: Limit,
    pub priority: Limit,
    pub flags: Limit,
    pub bytes28: Limit,
    pub sort: Sort,
}

impl Limit {
    // The greatest value.
    fn most(self) -> u64
        ensures { result ≡ most self }
    {
        match self {
            Unused => 0,
            Neighbour => 31,
            Id | IdOrAbsent => 4095,
            Set | SomeSet => 65535,
            AnyByte => 255,
            AnyNumber => 4_294_967_295,
            Time => 1_000_000_000_000,
            Units => 1_000_000,
            Small => 15,
            Bit => 1,
        }
    }

    // Whether a value fits: it is at most the greatest; but 65,535 is an absent ID, and some sets may not be empty.
    pub fn fits(self, value: u64) -> bool
        ensures { result ≡ fits self value }
    {
        match self {
            IdOrAbsent => value == 65535 || value <= self.most(),
            SomeSet => value != 0 && value <= self.most(),
            _ => value <= self.most(),
        }
    }

    // Whether a field that the kind uses is out of range, or one that it does not use is not zero.
    pub fn offends(self, used: bool, value: u64) -> bool
        ensures { result ≡ offends used self value }
    {
        (self != Unused) == used && !self.fits(value)
    }
}

impl Row {
    // The limits of the fields, lowest first.
    pub fn limits(self) -> [Limit; FIELDS]
        ensures { result ≡ limits_in self }
    {
        [
            self.neighbour,
            self.old,
            self.new,
            self.first,
            self.second,
            self.reason,
            self.byte11,
            self.number,
            self.time,
            self.erab,
            self.qci,
            self.priority,
            self.flags,
            self.bytes28,
        ]
    }
}

// No kind: it uses no field.
const NO_KIND: Row = Row {
    neighbour: Unused,
    old: Unused,
    new: Unused,
    first: Unused,
    second: Unused,
    reason: Unused,
    byte11: Unused,
    number: Unused,
    time: Unused,
    erab: Unused,
    qci: Unused,
    priority: Unused,
    flags: Unused,
    bytes28: Unused,
    sort: Sort::NoEvent,
};

pub const BEARER: Row = Row {
    number: Units,
    erab: Small,
    qci: AnyByte,
    priority: Small,
    flags: Bit,
    ..NO_KIND
};

// By number.
static KINDS: [Row; 18] = [
    NO_KIND,
    // 1 handover request received
    Row {
        neighbour: Neighbour,
        old: Id,
        number: AnyNumber,
        sort: Sort::Request,
        ..NO_KIND
    },
    // 2 request acknowledge received
    Row {
        neighbour: Neighbour,
        old: Id,
        new: Id,
        first: Set,
        second: Set,
        sort: Sort::OneRecord,
        ..NO_KIND
    },
    // 3 preparation failure received
    Row {
        neighbour: Neighbour,
        old: Id,
        reason: AnyByte,
        sort: Sort::OneRecord,
        ..NO_KIND
    },
    // 4 SN status transfer received
    Row {
        neighbour: Neighbour,
        old: Id,
        new: Id,
        first: Set,
        sort: Sort::OneRecord,
        ..NO_KIND
    },
    // 5 UE context release received
    Row {
        neighbour: Neighbour,
        old: Id,
        new: Id, // never absent
        sort: Sort::OneRecord,
        ..NO_KIND
    },
    // 6 handover cancel received
    Row {
        neighbour: Neighbour,
        old: Id,
        new: IdOrAbsent,
        reason: AnyByte,
        sort: Sort::OneRecord,
        ..NO_KIND
    },
    // 7 reset request received
    Row {
        neighbour: Neighbour,
        sort: Sort::AllOfNeighbour,
        ..NO_KIND
    },
    // 8 reset response received
    Row {
        neighbour: Neighbour,
        sort: Sort::NoChange,
        ..NO_KIND
    },
    // 9 start a handover
    Row {
        neighbour: Neighbour,
        first: SomeSet,
        sort: Sort::NewRecord,
        ..NO_KIND
    },
    // 10 cancel
    Row {
        old: Id,
        sort: Sort::OneRecord,
        ..NO_KIND
    },
    // 11 UE arrived
    Row {
        new: Id,
        sort: Sort::OneRecord,
        ..NO_KIND
    },
    // 12 UE returned
    Row {
        old: Id,
        sort: Sort::OneRecord,
        ..NO_KIND
    },
    // 13 UE left
    Row {
        new: Id,
        sort: Sort::OneRecord,
        ..NO_KIND
    },
    // 14 reset a neighbour
    Row {
        neighbour: Neighbour,
        sort: Sort::AllOfNeighbour,
        ..NO_KIND
    },
    // 15 tick
    Row {
        time: Time,
        sort: Sort::SoonestDue,
        ..NO_KIND
    },
    BEARER, // 16 bearer
    // 17 send SN status
    Row {
        old: Id,
        first: Set,
        sort: Sort::OneRecord,
        ..NO_KIND
    },
];

// The row of a kind; a number that is no kind has that of none.
pub fn row_of(kind: u8) -> &'static Row
    ensures { result.now ≡ row_of kind }
{
    KINDS.get(kind as usize).unwrap_or(&NO_KIND)
}
