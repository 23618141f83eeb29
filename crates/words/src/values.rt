// The fields of a record by number, as their words are numbered.
ghost use Rattle.std.specs.Prelude.{◌≡◌};
ghost use Rattle.words.specs.Values.{is_set, values_of, record_from};

use records::{NewId, OldId, Record};

// Whether a field is one of the two sets.
pub fn is_set(field: usize) -> bool
    ensures { result ≡ is_set field }
{
    matches!(field, 4 | 5)
}

// The fields of a record, in order.
pub fn values_of(r: Record) -> [u64; 15]
    ensures { result ≡ values_of r }
{
    [
        u64::from(r.kind),
        u64::from(r.neighbour),
        u64::from(r.old.0),
        u64::from(r.new.0),
        u64::from(r.first),
        u64::from(r.second),
        u64::from(r.reason),
        u64::from(r.byte11),
        u64::from(r.number),
        r.time,
        u64::from(r.erab),
        u64::from(r.qci),
        u64::from(r.priority),
        u64::from(r.flags),
        u64::from(r.bytes28),
    ]
}

// The record of so many fields.
pub fn record_from(values: [u64; 15]) -> Record
    ensures { result ≡ record_from values }
{
    let [
        kind,
        neighbour,
        old,
        new,
        first,
        second,
        reason,
        byte11,
        number,
        time,
        erab,
        qci,
        priority,
        flags,
        bytes28,
    ] = values;
    Record {
        kind: (kind % 256) as u8,
        neighbour: (neighbour % 256) as u8,
        old: OldId((old % 65536) as u16),
        new: NewId((new % 65536) as u16),
        first: (first % 65536) as u16,
        second: (second % 65536) as u16,
        reason: (reason % 256) as u8,
        byte11: (byte11 % 256) as u8,
        number: (number % 4294967296) as u32,
        time,
        erab: (erab % 256) as u8,
        qci: (qci % 256) as u8,
        priority: (priority % 256) as u8,
        flags: (flags % 256) as u8,
        bytes28: (bytes28 % 4294967296) as u32,
    }
}
