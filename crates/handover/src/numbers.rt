// Free places and own IDs.
ghost use Rattle.std.specs.Prelude.{◌≡◌};
ghost use Rattle.handover.specs.Numbers.{is_outgoing, blank as blank_of, preparing as preparing_of, held as held_of, own as own_of, own_is};

use crate::{Entry, State};
use records::{NewId, OldId};

// A free place.
pub fn blank() -> Entry
    ensures { result ≡ blank_of }
{
    Entry {
        state: State::Free as u8,
        neighbour: 0,
        old: OldId(0),
        new: NewId(0),
        requested: 0,
        admitted: 0,
        status: 0,
        units: 0,
        deadline: 0,
    }
}

// What a start makes: a preparing record.
pub fn preparing(neighbour: u8, id: OldId, set: u16, deadline: u64) -> Entry
    ensures { result ≡ preparing_of neighbour id.0 set deadline }
{
    Entry {
        state: State::Preparing as u8,
        neighbour,
        old: id,
        requested: set,
        deadline,
        ..blank()
    }
}

// What an admitted request makes: a held record.
pub fn held(neighbour: u8, old: OldId, id: NewId, admitted: u16, units: u32, deadline: u64) -> Entry
    ensures { result ≡ held_of neighbour old.0 id.0 admitted units deadline }
{
    Entry {
        state: State::Held as u8,
        neighbour,
        old,
        new: id,
        admitted,
        units,
        deadline,
        ..blank()
    }
}

// Whether a record is preparing or prepared.
fn is_outgoing(r: Entry) -> bool
    ensures { result ≡ is_outgoing r }
{
    (State::Preparing as u8 <= r.state) & (r.state <= State::Prepared as u8)
}

// A record's own ID.
pub fn own(r: Entry) -> u16
    ensures { result ≡ own_of r }
{
    if is_outgoing(r) { r.old.0 } else { r.new.0 }
}

// Whether a number is a record's own ID. Most records have neither ID.
pub fn own_is(id: u16, r: Entry) -> bool
    ensures { result ≡ own_is id r }
{
    (r.old.0 == id || r.new.0 == id) && r.state != State::Free as u8 && own(r) == id
}
