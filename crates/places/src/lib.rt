// Where a record stands in the table, which place is free, and which own ID comes next.
#![tactic(auto)]

ghost use Rattle.std.specs.Prelude.{◌≡◌, ◌<◌, ◌&&◌, get_or, position, None};
ghost use Rattle.std.specs.List.{list_any};
ghost use Rattle.handover.specs.Events.{about, due_by};
ghost use Rattle.handover.specs.Numbers.{is_free, own_is, next_after, issue_from};
ghost use Rattle.places.specs.Places.{beats, due_from};

use handover::events::{is_about, key_of};
use handover::numbers::{own, own_is};
use handover::{Entry, State};
use records::Record;

// The last own ID, after which 0 comes again.
const LAST: u16 = 4095;

// The first record that an event is about.
pub fn find(entries: &[Entry; 64], e: Record) -> Option<usize>
    ensures { result ≡ position (about e) entries.now }
{
    let key = key_of(e.kind);
    entries.iter().position(|r| is_about(e, *r, key))
}

// The first free place.
pub fn vacant(entries: &[Entry; 64]) -> Option<usize>
    ensures { result ≡ position is_free entries.now }
{
    entries.iter().position(|r| r.state == State::Free as u8)
}

// Whether a number is the own ID of a record.
fn uses(entries: &[Entry; 64], id: u16) -> bool
    ensures { result ≡ list_any (own_is id) entries.now }
{
    entries.iter().any(|r| own_is(id, *r))
}

// The number after an own ID.
fn next_after(id: u16) -> u16
    ensures { id < 4096 → result ≡ next_after id }
{
    if id < LAST { id + 1 } else { 0 }
}

// The own ID to be issued after the last one.
pub fn issue(entries: &[Entry; 64], last: u16) -> u16
    ensures { last < 4096 → (result ≡ issue_from 64 (next_after last) entries.now) × (result < 4096) }
{
    let mut id = next_after(last);
    for _tried in 0u8..64 {
        if !uses(entries, id) {
            return id;
        }
        id = next_after(id);
    }
    id
}

// A record that is due, and its place.
#[derive(Clone, Copy)]
pub struct Best {
    pub place: usize,
    pub entry: Entry,
}

// The place of the record that is due with the least deadline, then the least own ID.
pub fn soonest(entries: &[Entry; 64], e: Record) -> Option<usize>
    ensures { result ≡ due_from e None 0 entries.now }
{
    let key = key_of(e.kind);
    let mut best: Option<Best> = None;
    for (i, r) in entries.iter().enumerate() {
        if is_sooner(e, key, *r, best) {
            best = Some(Best {
                place: i,
                entry: *r,
            });
        }
    }
    best.map(|b| b.place)
}

// Whether a record is due. Most are not, by their deadline: that is looked at first.
fn is_due(e: Record, key: [u8; 5], r: Entry) -> bool
    ensures { result ≡ due_by (λ k. get_or key k 0) e r }
{
    r.deadline <= e.time && is_about(e, r, key)
}

// Whether a record is due, and sooner than the soonest so far, if there is one.
pub fn is_sooner(e: Record, key: [u8; 5], r: Entry, best: Option<Best>) -> bool
    ensures { result ≡ (due_by (λ k. get_or key k 0) e r && beats r best) }
{
    is_due(e, key, r)
        && best.is_none_or(|b| (r.deadline, own(r)) < (b.entry.deadline, own(b.entry)))
}
