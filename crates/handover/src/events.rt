// Which record an event is about, and what it does to it.
ghost use Rattle.std.specs.Prelude.{◌≡◌, cond, eqb, get_or};
ghost use Rattle.handover.specs.Numbers.{kind_number, reply_number, reason_number};
ghost use Rattle.handover.specs.Events.{new_fits, keyed, key_row, action_of, resets_by, number_of, message as message_of, silence as silence_of, lists_fit, set_fits, refusal as refusal_of, decision, prepared, stored, serving, last_word, decide as decide_of};

use crate::numbers::blank;
use crate::{Action, Decision, Entry, Reply, State};
use Action::{
    Arrived, CalledOff, Cancelled, Failed, Held, Lapsed, Left, Moved, Overtime, Prepared, Reset,
    Returned, Started, StatusSent, StatusStored, Untaken,
};
use records::{Kind, NewId, OldId, Record};

// How many kinds there are, and how many states, the one that is none counted too.
const KINDS: usize = 18;

const STATES: usize = 5;

// The New ID of a cancel that has none.
const ABSENT: NewId = NewId(65535);

// Why a cancel is sent.
#[derive(Clone, Copy)]
enum Reason {
    Decided = 1,
    TimedOut = 2,
    Returned = 3,
}

// The kinds and states that decide what the end of a record sends.
const CANCEL: u8 = Kind::Cancel as u8;

const RETURNED: u8 = Kind::Returned as u8;

const TICK: u8 = Kind::Tick as u8;

const PREPARING: u8 = State::Preparing as u8;

const PREPARED: u8 = State::Prepared as u8;

// The record that an event of a kind is about: the first and the last of the states looked at; whether neighbour, Old and New
// are compared (New: 2 if the record is prepared, 3 unless it is absent).
static KEYS: [[u8; 5]; KINDS] = [
    [0, 0, 0, 0, 0], // 0 no kind
    [3, 3, 1, 1, 0], // 1 handover request received
    [1, 2, 1, 1, 0], // 2 request acknowledge received
    [1, 2, 1, 1, 0], // 3 preparation failure received
    [3, 3, 1, 1, 1], // 4 SN status transfer received
    [1, 2, 1, 1, 2], // 5 UE context release received
    [3, 3, 1, 1, 3], // 6 handover cancel received
    [1, 3, 1, 0, 0], // 7 reset request received
    [0, 0, 0, 0, 0], // 8 reset response received
    [0, 0, 0, 0, 0], // 9 start a handover
    [1, 2, 0, 1, 0], // 10 cancel
    [3, 4, 0, 0, 1], // 11 UE arrived
    [1, 2, 0, 1, 0], // 12 UE returned
    [3, 4, 0, 0, 1], // 13 UE left
    [1, 3, 1, 0, 0], // 14 reset a neighbour
    [1, 3, 0, 0, 0], // 15 tick
    [0, 0, 0, 0, 0], // 16 bearer
    [1, 2, 0, 1, 0], // 17 send SN status
];

// What a record does, by the event's kind and its own state.
const ACTIONS: [[Action; STATES]; KINDS] = [
    [Untaken, Untaken, Untaken, Untaken, Untaken], // 0 no kind
    [Held, Untaken, Untaken, Untaken, Untaken], // 1 handover request received
    [Untaken, Prepared, Untaken, Untaken, Untaken], // 2 request acknowledge received
    [Untaken, Failed, Untaken, Untaken, Untaken], // 3 preparation failure received
    [Untaken, Untaken, Untaken, StatusStored, Untaken], // 4 SN status transfer received
    [Untaken, Untaken, Moved, Untaken, Untaken], // 5 UE context release received
    [Untaken, Untaken, Untaken, CalledOff, Untaken], // 6 handover cancel received
    [Untaken, Reset, Reset, Reset, Untaken], // 7 reset request received
    [Untaken, Untaken, Untaken, Untaken, Untaken], // 8 reset response received
    [Started, Untaken, Untaken, Untaken, Untaken], // 9 start a handover
    [Untaken, Cancelled, Cancelled, Untaken, Untaken], // 10 cancel
    [Untaken, Untaken, Untaken, Arrived, Untaken], // 11 UE arrived
    [Untaken, Untaken, Returned, Untaken, Untaken], // 12 UE returned
    [Untaken, Untaken, Untaken, Untaken, Left], // 13 UE left
    [Untaken, Reset, Reset, Reset, Untaken], // 14 reset a neighbour
    [Untaken, Cancelled, Overtime, Lapsed, Untaken], // 15 tick
    [Untaken, Untaken, Untaken, Untaken, Untaken], // 16 bearer
    [Untaken, Untaken, StatusSent, Untaken, Untaken], // 17 send SN status
];

// A kind's row of the first table; one of zeros for a number that is no kind.
pub fn key_of(kind: u8) -> [u8; 5]
    ensures { result ≡ key_row kind }
{
    KEYS.get(kind as usize).copied().unwrap_or([0; 5])
}

// What a record in a state does with an event of a kind: nothing with one that is no kind.
pub fn action_of(kind: u8, state: u8) -> Action
    ensures { result ≡ action_of kind state }
{
    let actions = &ACTIONS; // by value, the table would be built anew on the stack
    let row = kind as usize;
    let column = state as usize;
    if row < KINDS && column < STATES {
        actions[row][column]
    } else {
        Untaken
    }
}

// Whether the New ID is the record's, where it is compared.
fn new_fits(compared: u8, e: Record, r: Entry) -> bool
    ensures { result ≡ new_fits compared e r }
{
    compared == 0
        || r.new == e.new
        || compared == 2 && r.state == PREPARING
        || compared == 3 && e.new == ABSENT
}

// Whether a record is the one that an event is about, by its kind's row of the table. Most records fall out by their IDs.
pub fn is_about(e: Record, r: Entry, key: [u8; 5]) -> bool
    ensures { result ≡ keyed (λ k. get_or key k 0) e r }
{
    let [first, last, neighbour, old, new] = key;
    (old == 0 || r.old == e.old)
        && new_fits(new, e, r)
        && first <= r.state
        && r.state <= last
        && (neighbour == 0 || r.neighbour == e.neighbour)
}

// Whether a reset ends a record, by both tables.
pub fn is_reset(e: Record, r: Entry, key: [u8; 5]) -> bool
    ensures { result ≡ resets_by (λ k. get_or key k 0) e r }
{
    is_about(e, r, key) && action_of(e.kind, r.state) == Reset
}

// A message: its kind, the neighbour it goes to, and the fields that kinds use.
pub fn message(
    kind: u8,
    neighbour: u8,
    old: OldId,
    new: NewId,
    first: u16,
    second: u16,
    reason: u8,
) -> Record
    ensures { result ≡ message_of kind neighbour old.0 new.0 first second reason }
{
    Record {
        kind,
        neighbour,
        old,
        new,
        first,
        second,
        reason,
        ..Record::zeros()
    }
}

// No message.
pub fn silence() -> Record
    ensures { result ≡ silence_of }
{
    Record::zeros()
}

// A message about a record, with both its IDs.
fn word(kind: Kind, r: Entry) -> Record
    ensures { result ≡ message_of (kind_number kind) r.neighbour r.old.0 r.new.0 0 0 0 }
{
    message(kind as u8, r.neighbour, r.old, r.new, 0, 0, 0)
}

// A HANDOVER CANCEL of a record.
fn cancel(r: Entry, new: NewId, reason: Reason) -> Record
    ensures { result ≡ message_of 6 r.neighbour r.old.0 new.0 0 0 (reason_number reason) }
{
    Record {
        new,
        reason: reason as u8,
        ..word(Kind::HandoverCancel, r)
    }
}

// The lists of an acknowledge fit the request: disjoint, together the requested set, and something is admitted.
fn lists_fit(r: Entry, e: Record) -> bool
    ensures { result ≡ lists_fit r e }
{
    sets::disjoint(e.first, e.second)
        && sets::union(e.first, e.second) == r.requested
        && e.first != 0
}

// A set of statuses fits: not empty, and within the admitted.
fn set_fits(r: Entry, e: Record) -> bool
    ensures { result ≡ set_fits r e }
{
    e.first != 0 && sets::within(e.first, r.admitted)
}

// A decision that changes nothing.
fn refusal(reply: Reply, r: Entry) -> Decision
    ensures { result ≡ refusal_of (reply_number reply) r }
{
    Decision {
        reply: reply as u8,
        ending: 0,
        message: silence(),
        entry: r,
    }
}

// A decision that is done, and ends nothing.
fn done(message: Record, entry: Entry) -> Decision
    ensures { result ≡ decision 0 0 message entry }
{
    Decision {
        reply: Reply::Done as u8,
        ending: 0,
        message,
        entry,
    }
}

// A decision that is done, and comes to an ending.
fn ended(ending: Action, message: Record, entry: Entry) -> Decision
    ensures { result ≡ decision 0 (number_of ending) message entry }
{
    Decision {
        ending: ending as u8,
        ..done(message, entry)
    }
}

// What the end of a record sends.
fn last_word(e: Record, r: Entry) -> Record
    ensures { result ≡ last_word e r }
{
    match (e.kind, r.state) {
        (CANCEL, PREPARED) => cancel(r, r.new, Reason::Decided),
        (CANCEL, _) => cancel(r, ABSENT, Reason::Decided),
        (TICK, PREPARING) => cancel(r, ABSENT, Reason::TimedOut),
        (TICK, PREPARED) => word(Kind::ReleaseUe, r),
        (RETURNED, _) => cancel(r, r.new, Reason::Returned),
        _ => silence(),
    }
}

// What an event does to the record that it is about; the deadline is what an acknowledge would set.
pub fn decide(e: Record, r: Entry, deadline: u64) -> Decision
    ensures { result ≡ decide_of e r deadline }
{
    let action = action_of(e.kind, r.state);
    match action {
        Untaken => refusal(Reply::Untaken, r),
        Prepared => acknowledged(e, r, deadline),
        StatusStored => status_stored(e, r),
        StatusSent => status_sent(e, r),
        Arrived => arrived(r),
        _ => ended(action, last_word(e, r), blank()),
    }
}

// A preparing record that is acknowledged.
fn acknowledged(e: Record, r: Entry, deadline: u64) -> Decision
    ensures { result ≡ cond (lists_fit r e) (decision 0 0 silence_of (prepared r e deadline)) (refusal_of 7 r) }
{
    if !lists_fit(r, e) {
        return refusal(Reply::Unfit, r);
    }
    let next = Entry {
        state: PREPARED,
        new: e.new,
        admitted: e.first,
        deadline,
        ..r
    };
    done(silence(), next)
}

// A held record that gets a status.
fn status_stored(e: Record, r: Entry) -> Decision
    ensures { result ≡ cond (set_fits r e) (decision 0 0 silence_of (stored r e)) (refusal_of 7 r) }
{
    if !set_fits(r, e) {
        return refusal(Reply::Unfit, r);
    }
    let next = Entry {
        status: e.first,
        ..r
    };
    done(silence(), next)
}

// A prepared record that sends a status.
fn status_sent(e: Record, r: Entry) -> Decision
    ensures { result ≡ cond (set_fits r e) (decision 0 0 (message_of 4 r.neighbour r.old.0 r.new.0 e.first 0 0) r) (refusal_of 7 r) }
{
    if !set_fits(r, e) {
        return refusal(Reply::Unfit, r);
    }
    let status = Record {
        first: e.first,
        ..word(Kind::StatusTransfer, r)
    };
    done(status, r)
}

// A held record whose UE arrives.
fn arrived(r: Entry) -> Decision
    ensures { result ≡ decision 0 8 (message_of 5 r.neighbour r.old.0 r.new.0 0 0 0) (serving r) }
{
    let next = Entry {
        state: State::Serving as u8,
        deadline: 0,
        ..r
    };
    ended(Arrived, word(Kind::ContextRelease, r), next)
}

// What a reset sends: a response to a request, a request for a local decision.
pub fn reset_word(kind: u8) -> u8
    ensures { result ≡ cond (eqb kind 7) 8 7 }
{
    if kind == Kind::ResetRequest as u8 {
        Kind::ResetResponse as u8
    } else {
        Kind::ResetRequest as u8
    }
}
