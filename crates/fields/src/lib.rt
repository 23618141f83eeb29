// What sort of event a kind is, which fields it uses and within what limits, and what is wrong with a record.
#![tactic(auto)]

mod kinds;

ghost use Rattle.std.specs.Prelude.{◌≡◌};
ghost use Rattle.fields.specs.Fields.{lowest, offends, limits_in, all_fit, values_of, fault_in, fault_of, fault_of_bearer, is_bearer, is_counted, sort_of_event};

use kinds::{BEARER, FIELDS, Row, row_of};
use records::{Kind, Record};

// The sorts of events.
#[derive(Clone, Copy, PartialEq, Eq)]
pub enum Sort {
    NoEvent, // none by itself
    OneRecord, // about one record of the table
    AllOfNeighbour, // about all outgoing and held records of a neighbour
    SoonestDue, // about the soonest record that is due
    NewRecord, // one that makes a record
    Request,
    NoChange, // one that is taken and changes nothing
}

// What is wrong with a record: the reply, and the first byte of the lowest field that offends.
#[derive(Clone, Copy)]
pub struct Fault {
    pub reply: u8,
    pub offset: u8,
}

const WRONG_KIND: u8 = 10;

const OUT_OF_RANGE: u8 = 11;

const NOT_ZERO: u8 = 12;

// The first byte of each field, lowest first.
static OFFSETS: [u8; FIELDS] = [1, 2, 4, 6, 8, 10, 11, 12, 16, 24, 25, 26, 27, 28];

// The fields, lowest first.
fn values_of(e: Record) -> [u64; FIELDS]
    ensures { result ≡ values_of e }
{
    [
        u64::from(e.neighbour),
        u64::from(e.old.0),
        u64::from(e.new.0),
        u64::from(e.first),
        u64::from(e.second),
        u64::from(e.reason),
        u64::from(e.byte11),
        u64::from(e.number),
        e.time,
        u64::from(e.erab),
        u64::from(e.qci),
        u64::from(e.priority),
        u64::from(e.flags),
        u64::from(e.bytes28),
    ]
}

// Whether all fields fit the limits of a row. It is compiled into its callers, so that against a row that is known, a bearer's, there are
// plain tests.
#[inline(always)]
fn all_fit(row: &Row, e: Record) -> bool
    ensures { result ≡ all_fit (limits_in row.now) (values_of e) }
{
    row.neighbour.fits(u64::from(e.neighbour))
        & row.old.fits(u64::from(e.old.0))
        & row.new.fits(u64::from(e.new.0))
        & row.first.fits(u64::from(e.first))
        & row.second.fits(u64::from(e.second))
        & row.reason.fits(u64::from(e.reason))
        & row.byte11.fits(u64::from(e.byte11))
        & row.number.fits(u64::from(e.number))
        & row.time.fits(e.time)
        & row.erab.fits(u64::from(e.erab))
        & row.qci.fits(u64::from(e.qci))
        & row.priority.fits(u64::from(e.priority))
        & row.flags.fits(u64::from(e.flags))
        & row.bytes28.fits(u64::from(e.bytes28))
}

// The lowest field that offends, of those that the row's kind uses or of those that it does not.
fn lowest(row: &Row, e: Record, used: bool) -> Option<usize>
    ensures { result ≡ lowest (offends used) (limits_in row.now) (values_of e) }
{
    let limits = row.limits();
    let values = values_of(e);
    limits
        .iter()
        .zip(values.iter())
        .position(|(limit, value)| limit.offends(used, *value))
}

// What is wrong with the fields of a record: the lowest that is out of range, else the lowest that is not used and not zero.
fn fault_in(row: &Row, e: Record) -> Option<Fault>
    ensures { result ≡ fault_in (limits_in row.now) (values_of e) }
{
    if let Some(field) = lowest(row, e, true) {
        return Some(Fault {
            reply: OUT_OF_RANGE,
            offset: OFFSETS[field],
        });
    }
    let field = lowest(row, e, false)?;
    Some(Fault {
        reply: NOT_ZERO,
        offset: OFFSETS[field],
    })
}

// What is wrong with an event, a request's count and its bearers apart.
pub fn fault_of(e: Record) -> Option<Fault>
    ensures { result ≡ fault_of e }
{
    let row = row_of(e.kind);
    if row.sort == Sort::NoEvent {
        return Some(Fault {
            reply: WRONG_KIND,
            offset: 0,
        });
    }
    fault_in(row, e)
}

// What is wrong with the fields of a bearer's record.
pub fn bearer_fault(r: Record) -> Option<Fault>
    ensures { result ≡ fault_of_bearer r }
{
    fault_in(&BEARER, r)
}

// Whether a record is a bearer's, with nothing wrong in it.
pub fn is_bearer(r: Record) -> bool
    ensures { result ≡ is_bearer r }
{
    r.kind == Kind::Bearer as u8 && all_fit(&BEARER, r)
}

// Whether a request's count is 1 to 256.
fn is_counted(e: Record) -> bool
    ensures { result ≡ is_counted e }
{
    e.kind != Kind::Request as u8 || e.takes_bearers()
}

// What sort of event a record is: none if it is malformed, a request's bearers apart.
pub fn sort_of(e: Record) -> Sort
    ensures { result ≡ sort_of_event e }
{
    let row = row_of(e.kind);
    if all_fit(row, e) && is_counted(e) {
        row.sort
    } else {
        Sort::NoEvent
    }
}
