// The cases: a script of event records from standard input, one line per case to standard output.
//
// Besides events a script has records of three kinds of its own. `#` begins a case: its other bytes are the name. `*` is a birth: the
// number is the capacity, the low half of the time TRELOCprep and the high half TX2RELOCoverall, bytes 28 to 31 the guard, and the
// first set says how many places of the verdict buffer are lent to this station. `=` has the records after it, up to the next
// case, played as often as its number says. A case without a birth goes on with the station of the case before.
//
// A line has the name; the reply of a birth; each reply with how often it came in a row, for what is malformed with the offset and the
// place of the bearer, as `11@26.1*2`; and what the last event gave: ending, count, the message's kind, neighbour, Old, New, sets and
// reason, and as many places of the verdict buffer as the event has records, 9 where a place is as found.
#![tactic(auto)]

ghost use Rattle.std.specs.Prelude.{◌≡◌, ◌≤◌, length};
ghost use Rattle.table.specs.Reached.{Reached};
ghost use Rattle.cases.specs.Scripts.{Sound};

use answers::Outcome;
use bearers::Flaw;
use buffers::read_full;
use lines::answered;
use records::stream::cut;
use records::{Record, SIZE};
use table::{Settings, Station};

// A case under way.
#[derive(Clone, Copy)]
struct Case {
    station: Station,
    room: u16,
    // where the next record stands, and the first of those that are played again
    at: usize,
    first: usize,
    // how many times these are played yet, this time too
    plays: u32,
    // the last reply and what it was for, and how often it came in a row
    last: Flaw,
    row: u64,
}

// Writes a number after a text.
fn field(rt: &HostRuntime, before: &[u8], n: u64) {
    let _ = rt.write_all(before);
    let _ = rt.print(n);
}

// Writes which field was wrong, and of which bearer.
fn write_field(rt: &HostRuntime, last: Flaw) {
    if 10 <= last.reply {
        field(rt, b"@", last.offset as u64);
    }
    if 0 < last.place {
        field(rt, b".", last.place as u64);
    }
}

// Writes a reply and how often it came in a row, if it did.
fn write_row(rt: &HostRuntime, last: Flaw, row: u64) {
    if 0 < row {
        field(rt, b" ", last.reply as u64);
        write_field(rt, last);
        field(rt, b"*", row);
    }
}

// How often the next reply came in a row; the row of another before it is written.
fn counted(rt: &HostRuntime, last: Flaw, row: u64, next: Flaw) -> u64 {
    if next == last {
        return row.wrapping_add(1);
    }
    write_row(rt, last, row);
    1
}

fn write_verdicts(rt: &HostRuntime, verdicts: &[u8]) {
    for verdict in verdicts {
        field(rt, b" ", *verdict as u64);
    }
}

// Writes what an event gave beside the reply, and ends the line.
fn write_outcome(rt: &HostRuntime, o: Outcome, verdicts: &[u8]) {
    let m = o.message;
    field(rt, b"; ending ", o.ending as u64);
    field(rt, b"; count ", o.count as u64);
    field(rt, b"; sent ", m.kind as u64);
    field(rt, b" ", m.neighbour as u64);
    field(rt, b" ", m.old.0 as u64);
    field(rt, b" ", m.new.0 as u64);
    field(rt, b" ", m.first as u64);
    field(rt, b" ", m.second as u64);
    field(rt, b" ", m.reason as u64);
    let _ = rt.print("; verdicts");
    write_verdicts(rt, verdicts);
    let _ = rt.print("\n");
}

// A case begins: its name.
fn begun(rt: &HostRuntime, c: &mut Case, r: Record)
    requires { Reached c.old.station }
    ensures { Reached c.new.station }
{
    let mut name = [0u8; SIZE];
    r.write(&mut name, 0);
    let _ = rt.write_all(&name[1..]);
    c.plays = 1;
    c.row = 0;
}

// A fresh station.
fn born(rt: &HostRuntime, c: &mut Case, r: Record)
    ensures { Reached c.new.station }
{
    let birth = Station::new(Settings {
        capacity: r.number,
        prep: (r.time % 4_294_967_296) as u32,
        overall: (r.time / 4_294_967_296) as u32,
        guard: r.bytes28,
    });
    field(rt, b" born ", birth.reply as u64);
    c.station = birth.station;
    c.room = r.first;
}

// Whether the script or a case of it ends at a place.
fn ends_at(script: &[u8], at: usize) -> bool {
    script.get(at).is_none_or(|byte| *byte == b'#')
}

// The case goes on after an event, or once more from its first record, or its line is ended.
fn onward(rt: &HostRuntime, c: &mut Case, script: &[u8], o: Outcome, verdicts: &[u8])
    requires { Sound (length script.now) c.old }
    ensures { Sound (length script.now) c.new }
{
    if !ends_at(script, c.at) {
        return;
    }
    if 1 < c.plays {
        c.plays -= 1;
        c.at = c.first;
        return;
    }
    write_row(rt, c.last, c.row);
    write_outcome(rt, o, verdicts);
}

// An event is answered.
fn answer(rt: &HostRuntime, c: &mut Case, script: &[u8], verdicts: &mut [u8])
    requires { Sound (length script.now) c.old }
    ensures { Sound (length script.now) c.new }
{
    let room = (c.room as usize).min(verdicts.len());
    let piece = cut(&script[c.at..]);
    let end = c.at + piece.size;
    let a = answered(c.station, &script[c.at..end], &mut verdicts[..room]);
    let o = a.outcome;
    let next = Flaw {
        reply: o.reply,
        offset: o.offset,
        place: o.place,
    };
    c.row = counted(rt, c.last, c.row, next);
    c.last = next;
    c.station = a.station;
    c.at = end;
    let shown = (piece.size / SIZE).min(verdicts.len());
    onward(rt, c, script, o, &verdicts[..shown]);
}

// A verdict buffer in which no verdict stands. A request has at most 256 bearers, so that one place stays as found.
fn untouched() -> [u8; 257]
    ensures { 257 ≡ length result }
{
    [9; 257]
}

// An event, with a verdict buffer of its own.
fn event(rt: &HostRuntime, c: &mut Case, script: &[u8])
    requires { Sound (length script.now) c.old }
    ensures { Sound (length script.now) c.new }
{
    let mut verdicts = untouched();
    answer(rt, c, script, &mut verdicts);
}

// One record of the script's own, or an event.
fn turn(rt: &HostRuntime, c: &mut Case, script: &[u8])
    requires { Sound (length script.now) c.old }
    ensures { Sound (length script.now) c.new }
{
    let Some(r) = Record::read(script, c.at) else {
        return event(rt, c, script);
    };
    let next = c.at + SIZE;
    match r.kind {
        b'#' => begun(rt, c, r),
        b'*' => born(rt, c, r),
        b'=' => c.plays = r.number,
        _ => return event(rt, c, script),
    }
    c.at = next;
    c.first = next;
}

fn play(rt: &HostRuntime, script: &[u8]) {
    let least = Settings {
        capacity: 0,
        prep: 1,
        overall: 1,
        guard: 1,
    };
    let mut c = Case {
        station: Station::new(least).station,
        room: 0,
        at: 0,
        first: 0,
        plays: 1,
        last: Flaw {
            reply: 0,
            offset: 0,
            place: 0,
        },
        row: 0,
    };
    // A proved loop has to end: no script takes so many turns.
    for _ in 0..u64::MAX {
        if script.len() <= c.at {
            break;
        }
        turn(rt, &mut c, script);
    }
}

fn main(rt: HostRuntime) {
    let mut input = [0u8; 65536];
    let held = read_full(&mut rt.stdin(), &mut input);
    play(&rt, &input[..held]);
}
