// Events in, lines out: how the bytes of a stream become the lines of the station program.
#![tactic(auto)]

ghost use Rattle.std.specs.Prelude.{◌≡◌, ◌+◌, ◌*◌, ◌≤◌, length};
ghost use Rattle.std.proofs.lemmas.List.Edits.{sets};
ghost use Rattle.buffers.specs.Buffers.{Writes};
ghost use Rattle.buffers.specs.Digits.{cell_room, cell as cell_of, spaced};
ghost use Rattle.table.specs.Reached.{Reached};
ghost use Rattle.lines.specs.Lines.{longest, line_of, is_whole, answer_to, verdicts_to, new_run, work_of, progress};

use answers::{Outcome, quiet};
use bearers::MOST;
use buffers::digits::{size, spell};
use records::stream::{Piece, cut};
use records::{Kind, Record, SIZE};
use table::{Answer, Settings, Station};

// The longest line: eleven numbers of at most 20 digits, and a byte after each.
pub const LONGEST: usize = 231;

// The reply to fewer bytes than a record has.
const SHORT_PIECE: u8 = 14;

// The settings of the station program.
const SETTINGS: Settings = Settings {
    capacity: 100,
    prep: 50,
    overall: 2000,
    guard: 3000,
};

// A station at work on a stream, and the place of the next event, from 1.
#[derive(Clone, Copy)]
pub struct Run {
    pub station: Station,
    pub place: u64,
}

// How far a run came in a block: the bytes taken of it, and the bytes of lines written.
#[derive(Clone, Copy)]
pub struct Progress {
    pub run: Run,
    pub taken: usize,
    pub written: usize,
}

// Writes a number and the byte after it from a place on, and answers the next place. Most numbers of a line have one digit, which
// takes no division.
fn cell(n: u64, after: u8, out: &mut [u8], at: usize) -> usize
    requires { at + cell_room ≤ length out.old }
    ensures { Writes out.old out.new at (cell_of n after) result }
{
    if n < 10 {
        out[at] = b'0' + n as u8;
        out[at + 1] = after;
        return at + 2;
    }
    let k = size(n);
    let end = at + k;
    spell(n, k, out, at);
    out[end] = after;
    end + 1
}

// Writes numbers with a space after each from a place on, and answers the next place.
fn cells(numbers: &[u64], out: &mut [u8], at: usize) -> usize
    requires { at + length numbers.now * cell_room ≤ length out.old }
    ensures { Writes out.old out.new at (spaced numbers.now) result }
{
    let mut place = at;
    for n in numbers {
        place = cell(*n, b' ', out, place);
    }
    place
}

// Writes a line from a place on, and answers the next place.
fn line(place: u64, o: Outcome, out: &mut [u8], at: usize) -> usize
    requires { at + longest ≤ length out.old }
    ensures { Writes out.old out.new at (line_of place o) result }
{
    let m = o.message;
    let numbers = [
        place,
        o.reply as u64,
        m.kind as u64,
        m.neighbour as u64,
        m.old.0 as u64,
        m.new.0 as u64,
        m.first as u64,
        m.second as u64,
        o.ending as u64,
        o.offset as u64,
    ];
    let next = cells(&numbers, out, at);
    cell(o.place as u64, b'\n', out, next)
}

// Whether what stands at the front of some bytes is an event: whatever comes after them, or because nothing does.
fn is_whole(piece: Piece, ended: bool) -> bool
    ensures { result ≡ is_whole ended piece }
{
    piece.whole || ended && 0 < piece.size
}

// A station's answer to the bytes of one event, a record and the bearer records that it takes, or fewer bytes than a record has: a
// short piece, which leaves the station as it is. A request's verdicts go to the buffer.
pub fn answered(station: Station, event: &[u8], verdicts: &mut [u8]) -> Answer
    requires { Reached station }
    ensures { (result ≡ answer_to (length verdicts.old) station event.now) × (verdicts.new ≡ verdicts_to station event.now verdicts.old) × Reached result.station }
{
    match Record::read(event, 0) {
        None => Answer {
            outcome: quiet(SHORT_PIECE),
            station,
        },
        Some(r) if r.kind == Kind::Request as u8 => station.request(r, &event[SIZE..], verdicts),
        // `request` would answer the same, with one copy of the station more
        Some(r) => station.step(r),
    }
}

impl Run {
    // A run with the settings of the station program.
    pub fn new() -> Run
        ensures { (result ≡ new_run) × Reached result.station }
    {
        let station = Station::new(SETTINGS).station;
        Run { station, place: 1 }
    }

    // Answers the events at the front of a block of the stream, one after the other, and writes a line for each, while they are
    // whole and the longest line has room. What comes after the block can change none of them; `ended` says that nothing does.
    pub fn answer(self, bytes: &[u8], ended: bool, out: &mut [u8]) -> Progress
        requires { Reached self.station }
        ensures { (result ≡ progress (work_of ended (length out.old) bytes.now self)) × (out.new ≡ sets out.old 0 (work_of ended (length out.old) bytes.now self).text) × Reached result.run.station }
    {
        let station = self.station;
        let mut place = self.place;
        let mut taken: usize = 0;
        let mut written: usize = 0;
        let mut verdicts = [0u8; MOST];
        let mut piece = cut(bytes);
        // The last answer, with the station that it leaves: a variable for the station alone would be one copy of it more.
        let mut last = Answer {
            outcome: quiet(0),
            station,
        };
        while is_whole(piece, ended) & (LONGEST <= out.len() - written) {
            let end = taken + piece.size;
            let before = last.station;
            last = answered(before, &bytes[taken..end], &mut verdicts);
            written = line(place, last.outcome, out, written);
            place = place.wrapping_add(1);
            taken = end;
            piece = cut(&bytes[taken..]);
        }
        let station = last.station;
        Progress {
            run: Run { station, place },
            taken,
            written,
        }
    }
}
