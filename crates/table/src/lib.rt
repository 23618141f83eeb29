// The handover table of one station: it takes decoded messages, local decisions and clock ticks, and gives the next table, a
// reply and at most one message to send.
#![tactic(auto)]

ghost use Rattle.std.specs.Prelude.{◌≡◌, ◌-◌, ◌/◌, ◌≤◌, ◌<◌, cond, [], length, Some};
ghost use Rattle.bearers.specs.Admission.{judgeable, all_five};
ghost use Rattle.bearers.specs.Flaws.{flaw_of};
ghost use Rattle.handover.specs.Numbers.{is_free, reply_number};
ghost use Rattle.table.specs.Table.{find as find_of, Puts, reset as reset_to};
ghost use Rattle.table.specs.Sound.{Sound};
ghost use Rattle.table.specs.Reached.{Reached};
ghost use Rattle.table.specs.Step.{unless, carried as carried_of, about_one, tick_of, start_at, reset_of, failure as failure_of, granted, grant_at, admitted_at, verdicts_at, request_of, request_verdicts, step_of, verdicts_of, is_timer, settled, fresh as fresh_of, birth_of};
ghost use Rattle.handover.specs.Events.{about};

use answers::{Outcome, flaw_in, missing, quiet, refusal, said};
use bearers::{Admission, admit, flaw_of, refuse_all};
use fields::{Sort, sort_of};
use handover::events::{action_of, decide, is_reset, key_of, reset_word};
use handover::numbers::{blank, held, preparing};
use handover::{Action, Decision, Entry, Reply, State};
use places::{find, issue, soonest, vacant};
use records::{Kind, NewId, OldId, Record, SIZE};

// The capacity in units, and TRELOCprep, TX2RELOCoverall and the guard in ms.
#[derive(Clone, Copy)]
pub struct Settings {
    pub capacity: u32,
    pub prep: u32,
    pub overall: u32,
    pub guard: u32,
}

#[derive(Clone, Copy)]
pub struct Station {
    entries: [Entry; 64],
    clock: u64,
    used: u32,
    settings: Settings,
    last: u16,
}

#[derive(Clone, Copy)]
pub struct Answer {
    pub outcome: Outcome,
    pub station: Station,
}

// A station at its birth: reply 16 if a setting was out of range.
#[derive(Clone, Copy)]
pub struct Birth {
    pub reply: u8,
    pub station: Station,
}

// A timer is 1 to 600,000 ms.
fn is_timer(time: u32) -> bool
    ensures { result ≡ is_timer time }
{
    matches!(time, 1..=600_000)
}

// Whether every setting is in range.
fn is_settled(s: Settings) -> bool
    ensures { result ≡ settled s }
{
    s.capacity <= 1_000_000_000 && is_timer(s.prep) && is_timer(s.overall) && is_timer(s.guard)
}

// A fresh station.
fn fresh(settings: Settings) -> Station
    ensures { result ≡ fresh_of settings }
{
    Station {
        entries: [blank(); 64],
        clock: 0,
        last: 4095,
        used: 0,
        settings,
    }
}

impl Station {
    // A fresh station with these settings: capacity 0 to 1,000,000,000 units, timers 1 to 600,000 ms. If one is out of range
    // the reply is 16, and the station has capacity 0 and timers of 1 ms.
    pub fn new(settings: Settings) -> Birth
        ensures { (result ≡ birth_of settings) × Reached result.station }
    {
        if is_settled(settings) {
            return Birth {
                reply: Reply::Done as u8,
                station: fresh(settings),
            };
        }
        let least = Settings {
            capacity: 0,
            prep: 1,
            overall: 1,
            guard: 1,
        };
        Birth {
            reply: Reply::BadSetting as u8,
            station: fresh(least),
        }
    }

    // What is said, of the station as it is.
    fn answer(self, outcome: Outcome) -> Answer
        ensures { result ≡ record { outcome = outcome; station = self } }
    {
        Answer {
            outcome,
            station: self,
        }
    }

    // A decision about the record at a place is carried out.
    fn carried(mut self, i: usize, d: Decision) -> Answer
        requires { Puts i d.entry self }
        ensures { result ≡ carried_of i d self }
    {
        let before = self.entries[i];
        self.used = self.used - before.units + d.entry.units;
        self.entries[i] = d.entry;
        self.answer(said(d.reply, d.ending, 0, d.message))
    }

    // An event about one record.
    fn about_one(self, e: Record) -> Answer
        requires { Sound self }
        ensures { result ≡ about_one e (find_of (about e) self) self }
    {
        let Some(i) = find(&self.entries, e) else {
            return self.answer(quiet(Reply::NoRecord as u8));
        };
        let deadline = self.clock + self.settings.overall as u64;
        self.carried(i, decide(e, self.entries[i], deadline))
    }

    // A tick: the clock, and the due record with the least deadline, then the least own ID.
    #[tactic(auto, using(crate::proofs::Placing::due_place))]
    fn tick(mut self, e: Record) -> Answer
        requires { Sound self }
        ensures { result ≡ tick_of e self }
    {
        if e.time < self.clock {
            return self.answer(quiet(Reply::Early as u8));
        }
        self.clock = e.time;
        let Some(i) = soonest(&self.entries, e) else {
            return self.answer(quiet(Reply::NoneDue as u8));
        };
        self.carried(i, decide(e, self.entries[i], 0))
    }

    // A start, which wants a free place.
    fn start(self, e: Record) -> Answer
        requires { Sound self }
        ensures { result ≡ start_at e (find_of is_free self) self }
    {
        match vacant(&self.entries) {
            Some(i) => self.begin(e, i),
            None => self.answer(quiet(Reply::Full as u8)),
        }
    }

    // A preparing record in a free place, if the table says so.
    fn begin(mut self, e: Record, i: usize) -> Answer
        requires { (i < 64) × Sound self }
        ensures { result ≡ start_at e (Some i) self }
    {
        if action_of(e.kind, State::Free as u8) != Action::Started {
            return self.answer(quiet(Reply::Untaken as u8));
        }
        let old = issue(&self.entries, self.last);
        self.last = old;
        let deadline = self.clock + self.settings.prep as u64;
        self.entries[i] = preparing(e.neighbour, OldId(old), e.first, deadline);
        let request = Record {
            kind: Kind::Request as u8,
            neighbour: e.neighbour,
            old: OldId(old),
            first: e.first,
            ..Record::zeros()
        };
        self.answer(said(Reply::Done as u8, 0, 0, request))
    }

    // All outgoing and held records of a neighbour end.
    fn reset(mut self, e: Record) -> Station
        requires { Sound self }
        ensures { result ≡ reset_to e self }
    {
        let key = key_of(e.kind);
        let mut used = self.used;
        for r in &mut self.entries {
            if is_reset(e, *r, key) {
                used -= r.units;
                *r = blank();
            }
        }
        self.used = used;
        self
    }

    // A reset, from a neighbour or of one.
    fn reset_by(self, e: Record) -> Answer
        requires { Sound self }
        ensures { result ≡ reset_of e self }
    {
        let word = Record {
            kind: reset_word(e.kind),
            neighbour: e.neighbour,
            ..Record::zeros()
        };
        let outcome = said(Reply::Done as u8, Action::Reset as u8, 0, word);
        self.reset(e).answer(outcome)
    }

    // A request that is refused: the failure says why.
    fn failure(self, reply: Reply, e: Record) -> Answer
        ensures { result ≡ failure_of (reply_number reply) e self }
    {
        let failure = Record {
            kind: Kind::Failure as u8,
            neighbour: e.neighbour,
            old: e.old,
            reason: reply as u8,
            ..Record::zeros()
        };
        self.answer(said(reply as u8, 0, 0, failure))
    }

    // What was admitted is held in a free place, if it is anything.
    fn grant(self, e: Record, a: Admission, i: usize) -> Answer
        requires { (i < 64) × (a.units ≤ self.settings.capacity - self.used) × Sound self }
        ensures { result ≡ grant_at e a i self }
    {
        if a.admitted == 0 {
            return self.failure(Reply::NoneAdmitted, e);
        }
        if action_of(e.kind, State::Free as u8) != Action::Held {
            return self.answer(quiet(Reply::Untaken as u8));
        }
        self.hold(e, a, i)
    }

    // A held record in a free place.
    fn hold(mut self, e: Record, a: Admission, i: usize) -> Answer
        requires { (i < 64) × (a.units ≤ self.settings.capacity - self.used) × Sound self }
        ensures { result ≡ granted e a i self }
    {
        let new = issue(&self.entries, self.last);
        self.last = new;
        self.used += a.units;
        let deadline = self.clock + self.settings.guard as u64;
        self.entries[i] = held(
            e.neighbour,
            e.old,
            NewId(new),
            a.admitted,
            a.units,
            deadline,
        );
        let acknowledge = Record {
            kind: Kind::Acknowledge as u8,
            neighbour: e.neighbour,
            old: e.old,
            new: NewId(new),
            first: a.admitted,
            second: a.refused,
            ..Record::zeros()
        };
        self.answer(said(Reply::Done as u8, 0, a.count, acknowledge))
    }

    // A request that finds the table full.
    #[tactic(auto, using(bearers::proofs::Flaws::judgeable_exactly))]
    fn full(self, e: Record, bearers: &[u8], verdicts: &mut [u8]) -> Answer
        ensures { (result ≡ unless (flaw_of bearers.now (length verdicts.old)) (failure_of 4 e self) self) × (verdicts.new ≡ cond (judgeable bearers.now (length verdicts.old)) (all_five (length bearers.now / 32) verdicts.old) verdicts.old) }
    {
        if let Some(flaw) = flaw_of(bearers, verdicts.len()) {
            return self.answer(refusal(flaw));
        }
        refuse_all(bearers.len() / SIZE, verdicts);
        self.failure(Reply::Full, e)
    }

    // A request that no held record repeats.
    fn admitted(self, e: Record, bearers: &[u8], verdicts: &mut [u8]) -> Answer
        requires { Sound self }
        ensures { (result ≡ unless (flaw_of bearers.now (length verdicts.old)) (admitted_at e bearers.now (find_of is_free self) self) self) × (verdicts.new ≡ cond (judgeable bearers.now (length verdicts.old)) (verdicts_at bearers.now (find_of is_free self) self verdicts.old) verdicts.old) }
    {
        let Some(i) = vacant(&self.entries) else {
            return self.full(e, bearers, verdicts);
        };
        match admit(bearers, self.settings.capacity - self.used, verdicts) {
            Ok(a) => self.grant(e, a, i),
            Err(flaw) => self.answer(refusal(flaw)),
        }
    }

    // A well-formed request, with the bytes that follow it.
    fn requested(self, e: Record, bearers: &[u8], verdicts: &mut [u8]) -> Answer
        requires { (e.number ≤ 256) × Sound self }
        ensures { (result ≡ request_of e bearers.now (length verdicts.old) self) × (verdicts.new ≡ request_verdicts e bearers.now self verdicts.old) }
    {
        let Some(bearers) = bearers.get(..e.number as usize * SIZE) else {
            return self.answer(refusal(missing()));
        };
        if find(&self.entries, e).is_none() {
            return self.admitted(e, bearers, verdicts);
        }
        match flaw_of(bearers, verdicts.len()) {
            Some(flaw) => self.answer(refusal(flaw)),
            None => self.answer(quiet(Reply::Repeated as u8)),
        }
    }

    // One event: the next station, the reply, the ending and the message to send. A request handed in here lacks its bearers.
    #[tactic(auto, using(crate::proofs::Soundness::sound, crate::proofs::Reaching::still_reached, crate::proofs::Requests::bare_request))]
    pub fn step(mut self, e: Record) -> Answer
        requires { Reached self }
        ensures { (result ≡ step_of self e [] 0) × Reached result.station }
    {
        match sort_of(e) {
            Sort::OneRecord => self.about_one(e),
            Sort::SoonestDue => self.tick(e),
            Sort::NewRecord => self.start(e),
            Sort::AllOfNeighbour => self.reset_by(e),
            Sort::NoChange => self.answer(quiet(Reply::Done as u8)),
            Sort::Request | Sort::NoEvent => self.answer(refusal(flaw_in(e))),
        }
    }

    // One event with the bytes that follow it: a request takes its bearers from there, and their verdicts are written to the
    // lent buffer, one byte each, the rest untouched.
    pub fn request(mut self, e: Record, bearers: &[u8], verdicts: &mut [u8]) -> Answer
        requires { Reached self }
        ensures { (result ≡ step_of self e bearers.now (length verdicts.old)) × (verdicts.new ≡ verdicts_of self e bearers.now verdicts.old) × Reached result.station }
    {
        if sort_of(e) == Sort::Request {
            return self.requested(e, bearers, verdicts);
        }
        self.step(e)
    }
}
