// How a crate calls the table. Nothing is checked beforehand and nothing is proved: each answer promises what the next call asks.
#![tactic(auto)]

use answers::Outcome;
use records::Record;
use table::{Settings, Station};

// Two events and a request, one after the other on a fresh station: what it answers to the request. The bearers are the bytes that
// follow the request's record, and each gets a verdict in the lent buffer.
pub fn last_outcome(
    first: Record,
    second: Record,
    request: Record,
    bearers: &[u8],
    verdicts: &mut [u8],
) -> Outcome {
    let settings = Settings {
        capacity: 100,
        prep: 50,
        overall: 2000,
        guard: 3000,
    };
    let born = Station::new(settings).station;
    let first = born.step(first).station;
    let second = first.step(second).station;
    second.request(request, bearers, verdicts).outcome
}
