// The station program: event records from standard input, one line per event to standard output.
#![tactic(auto)]

ghost use Rattle.std.specs.Prelude.{length};
ghost use Rattle.station.specs.Stages.{Sound};

use buffers::carry;
use lines::Run;
use std::io::Read;

// A run between two reads: how many bytes the input buffer holds, and whether the input has ended.
#[derive(Clone, Copy)]
struct Stage {
    run: Run,
    held: usize,
    ended: bool,
}

// Answers what the input buffer holds, writes the lines, carries the rest to the front, and says whether there is more to do.
fn answer(rt: &HostRuntime, s: &mut Stage, input: &mut [u8], output: &mut [u8]) -> bool
    requires { Sound (length input.old) s.old }
    ensures { Sound (length input.old) s.new }
{
    let p = s.run.answer(&input[..s.held], s.ended, output);
    let is_written = rt.write_all(&output[..p.written]).is_ok();
    if !is_written {
        let _ = rt.eprint("station: cannot write\n");
    }
    s.run = p.run;
    s.held = carry(input, p.taken, s.held);
    is_written && (!s.ended || 0 < s.held)
}

// Reads once, answers what is there, and says whether there is more to do.
fn turn(rt: &HostRuntime, s: &mut Stage, input: &mut [u8], output: &mut [u8]) -> bool
    requires { Sound (length input.old) s.old }
    ensures { Sound (length input.old) s.new }
{
    if !s.ended {
        let Ok(count) = rt.stdin().read(&mut input[s.held..]) else {
            let _ = rt.eprint("station: cannot read\n");
            return false;
        };
        s.ended = count == 0 && s.held < input.len();
        s.held += count;
    }
    answer(rt, s, input, output)
}

fn main(rt: HostRuntime) {
    let mut input = [0u8; 65536];
    let mut output = [0u8; 65536];
    let mut s = Stage {
        run: Run::new(),
        held: 0,
        ended: false,
    };
    // A proved loop has to end, and nothing says that the input does: no run takes so many turns.
    for _ in 0..u64::MAX {
        if !turn(&rt, &mut s, &mut input, &mut output) {
            break;
        }
    }
}
