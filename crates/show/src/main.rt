// The show program: event records from standard input, one line of words per event to standard output.
#![tactic(auto)]

use buffers::carry;
use showing::{ROOM, Sheet};
use std::io;
use std::io::Read;

// A run between two reads: how many bytes the input buffer holds.
#[derive(Clone, Copy)]
struct Stage {
    sheet: Sheet,
    held: usize,
}

// Shows the whole records among some bytes.
fn show_all(rt: &HostRuntime, s: Sheet, bytes: &[u8], output: &mut [u8]) -> io::Result<Sheet> {
    let mut sheet = s;
    for record in bytes.chunks_exact(32) {
        let shown = sheet.show(record, output);
        rt.write_all(&output[..shown.written])?;
        sheet = shown.sheet;
    }
    Ok(sheet)
}

// Reads once, shows the whole records that are there, and carries the rest to the front. At the end of the input the rest is
// shown too, and no stage follows.
fn turn(
    rt: &HostRuntime,
    s: Stage,
    input: &mut [u8],
    output: &mut [u8],
) -> io::Result<Option<Stage>> {
    if input.len() <= s.held {
        return Ok(None);
    }
    let count = match rt.stdin().read(&mut input[s.held..]) {
        Ok(count) => count,
        Err(_) => {
            let _ = rt.eprint("show: cannot read\n");
            0
        }
    };
    if count == 0 {
        let size = s.sheet.finish(&input[..s.held], output);
        rt.write_all(&output[..size])?;
        return Ok(None);
    }
    let end = s.held + count;
    let sheet = show_all(rt, s.sheet, &input[..end], output)?;
    let held = carry(input, end / 32 * 32, end);
    Ok(Some(Stage { sheet, held }))
}

fn main(rt: HostRuntime) {
    let mut input = [0u8; 65536];
    let mut output = [0u8; ROOM];
    let mut s = Stage {
        sheet: Sheet::new(),
        held: 0,
    };
    // A proved loop has to end, and nothing says that the input does: no run takes so many turns.
    for _ in 0..u64::MAX {
        match turn(&rt, s, &mut input, &mut output) {
            Ok(Some(next)) => s = next,
            Ok(None) => return,
            Err(_) => {
                let _ = rt.eprint("show: cannot write\n");
                return;
            }
        }
    }
}
