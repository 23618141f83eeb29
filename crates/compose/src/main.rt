// The compose program: lines of words from standard input, event records to standard output.
#![tactic(auto)]

ghost use Rattle.std.specs.Prelude.{◌≡◌, false, IfOk, IfSome};

use composing::{Draft, LONGEST, Mode};
use std::io;
use std::io::Read;

// A line as far as it was read, and its number.
#[derive(Clone, Copy)]
struct Line {
    draft: Draft,
    number: u64,
}

// Tells of a line that is not understood, and at which word: of a long one, what is kept of it.
fn complain(rt: &HostRuntime, line: Line) {
    let _ = rt.eprint("compose: line ");
    let _ = rt.eprint(line.number);
    if line.draft.mode == Mode::TooLong as u8 {
        let _ = rt.eprint(": longer than the longest event\n");
        return;
    }
    let _ = rt.eprint(": not understood: ");
    let text = line.draft.word.text;
    let _ = rt.stderr().write_all(&text[..line.draft.word.size.min(16)]);
    let _ = rt.eprint("\n");
}

// Writes the records of a line that has ended, or tells why there are none.
fn write_line(rt: &HostRuntime, line: &Line, output: &[u8]) -> io::Result<()> {
    match output.get(..line.draft.staged) {
        Some(records) if line.draft.mode < Mode::Wrong as u8 => rt.write_all(records),
        _ => {
            complain(rt, *line);
            Ok(())
        }
    }
}

// Where a line has ended its records are written, and the next begins.
fn next_line(rt: &HostRuntime, line: &mut Line, output: &[u8]) -> io::Result<()>
    ensures { IfOk result (λ u. line.new.draft.ended ≡ false) }
{
    if line.draft.ended {
        write_line(rt, line, output)?;
        line.draft = Draft::new();
        line.number = line.number.wrapping_add(1);
    }
    Ok(())
}

// Reads the bytes of a block, one line after the other.
fn take_all(rt: &HostRuntime, line: &mut Line, bytes: &[u8], output: &mut [u8]) -> io::Result<()>
    requires { line.old.draft.ended ≡ false }
    ensures { IfOk result (λ u. line.new.draft.ended ≡ false) }
{
    let mut rest = bytes;
    while !rest.is_empty() {
        let progress = line.draft.read(rest, output);
        line.draft = progress.draft;
        next_line(rt, line, output)?;
        rest = &rest[progress.taken..];
    }
    Ok(())
}

// Reads once, and takes what is there. At the end of the input the last line ends too, and none follows.
fn turn(
    rt: &HostRuntime,
    line: Line,
    input: &mut [u8],
    output: &mut [u8],
) -> io::Result<Option<Line>>
    requires { line.draft.ended ≡ false }
    ensures { IfOk result (λ next. IfSome next (λ l. l.draft.ended ≡ false)) }
{
    let count = match rt.stdin().read(input) {
        Ok(count) => count,
        Err(_) => {
            let _ = rt.eprint("compose: cannot read\n");
            0
        }
    };
    let mut now = line;
    if count == 0 {
        take_all(rt, &mut now, b"\n", output)?;
        return Ok(None);
    }
    take_all(rt, &mut now, &input[..count], output)?;
    Ok(Some(now))
}

fn main(rt: HostRuntime) {
    let mut input = [0u8; 65536];
    let mut output = [0u8; LONGEST];
    let mut line = Line {
        draft: Draft::new(),
        number: 1,
    };
    // A proved loop has to end, and nothing says that the input does: no run takes so many turns.
    for _ in 0..u64::MAX {
        match turn(&rt, line, &mut input, &mut output) {
            Ok(Some(next)) => line = next,
            Ok(None) => return,
            Err(_) => {
                let _ = rt.eprint("compose: cannot write\n");
                return;
            }
        }
    }
}
