// The examples: of each three files that the arguments name, the words in the first give the records in the second, and those give the
// lines in the third.
#![tactic(auto)]

ghost use Rattle.std.specs.Prelude.{◌+◌, ◌^◌, ◌≤◌, ◌<◌, length};

use buffers::read_full;
use composing::{Draft, Mode};
use lines::Run;
use std::env::{Env, FillError};
use std::fs::File;
use std::{fs, io};

// How many arguments the program was started with, its own name among them.
fn arg_count(rt: &HostRuntime) -> usize {
    for i in 0..usize::MAX {
        if let Err(FillError::NotPresent) = rt.arg(i, &mut []) {
            return i;
        }
    }
    usize::MAX
}

// Puts an argument at the start of the buffer, and answers its bytes: none if it is missing or longer than the buffer.
fn arg<'a>(rt: &HostRuntime, place: usize, buffer: &'a mut [u8]) -> &'a [u8]
    ensures { length result.now ≤ length buffer.old }
{
    let size = rt.arg(place, buffer).unwrap_or(0);
    &buffer[..size]
}

// Opens a file for reading.
fn open(rt: &HostRuntime, path: &[u8]) -> io::Result<File> {
    let Ok(name) = str::from_utf8(path) else {
        return Err(io::Error::from(io::ErrorKind::InvalidInput));
    };
    fs::open(rt, name)
}

// Tells which file cannot be opened, and why.
fn fail(rt: &HostRuntime, path: &[u8], why: io::Error) {
    let _ = rt.stderr().write_all(path);
    let _ = rt.eprint(": ");
    let _ = rt.eprint(why);
    let _ = rt.eprint("\n");
}

// Reads a file, as far as the buffer holds it, and answers its bytes.
fn read_file<'a>(rt: &HostRuntime, path: &[u8], buffer: &'a mut [u8]) -> &'a [u8]
    ensures { length result.now ≤ length buffer.old }
{
    let held = match open(rt, path) {
        Ok(mut file) => read_full(&mut file, buffer),
        Err(why) => {
            fail(rt, path, why);
            0
        }
    };
    &buffer[..held]
}

// Writes the lines that events give on a fresh station, as far as the buffer holds them, and answers how many bytes there are.
fn write_lines(events: &[u8], buffer: &mut [u8]) -> usize
    ensures { result ≤ length buffer.new }
{
    Run::new().answer(events, true, buffer).written
}

// Writes the records that a text gives, one line after the other, and answers how many bytes there are: none if a line is not
// understood, does not end, or has no room.
fn write_records(text: &[u8], buffer: &mut [u8]) -> usize
    ensures { result ≤ length buffer.new }
{
    let mut written = 0;
    let mut rest = text;
    while !rest.is_empty() {
        let p = Draft::new().read(rest, &mut buffer[written..]);
        let line = p.draft;
        let room = buffer.len() - written;
        if !line.ended || line.mode >= Mode::Wrong as u8 || room < line.staged {
            return 0;
        }
        written += line.staged;
        rest = &rest[p.taken..];
    }
    written
}

// Tells whether a file gives another, by a function that writes what one gives.
fn check<F: FnOnce(&[u8], &mut [u8]) -> usize>(rt: &HostRuntime, give: F, from: &[u8], to: &[u8])
    requires { F.IsAlwaysCallable give }
{
    let mut input = [0u8; 65536];
    let mut output = [0u8; 65536];
    let mut expected = [0u8; 65536];
    let file = read_file(rt, from, &mut input);
    let wanted = read_file(rt, to, &mut expected);
    let written = give(file, &mut output);
    let is_given = output.get(..written).is_some_and(|given| given == wanted);
    let _ = rt.write_all(from);
    if is_given && !wanted.is_empty() {
        let _ = rt.print(" gives ");
    } else {
        let _ = rt.print(" does not give ");
    }
    let _ = rt.write_all(to);
    let _ = rt.print("\n");
}

// The example that three arguments name, from one on.
fn check_at(rt: &HostRuntime, first: usize)
    requires { first + 2 < 2 ^ 64 }
{
    let mut text = [0u8; 4096];
    let mut records = [0u8; 4096];
    let mut lines = [0u8; 4096];
    let text = arg(rt, first, &mut text);
    let records = arg(rt, first + 1, &mut records);
    let lines = arg(rt, first + 2, &mut lines);
    check(rt, write_records, text, records);
    check(rt, write_lines, records, lines);
}

fn main(rt: HostRuntime) {
    for i in 0..arg_count(&rt) / 3 {
        check_at(&rt, 3 * i + 1);
    }
}
