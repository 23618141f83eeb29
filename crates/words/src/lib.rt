// The words of the text form: one table.
#![tactic(auto)]

pub mod values;

ghost use Rattle.std.specs.Prelude.{◌≡◌, ◌+◌, ◌≤◌, ◌==◌, length};
ghost use Rattle.std.specs.List.{position_or_len};
ghost use Rattle.buffers.specs.Buffers.{Writes, fitting};
ghost use Rattle.words.specs.Words.{word_room, place_of, trimmed, word_at};

use buffers::has_room;

// The last word of a kind: word k is kind k's from 1 on.
pub const LAST_KIND: usize = 17;

// The last word of a field: word 17 + f is field f's, and then come other names of the fields 8 and 13.
pub const LAST_FIELD: usize = 34;

// The word for the New ID that is absent.
pub const ABSENT: usize = 35;

// The word for bytes by themselves, which is the last.
pub const RAW: usize = 36;

// The longest word has room in so many bytes.
const ROOM: usize = 16;

// Every word, with spaces after it.
static WORDS: [[u8; ROOM]; 37] = [
    *b"kind            ",
    *b"request         ",
    *b"acknowledge     ",
    *b"failure         ",
    *b"status-received ",
    *b"release         ",
    *b"cancel-received ",
    *b"reset-received  ",
    *b"reset-response  ",
    *b"start           ",
    *b"cancel          ",
    *b"arrived         ",
    *b"returned        ",
    *b"left            ",
    *b"reset           ",
    *b"tick            ",
    *b"bearer          ",
    *b"status          ",
    *b"neighbour       ",
    *b"old             ",
    *b"new             ",
    *b"set             ",
    *b"second          ",
    *b"reason          ",
    *b"byte11          ",
    *b"number          ",
    *b"time            ",
    *b"erab            ",
    *b"qci             ",
    *b"priority        ",
    *b"flags           ",
    *b"bytes28         ",
    *b"units           ",
    *b"count           ",
    *b"gbr             ",
    *b"absent          ",
    *b"raw             ",
];

// The place of a text among the words.
#[tactic(auto, unfolding(crate::specs::Words::place_of))]
pub fn place_of(text: [u8; 16]) -> Option<usize>
    ensures { result ≡ place_of text }
{
    WORDS.iter().position(|word| *word == text)
}

// How many bytes a text has before its first space.
fn size_of(text: &[u8]) -> usize
    ensures size { result ≡ position_or_len (λ b. b == 32) text.now }
    ensures within { result ≤ length text.now }
{
    text.iter().take_while(|byte| **byte != b' ').count()
}

// Writes a text without the spaces after it.
fn write_trimmed(text: &[u8; ROOM], out: &mut [u8], at: usize) -> usize
    requires { at + word_room ≤ length out.old }
    ensures { Writes out.old out.new at (trimmed text.now) result × (result ≤ at + word_room) }
{
    let size = size_of(text);
    let next = at + size;
    out[at..next].copy_from_slice(&text[..size]);
    next
}

// Writes a word from a place on, if the buffer has room for the longest, and answers the next place.
#[tactic(auto, unfolding(crate::specs::Words::word_at))]
pub fn write_word(word: usize, out: &mut [u8], at: usize) -> usize
    ensures { Writes out.old out.new at (fitting (at + word_room) out.old (word_at word)) result × (result ≤ at + word_room) }
{
    if !has_room(out.len(), at, ROOM) {
        return at;
    }
    match WORDS.get(word) {
        Some(text) => write_trimmed(text, out, at),
        None => at,
    }
}
