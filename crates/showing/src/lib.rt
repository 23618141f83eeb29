// Records in, lines of words out.
#![tactic(auto)]

ghost use Rattle.std.specs.Prelude.{◌≡◌, ◌+◌, [], ◌∷◌, ◌*◌, ◌≤◌, ◌<◌, length};
ghost use Rattle.std.proofs.lemmas.List.Edits.{sets};
ghost use Rattle.buffers.specs.Buffers.{Writes};
ghost use Rattle.buffers.specs.Digits.{cell_room};
ghost use Rattle.words.specs.Values.{field_count};
ghost use Rattle.words.specs.Words.{word_room, word_at};
ghost use Rattle.showing.specs.Paging.{HasRoom, Adds};
ghost use Rattle.showing.specs.Room.{spaced_room, value_room, field_room, fields_room, record_room, event_room};
ghost use Rattle.showing.specs.Shown.{number_text, spaced_word, id_text, ids_text, has_word, field_word, value_text, field_text, fields_text, words_text, hex_digit, bytes_text, raw_text, record_text, joins, owed_after, gap_text, event_text, new_sheet, shown_of, shown_text, end_text, rest_text, last_text};

use buffers::digits::{size, spell};
use records::{Kind, Record, SIZE};
use sets::member;
use words::values::{is_set, values_of};
use words::{LAST_KIND, RAW, write_word};

// So many bytes have room for any record's text and what stands before it.
pub const ROOM: usize = 4959;

// So many have room for what ends the text.
const LAST_ROOM: usize = 96;

// The field whose word is one of these two, in a request and in a bearer.
const NUMBER: usize = 8;

const COUNT: usize = 33;

const UNITS: usize = 32;

// Between two records: how many bearers the last request may still take, and whether a line is open.
#[derive(Clone, Copy)]
pub struct Sheet {
    pub owed: u32,
    pub begun: bool,
}

// A buffer that text is written into, and where the next byte goes.
#[derive(Drop)]
struct Page<'a> {
    out: &'a mut [u8],
    at: usize,
}

impl Page<'_> {
    // Writes a byte.
    fn byte(&mut self, byte: u8)
        requires { HasRoom self.old 1 }
        ensures { Adds self.old self.new (byte ∷ []) 1 }
    {
        self.out[self.at] = byte;
        self.at += 1;
    }

    // Writes a word.
    fn word(&mut self, word: usize)
        requires { HasRoom self.old word_room }
        ensures { Adds self.old self.new (word_at word) word_room }
    {
        self.at = write_word(word, self.out, self.at);
    }

    // Writes a space and a number.
    fn number(&mut self, n: u64)
        requires { HasRoom self.old cell_room }
        ensures { Adds self.old self.new (number_text n) cell_room }
    {
        self.byte(b' ');
        let k = size(n);
        spell(n, k, self.out, self.at);
        self.at += k;
    }

    // Writes an ID, if it is in a set.
    fn id(&mut self, set: u16, id: u8)
        requires { HasRoom self.old cell_room }
        ensures { Adds self.old self.new (id_text set id) cell_room }
    {
        if member(set, id) {
            self.number(u64::from(id));
        }
    }

    // Writes the IDs of a set.
    fn ids(&mut self, set: u16)
        requires { HasRoom self.old value_room }
        ensures { Adds self.old self.new (ids_text set 0 16) value_room }
    {
        for id in 0..16u8 {
            self.id(set, id);
        }
    }

    // Writes what a field holds.
    fn value(&mut self, field: usize, value: u64)
        requires { HasRoom self.old value_room }
        ensures { Adds self.old self.new (value_text field value) value_room }
    {
        if is_set(field) {
            self.ids((value % 65536) as u16);
        } else {
            self.number(value);
        }
    }

    // Writes a field, if it is not zero.
    fn field(&mut self, kind: u8, field: usize, value: u64)
        requires { (field < field_count) × HasRoom self.old field_room }
        ensures { Adds self.old self.new (field_text kind field value) field_room }
    {
        if value != 0 {
            self.byte(b' ');
            self.word(field_word(kind, field));
            self.value(field, value);
        }
    }

    // Writes the fields after the kind.
    fn fields(&mut self, kind: u8, values: &[u64])
        requires { (length values.now ≡ 14) × HasRoom self.old fields_room }
        ensures { Adds self.old self.new (fields_text kind 1 values.now) fields_room }
    {
        for (before, value) in values.iter().enumerate() {
            self.field(kind, 1 + before, *value);
        }
    }

    // Writes a record by its words.
    fn words(&mut self, r: Record)
        requires { HasRoom self.old record_room }
        ensures { Adds self.old self.new (words_text r) record_room }
    {
        self.word(r.kind as usize);
        self.fields(r.kind, &values_of(r)[1..]);
    }

    // Writes bytes as hexadecimal digits, two each.
    fn bytes(&mut self, bytes: &[u8])
        requires { HasRoom self.old (2 * length bytes.now) }
        ensures { Adds self.old self.new (bytes_text bytes.now) (2 * length bytes.now) }
    {
        for byte in bytes {
            self.byte(digit(byte / 16));
            self.byte(digit(byte % 16));
        }
    }

    // Writes bytes as they stand: the word for them, and their digits.
    fn raw(&mut self, bytes: &[u8])
        requires { HasRoom self.old (spaced_room + 2 * length bytes.now) }
        ensures { Adds self.old self.new (raw_text bytes.now) (spaced_room + 2 * length bytes.now) }
    {
        self.word(RAW);
        self.byte(b' ');
        self.bytes(bytes);
    }

    // Writes a record: by its words, or as it stands where its kind has none.
    fn record(&mut self, bytes: &[u8; SIZE])
        requires { HasRoom self.old record_room }
        ensures { Adds self.old self.new (record_text bytes.now) record_room }
    {
        let r = Record::of(bytes);
        if has_word(r.kind) {
            self.words(r);
        } else {
            self.raw(bytes);
        }
    }

    // Writes what stands before a record: a space before a bearer of the open line, a line feed where another line is open.
    fn gap(&mut self, s: Sheet, r: Record)
        requires { HasRoom self.old 1 }
        ensures { Adds self.old self.new (gap_text s r) 1 }
    {
        if s.joins(r) {
            self.byte(b' ');
        } else {
            self.end(s.begun);
        }
    }

    // Writes a line feed, if a line is open.
    fn end(&mut self, begun: bool)
        requires { HasRoom self.old 1 }
        ensures { Adds self.old self.new (end_text begun) 1 }
    {
        if begun {
            self.byte(b'\n');
        }
    }

    // Writes what is left of a record as a line of its own.
    fn rest(&mut self, rest: &[u8])
        requires { HasRoom self.old (spaced_room + 2 * length rest.now + 1) }
        ensures { Adds self.old self.new (rest_text rest.now) (spaced_room + 2 * length rest.now + 1) }
    {
        if !rest.is_empty() {
            self.raw(rest);
            self.byte(b'\n'); // it has a line of its own
        }
    }
}

// What showing took and wrote.
#[derive(Clone, Copy)]
pub struct Shown {
    pub sheet: Sheet,
    pub taken: usize,
    pub written: usize,
}

impl Sheet {
    // Nothing is shown yet.
    pub fn new() -> Sheet
        ensures { result ≡ new_sheet }
    {
        Sheet {
            owed: 0,
            begun: false,
        }
    }

    // Shows the record at the front of some bytes at the front of a buffer, if it is whole and any record's text has room there.
    pub fn show(self, bytes: &[u8], out: &mut [u8]) -> Shown
        ensures told { (result ≡ shown_of (length out.old) bytes.now self) × (out.new ≡ sets out.old 0 (shown_text (length out.old) bytes.now self)) }
        ensures within { result.written ≤ length out.new }
    {
        match bytes.first_chunk() {
            Some(bytes) if ROOM <= out.len() => {
                let written = self.write_event(bytes, out);
                Shown {
                    sheet: Sheet {
                        owed: self.owed_after(Record::of(bytes)),
                        begun: true,
                    },
                    taken: 32,
                    written,
                }
            }
            _ => Shown {
                sheet: self,
                taken: 0,
                written: 0,
            },
        }
    }

    // Writes a record, and what stands before it.
    fn write_event(self, bytes: &[u8; SIZE], out: &mut [u8]) -> usize
        requires { event_room ≤ length out.old }
        ensures { Writes out.old out.new 0 (event_text self bytes.now) result × (result ≤ event_room) }
    {
        let mut page = Page { out, at: 0 };
        page.gap(self, Record::of(bytes));
        page.record(bytes);
        page.at
    }

    // Ends the open line, and shows what is left of a record.
    pub fn finish(self, rest: &[u8], out: &mut [u8]) -> usize
        ensures told { Writes out.old out.new 0 (last_text (length out.old) rest.now self) result }
        ensures within { result ≤ length out.new }
    {
        if rest.len() > 31 || out.len() < LAST_ROOM {
            return 0;
        }
        let mut page = Page { out, at: 0 };
        page.end(self.begun);
        page.rest(rest);
        page.at
    }

    // How many bearers may follow a record on its line.
    fn owed_after(self, r: Record) -> u32
        ensures { result ≡ owed_after self r }
    {
        if self.joins(r) {
            return self.owed - 1;
        }
        if r.takes_bearers() {
            return r.number;
        }
        0
    }

    // Whether a record is a bearer of the request on the open line.
    fn joins(self, r: Record) -> bool
        ensures { result ≡ joins self r }
    {
        1 <= self.owed && r.kind == Kind::Bearer as u8
    }
}

// Whether a kind has a word of its own.
fn has_word(kind: u8) -> bool
    ensures { result ≡ has_word kind }
{
    1 <= kind && kind as usize <= LAST_KIND
}

// The word of a field: the number of a request is a count, that of a bearer its units.
fn field_word(kind: u8, field: usize) -> usize
    requires { field < field_count }
    ensures { result ≡ field_word kind field }
{
    if field == NUMBER && kind == Kind::Request as u8 {
        return COUNT;
    }
    if field == NUMBER && kind == Kind::Bearer as u8 {
        return UNITS;
    }
    LAST_KIND + field
}

// A hexadecimal digit.
fn digit(n: u8) -> u8
    requires { n < 16 }
    ensures { result ≡ hex_digit n }
{
    if n <= 9 { b'0' + n } else { b'a' - 10 + n }
}
