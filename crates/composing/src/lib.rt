// Lines of words in, records out: one byte of the text after the other.
#![tactic(auto)]

ghost use Rattle.std.specs.Prelude.{◌≡◌, ◌≤◌, ◌<◌, false, length, ltb, Some, None, if◌then◌else◌, IfSome};
ghost use Rattle.words.specs.Words.{last_kind, last_field};
ghost use Rattle.composing.specs.Composed.{takes_digit, grown, pushed, added, in_mode, wrong, put, begun, chosen, nibble, hex_value, takes_bearer, may_begin, made, stage, hex, understood, settle, lacks_count, counted, close, commented, typed, passes, step, new_draft, read_from, taken_from};

use records::Kind;
use sets::add;
use words::values::{is_set, record_from};
use words::{ABSENT, LAST_FIELD, LAST_KIND, RAW, place_of};

// The bytes of the longest event: a request, and 256 bearers.
pub const LONGEST: usize = 8224;

// As many as there are fields: none of them.
const NO_FIELD: usize = 15;

// No word yet.
const EMPTY: Word = Word {
    text: [b' '; 16],
    size: 0,
    value: 0,
    number: true,
};

// What a number in a field may be: for a set, an ID.
static LIMITS: [u64; 15] = [
    255,
    255,
    65535,
    65535,
    15,
    15,
    255,
    255,
    4294967295,
    18446744073709551615,
    255,
    255,
    255,
    255,
    4294967295,
];

// The field that the number after a word goes to: a kind's first field, or the field that the word names.
static FIELDS: [usize; 35] = [
    0, 1, 1, 1, 1, 1, 1, 1, 1, 1, 2, 3, 2, 3, 1, 9, 10, 2, 1, 2, 3, 4, 5, 6, 7, 8, 9, 10, 11, 12,
    13, 14, 8, 8, 13,
];

// A word as far as it was read: its first 16 bytes, how many it has (17 where there are more), and the number that it is.
#[derive(Clone, Copy)]
pub struct Word {
    pub text: [u8; 16],
    pub size: usize,
    pub value: u64,
    pub number: bool,
}

// What a line is, as far as it was read.
#[derive(Clone, Copy)]
pub enum Mode {
    // No word yet.
    Blank = 0,
    Record = 1,
    Raw = 2,
    Comment = 3,
    // A word is not understood.
    Wrong = 4,
    // It has more bytes of records than the longest event.
    TooLong = 5,
}

// A line as far as it was read: the record that is being filled, the field that takes the next number (`NO_FIELD` for none), and how
// many bytes of records stand in the buffer.
#[derive(Clone, Copy)]
pub struct Draft {
    pub values: [u64; 15],
    pub field: usize,
    // A `Mode`, by its number.
    pub mode: u8,
    pub staged: usize,
    pub word: Word,
    pub ended: bool,
}

// How far the reading of some text came.
#[derive(Clone, Copy)]
pub struct Progress {
    pub draft: Draft,
    pub taken: usize,
}

// A number with one digit more, if the byte is a digit that it has room for in 64 bits.
fn with_digit(value: u64, byte: u8) -> Option<u64>
    ensures { result ≡ (if takes_digit value byte then Some (grown value byte) else None) }
{
    if !byte.is_ascii_digit() {
        return None;
    }
    value.checked_mul(10)?.checked_add(u64::from(byte - b'0'))
}

// What a hexadecimal digit stands for.
#[tactic(auto, unfolding(crate::specs::Composed::nibble))]
fn nibble(byte: u8) -> Option<u8>
    ensures stands { result ≡ nibble byte }
    ensures within { IfSome result (λ n. n ≤ 15) }
{
    match byte {
        b'0'..=b'9' => Some(byte - b'0'),
        b'a'..=b'f' => Some(byte - b'a' + 10),
        b'A'..=b'F' => Some(byte - b'A' + 10),
        _ => None,
    }
}

impl Word {
    // The word with one byte more.
    fn push(self, byte: u8) -> Word
        ensures { result ≡ pushed self byte }
    {
        let mut text = self.text;
        if self.size < 16 {
            text[self.size] = byte;
        }
        let grown = with_digit(self.value, byte);
        Word {
            text,
            size: self.size.min(16) + 1,
            value: grown.unwrap_or(0),
            number: self.number && grown.is_some(),
        }
    }

    // The byte that it is, if it is two hexadecimal digits.
    #[tactic(auto, unfolding(crate::specs::Composed::hex_value))]
    fn hex_value(self) -> Option<u8>
        ensures { result ≡ hex_value self }
    {
        if self.size != 2 {
            return None;
        }
        let [high, low, ..] = self.text;
        Some(nibble(high)? * 16 + nibble(low)?)
    }
}

// What a field holds after a number: that number, or with the ID that it is.
fn added(field: usize, value: u64, n: u64) -> u64
    ensures { result ≡ added field value n }
{
    if is_set(field) {
        u64::from(add((value % 65536) as u16, (n % 256) as u8))
    } else {
        n
    }
}

impl Draft {
    // The beginning of a line.
    pub fn new() -> Draft
        ensures { result ≡ new_draft }
    {
        Draft {
            values: [0; 15],
            field: NO_FIELD,
            mode: Mode::Blank as u8,
            staged: 0,
            word: EMPTY,
            ended: false,
        }
    }

    // Reads on in a line, to its end or to the end of the bytes. Its records stand at the front of the buffer.
    pub fn read(self, bytes: &[u8], out: &mut [u8]) -> Progress
        ensures read { (made result.draft out.new ≡ read_from bytes.now (made self out.old)) × (result.taken ≡ taken_from bytes.now (made self out.old)) }
        ensures within { result.taken ≤ length bytes.now }
        ensures onward { self.ended ≡ false → 0 < length bytes.now → 0 < result.taken }
    {
        let mut draft = self;
        for (taken, byte) in bytes.iter().enumerate() {
            if draft.ended {
                return Progress { draft, taken };
            }
            // `step` would hand back the same draft: nothing is copied for each byte of a comment.
            if draft.passes(*byte) {
                continue;
            }
            draft = draft.step(*byte, out);
        }
        Progress {
            draft,
            taken: bytes.len(),
        }
    }

    // One byte of the text.
    #[tactic(auto, unfolding(crate::specs::Composed::step))]
    fn step(self, byte: u8, out: &mut [u8]) -> Draft
        ensures { made result out.new ≡ step (made self out.old) byte }
    {
        match byte {
            b'\n' => Draft {
                ended: true,
                ..self.close(out)
            },
            _ if self.is_over() => self,
            b'#' => self.close(out).commented(),
            b' ' | b'\t' | b'\r' => self.settle(out),
            _ => self.typed(byte, out),
        }
    }

    // Whether no more words of the line are read.
    fn is_over(self) -> bool
        ensures { result ≡ ltb 2 self.mode }
    {
        self.mode > Mode::Raw as u8
    }

    // Whether a byte changes nothing: it is passed over, or stands between words where none has begun.
    fn passes(self, byte: u8) -> bool
        ensures { result ≡ passes self byte }
    {
        match byte {
            b'\n' => false,
            _ if self.is_over() => true,
            b' ' | b'\t' | b'\r' => self.word.size == 0,
            _ => false,
        }
    }

    // The words of a line have ended. It is compiled into `step`, so that the draft of an empty line is not copied on its way.
    #[inline(always)]
    #[tactic(auto, unfolding(crate::specs::Composed::close))]
    fn close(self, out: &mut [u8]) -> Draft
        ensures { made result out.new ≡ close (made self out.old) }
    {
        if self.is_over() {
            return self;
        }
        self.settle(out).stage(out).counted(out)
    }

    // What follows is a comment.
    fn commented(self) -> Draft
        ensures { result ≡ commented self }
    {
        if self.is_over() {
            return self;
        }
        self.in_mode(Mode::Comment as u8)
    }

    // A byte of a word. Two digits are a word where bytes are written.
    #[tactic(auto, unfolding(crate::specs::Composed::typed))]
    fn typed(self, byte: u8, out: &mut [u8]) -> Draft
        ensures { made result out.new ≡ typed (made self out.old) byte }
    {
        let next = Draft {
            word: self.word.push(byte),
            ..self
        };
        if next.mode == Mode::Raw as u8 && next.word.size == 2 {
            return next.hex(out);
        }
        next
    }

    // A word has ended.
    #[tactic(auto, unfolding(crate::specs::Composed::settle))]
    fn settle(self, out: &mut [u8]) -> Draft
        ensures { made result out.new ≡ settle (made self out.old) }
    {
        let word = self.word;
        if word.size == 0 {
            return self;
        }
        if self.mode == Mode::Raw as u8 {
            return self.hex(out);
        }
        if word.number {
            return self.put(word.value);
        }
        match place_of(word.text) {
            Some(place) => self.understood(place, out),
            None => self.wrong(),
        }
    }

    // What a word of the table does.
    #[tactic(auto, unfolding(crate::specs::Composed::understood))]
    fn understood(self, word: usize, out: &mut [u8]) -> Draft
        ensures { made result out.new ≡ understood (made self out.old) word }
    {
        match word {
            ..=LAST_KIND if !self.may_begin(word) => self.wrong(),
            ..=LAST_KIND => self.stage(out).begun(word),
            ..=LAST_FIELD => self.chosen(word),
            ABSENT => self.put(65535),
            RAW if self.mode == Mode::Blank as u8 => Draft {
                field: NO_FIELD,
                mode: Mode::Raw as u8,
                word: EMPTY,
                ..self
            },
            _ => self.wrong(),
        }
    }

    // Whether a kind's word begins a record here: it is the line's first, or a bearer of the line's request.
    fn may_begin(self, word: usize) -> bool
        ensures { result ≡ may_begin self word }
    {
        self.mode == Mode::Blank as u8
            || self.mode == Mode::Record as u8
                && word == Kind::Bearer as usize
                && self.takes_bearer()
    }

    // Whether a bearer may follow on this line: it is a request's.
    fn takes_bearer(self) -> bool
        ensures { result ≡ takes_bearer self }
    {
        1 <= self.staged || self.values[0] == Kind::Request as u64
    }

    // A new record of a kind.
    #[tactic(auto, unfolding(crate::specs::Composed::begun))]
    fn begun(self, kind: usize) -> Draft
        requires { kind ≤ last_kind }
        ensures { result ≡ begun self kind }
    {
        if self.mode == Mode::TooLong as u8 {
            return self;
        }
        let mut values = [0; 15];
        values[0] = kind as u64;
        Draft {
            values,
            field: FIELDS[kind],
            mode: Mode::Record as u8,
            word: EMPTY,
            ..self
        }
    }

    // A field of the record that is being filled is named.
    #[tactic(auto, unfolding(crate::specs::Composed::chosen))]
    fn chosen(self, word: usize) -> Draft
        requires { word ≤ last_field }
        ensures { result ≡ chosen self word }
    {
        if self.mode != Mode::Record as u8 {
            return self.wrong();
        }
        Draft {
            field: FIELDS[word],
            word: EMPTY,
            ..self
        }
    }

    // A number goes into the field that takes it.
    #[tactic(auto, unfolding(crate::specs::Composed::put))]
    fn put(self, n: u64) -> Draft
        ensures { result ≡ put self n }
    {
        let field = self.field;
        if LIMITS.get(field).is_none_or(|limit| *limit < n) {
            return self.wrong();
        }
        let mut values = self.values;
        values[field] = added(field, values[field], n);
        Draft {
            values,
            field: if is_set(field) { field } else { NO_FIELD },
            word: EMPTY,
            ..self
        }
    }

    // A word of two hexadecimal digits is a byte behind those that stand in the buffer, where a record has room for it.
    #[tactic(auto, unfolding(crate::specs::Composed::hex))]
    fn hex(self, out: &mut [u8]) -> Draft
        ensures { made result out.new ≡ hex (made self out.old) }
    {
        let at = self.staged;
        let Some(byte) = self.word.hex_value() else {
            return self.wrong();
        };
        if 31 < at {
            return self.wrong();
        }
        if out.len() <= at {
            return self.in_mode(Mode::TooLong as u8);
        }
        out[at] = byte;
        Draft {
            staged: at + 1,
            word: EMPTY,
            ..self
        }
    }

    // The record that is being filled is written behind those that stand in the buffer.
    #[tactic(auto, unfolding(crate::specs::Composed::stage))]
    fn stage(self, out: &mut [u8]) -> Draft
        ensures { made result out.new ≡ stage (made self out.old) }
    {
        if self.mode != Mode::Record as u8 {
            return self;
        }
        let at = self.staged;
        if record_from(self.values).write(out, at) {
            return Draft {
                staged: at + 32,
                ..self
            };
        }
        self.in_mode(Mode::TooLong as u8)
    }

    // A request without a count gets the number of its line's bearers.
    #[tactic(auto, unfolding(crate::specs::Composed::counted))]
    fn counted(self, out: &mut [u8]) -> Draft
        ensures { made result out.new ≡ counted (made self out.old) }
    {
        if !self.lacks_count(out) {
            return self;
        }
        let following = self.staged / 32 - 1;
        out[12] = (following % 256) as u8;
        out[13] = (following / 256 % 256) as u8;
        self
    }

    // Whether the records of a line are a request that has no count, and its bearers.
    fn lacks_count(self, out: &[u8]) -> bool
        ensures { result ≡ lacks_count self out.now }
    {
        64 <= out.len()
            && self.mode == Mode::Record as u8
            && 64 <= self.staged
            && out[0] == Kind::Request as u8
            && out[12..16] == [0; 4]
    }

    // The line is not understood at this word.
    fn wrong(self) -> Draft
        ensures { result ≡ wrong self }
    {
        self.in_mode(Mode::Wrong as u8)
    }

    fn in_mode(self, mode: u8) -> Draft
        ensures { result ≡ in_mode mode self }
    {
        Draft { mode, ..self }
    }
}
