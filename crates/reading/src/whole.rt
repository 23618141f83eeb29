// Whether a message is in order, without a look at the rules: most are, and then nothing has to be found out about them.
ghost use Rattle.std.specs.Prelude.{◌≡◌, ◌+◌, ◌≤◌, ◌<◌, length};
ghost use Rattle.reading.specs.Whole.{begins, heads, has_id, has_cause, is_whole};

use wire::causes::reason_of;

// Whether a message begins as it must: by its procedure code, the length of its value and the count of its IEs.
fn begins(message: &[u8], code: u8, size: u8, count: u8) -> bool
    requires { 18 ≤ length message.now }
    ensures { result ≡ begins message.now code size count }
{
    (message[0] == 0)
        & (message[1] == code)
        & (message[2] == 0x40)
        & (message[3] == size)
        & (message[4] == 0)
        & (message[5] == 0)
        & (message[6] == count)
}

// Whether an IE begins at a place, by its id, its criticality and the length of its value.
fn heads(message: &[u8], at: usize, id: u8, criticality: u8, size: u8) -> bool
    requires { at + 4 < length message.now }
    ensures { result ≡ heads message.now at id criticality size }
{
    (message[at] == 0)
        & (message[at + 1] == id)
        & (message[at + 2] == criticality)
        & (message[at + 3] == size)
}

// Whether an ID stands at a place.
fn has_id(message: &[u8], at: usize, id: u8, criticality: u8) -> bool
    requires { at + 4 < length message.now }
    ensures { result ≡ has_id message.now at id criticality }
{
    heads(message, at, id, criticality, 2) & (message[at + 4] <= 15)
}

// Whether a Cause stands at a place.
fn has_cause(message: &[u8], at: usize) -> bool
    requires { at + 4 < length message.now }
    ensures { result ≡ has_cause message.now at }
{
    heads(message, at, 5, 0x40, 1) & reason_of(message[at + 4]).is_some()
}

// Whether it is a release, a cancel, or a cancel without a New ID.
pub fn is_whole(message: &[u8]) -> bool
    ensures { result ≡ is_whole message.now }
{
    match message.len() {
        19 => begins(message, 5, 15, 2) & has_id(message, 7, 10, 0) & has_id(message, 13, 9, 0),
        24 => {
            begins(message, 1, 20, 3)
                & has_id(message, 7, 10, 0)
                & has_id(message, 13, 9, 0x40)
                & has_cause(message, 19)
        }
        18 => begins(message, 1, 14, 2) & has_id(message, 7, 10, 0) & has_cause(message, 13),
        _ => false,
    }
}
