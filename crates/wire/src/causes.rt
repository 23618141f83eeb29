// The Cause of a cancel: every value of 9.2.6 has a reason of its own.
ghost use Rattle.std.specs.Prelude.{◌≡◌};
ghost use Rattle.wire.specs.Causes.{reason_of, cause_of};

// A Cause's octet, and the reason that stands for it.
#[derive(Clone, Copy)]
struct Cause(u8, u8);

static CAUSES: [Cause; 30] = [
    Cause(0x00, 16), // radioNetwork
    Cause(0x01, 17),
    Cause(0x02, 18),
    Cause(0x03, 19),
    Cause(0x04, 20),
    Cause(0x05, 21),
    Cause(0x06, 22),
    Cause(0x07, 23),
    Cause(0x08, 24),
    Cause(0x09, 25),
    Cause(0x0a, 2),
    Cause(0x0b, 27),
    Cause(0x0c, 5),
    Cause(0x0d, 29),
    Cause(0x0e, 30),
    Cause(0x0f, 3),
    Cause(0x20, 32), // transport
    Cause(0x28, 33),
    Cause(0x40, 48), // protocol
    Cause(0x42, 49),
    Cause(0x44, 50),
    Cause(0x46, 51),
    Cause(0x48, 52),
    Cause(0x4a, 53),
    Cause(0x4c, 54),
    Cause(0x60, 4), // misc
    Cause(0x62, 65),
    Cause(0x64, 66),
    Cause(0x66, 67),
    Cause(0x68, 1),
];

// The reason of a Cause's octet.
pub fn reason_of(octet: u8) -> Option<u8>
    ensures { result ≡ reason_of octet }
{
    CAUSES
        .iter()
        .find(|cause| cause.0 == octet)
        .map(|cause| cause.1)
}

// The octet of a reason's Cause.
pub fn cause_of(reason: u8) -> Option<u8>
    ensures { result ≡ cause_of reason }
{
    CAUSES
        .iter()
        .find(|cause| cause.1 == reason)
        .map(|cause| cause.0)
}
