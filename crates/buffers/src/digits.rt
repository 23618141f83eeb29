// Decimal numbers in a lent buffer.
ghost use Rattle.std.specs.Prelude.{◌≡◌, ◌+◌};
ghost use Rattle.std.proofs.lemmas.List.Edits.{sets};
ghost use Rattle.buffers.specs.Buffers.{fitting};
ghost use Rattle.buffers.specs.Digits.{size as size_of, digits};

use crate::has_room;

// How many digits a number has.
pub fn size(n: u64) -> usize
    ensures { result ≡ size_of n }
{
    n.max(1).ilog10() as usize + 1
}

// Writes the last so many digits of a number from a place on, if the buffer has room for them.
pub fn spell(n: u64, k: usize, out: &mut [u8], at: usize)
    ensures { out.new ≡ sets out.old at (fitting (at + k) out.old (digits k n)) }
{
    if !has_room(out.len(), at, k) {
        return;
    }
    let mut rest = n;
    for i in (0..k).rev() {
        out[at + i] = b'0' + (rest % 10) as u8;
        rest /= 10;
    }
}
