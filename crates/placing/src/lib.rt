// Placing bits by a mask, and taking them out again. Each walks the mask once, counts its looks and keeps the count of ones.
#![tactic(auto)]

ghost use Rattle.std.specs.Prelude.{◌≡◌, cond, ◌+◌, ◌*◌, ◌≤◌, ◌<◌, eqb, length, get_or, set};
ghost use Rattle.laws.specs.Clauses.{splice};
ghost use Rattle.placing.specs.Place.{taken, placed};
ghost use Rattle.placing.specs.Clauses.{PlacePre};
ghost use Rattle.bits.specs.Claims.{Bits};
ghost use Rattle.bits.specs.Packing.{packed_byte, packed};
ghost use Rattle.walk.specs.Walked.{walked};

use walk::Walk;

// The bit for an index: message bit c at an information index, and 0 at a frozen one. Without a branch it takes the same time for every mask.
fn placed_bit(message: &[u8], c: usize, information: u8) -> u8
    requires { (information < 2) × (c < length message.now) × Bits message.now }
    ensures { result ≡ cond (eqb information 1) (get_or message.now c 0) 0 }
{
    information & message[c]
}

// A byte of placed bits.
#[derive(Clone, Copy)]
struct PlacedByte {
    // The bits of eight indices, packed.
    byte: u8,
    // The walk after the eight looks.
    walk: Walk,
}

// The bits for the indices of mask byte m, packed: the next eight looks.
fn placed_byte(mask: &[u8], message: &[u8], m: usize, start: Walk) -> PlacedByte
    requires { PlacePre mask.now message.now
        × (m < length mask.now)
        × (start ≡ walked mask.now (8 * m)) }
    ensures { (result.byte ≡ packed_byte (placed mask.now message.now (8 * length mask.now)) m)
        × (result.walk ≡ walked mask.now (8 * (m + 1))) }
{
    let mut walk = start;
    let mut byte: u8 = 0;
    for _ in 0..8 {
        let c = walk.ones();
        let seen = walk.look(mask);
        byte = byte * 2 + placed_bit(message, c, seen.bit);
        walk = seen.walk;
    }
    PlacedByte { byte, walk }
}

// Places the message's bits at the information indices, in ascending order, and zeros at the frozen ones, packed. Returns the number of
// looks at a bit of the mask.
pub fn place(mask: &[u8], message: &[u8], u: &mut [u8]) -> usize
    requires { PlacePre mask.now message.now × (length mask.now ≤ length u.old) }
    ensures { (result ≡ (walked mask.now (8 * length mask.now)).looks)
        × (u.new ≡ splice u.old 0 (packed (placed mask.now message.now (8 * length mask.now)))) }
{
    let mut walk = Walk::start();
    // The walk's own count says which byte is next, so that nothing is placed without looks.
    while walk.looks() < 8 * mask.len() {
        let m = walk.looks() / 8;
        let next = placed_byte(mask, message, m, walk);
        u[m] = next.byte;
        walk = next.walk;
    }
    walk.looks()
}

// Stores a bit as message bit c if its index is an information index.
fn take_bit(message: &mut [u8], c: usize, information: u8, bit: u8)
    requires { c < length message.old }
    ensures { message.new ≡ cond (eqb information 1) (set message.old c bit) message.old }
{
    if information == 1 {
        message[c] = bit;
    }
}

// Copies the bits at the information indices, in ascending order, to the start of the message. Returns the number of looks at a bit of the
// mask.
pub fn take_out(mask: &[u8], u: &[u8], message: &mut [u8]) -> usize
    requires { (8 * length mask.now ≤ length u.now)
        × (8 * length mask.now ≤ length message.old) }
    ensures { (result ≡ (walked mask.now (8 * length mask.now)).looks)
        × (message.new ≡ splice message.old 0 (taken mask.now u.now (8 * length mask.now))) }
{
    let mut walk = Walk::start();
    for bit in &u[..8 * mask.len()] {
        let c = walk.ones();
        let seen = walk.look(mask);
        take_bit(message, c, seen.bit, *bit);
        walk = seen.walk;
    }
    walk.looks()
}
