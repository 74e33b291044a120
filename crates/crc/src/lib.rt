// The cyclic check: a register of r bits, into which the payload goes bit by bit. Bits are bytes of 0 and 1.
#![tactic(auto)]

ghost use Rattle.std.specs.Prelude.{◌≡◌, ◌++◌, ◌+◌, ◌*◌, ◌%◌, ◌^◌, ◌<◌, ◌≤◌, length, take, drop};
ghost use Rattle.laws.specs.Clauses.{splice};
ghost use Rattle.bits.specs.Bit.{bit, bits_of};
ghost use Rattle.crc.specs.Check.{check_of, same, passes};
ghost use Rattle.crc.specs.Clauses.{CheckPre, step};

// The coefficient of z^i.
fn coefficient(poly: u32, i: u32) -> u32
    requires { i < 32 }
    ensures { result ≡ bit poly i }
{
    (poly >> i) & 1
}

// The polynomial's coefficients below z^r in one word: what feeds back into the register.
fn feedback(poly: u32, r: u32) -> u32
    requires { r ≤ 16 }
    ensures { result ≡ poly % 2 ^ r }
{
    poly & ((1u32 << r) - 1)
}

// The word if `out` is 1, else 0. A payload's bits look random to a processor, so a branch would cost more.
fn word_if(out: u32, word: u32) -> u32
    requires { (out < 2) × (word < 2 ^ 16) }
    ensures { result ≡ out * word }
{
    (word << out) - word
}

// One bit goes in: the register moves up by one place, and the word is added if the coefficient that leaves is 1. The register has no bit
// above the highest coefficient, so a shift right yields that one alone.
fn register_step(register: u32, next: u8, r: u32, word: u32) -> u32
    requires { (1 ≤ r) × (r ≤ 16) × (word < 2 ^ r) × (register < 2 ^ r) }
    ensures { (bits_of r result ≡ step (bits_of r word) (bits_of r register) next) × (result < 2 ^ r) }
{
    let out = (register >> (r - 1)) ^ (next as u32 % 2);
    word_if(out, word) ^ ((register << 1) & ((1u32 << r) - 1))
}

// The check of a payload, as a number of r bits.
fn check(payload: &[u8], r: u32, poly: u32, start: u32) -> u32
    requires { CheckPre r start }
    ensures { (bits_of r result ≡ check_of (bits_of r poly) (bits_of r start) payload.now)
        × (result < 2 ^ r) }
{
    let word = feedback(poly, r);
    let mut register = start;
    for bit in payload {
        register = register_step(register, *bit, r, word);
    }
    register
}

// Writes the r bits of a register from index `at` on, the highest first.
fn put_bits(message: &mut [u8], at: usize, r: u32, register: u32)
    requires { (r ≤ 16) × (at + r ≤ length message.old) }
    ensures { message.new ≡ splice message.old at (bits_of r register) }
{
    for (j, bit) in message[at..at + r as usize].iter_mut().enumerate() {
        *bit = coefficient(register, r - 1 - j as u32) as u8;
    }
}

// Writes the check of the first k bits after them.
pub fn append_check(message: &mut [u8], k: usize, r: u32, poly: u32, start: u32)
    requires { CheckPre r start × (length message.old ≡ k + r) }
    ensures { message.new
        ≡ take k message.old ++ check_of (bits_of r poly) (bits_of r start) (take k message.old) }
{
    let register = check(&message[..k], r, poly, start);
    put_bits(message, k, r, register);
}

// Whether the bits from index `at` on are the r bits of a register, the highest first.
fn holds_bits(message: &[u8], at: usize, r: u32, register: u32) -> bool
    requires { (r ≤ 16) × (length message.now ≡ at + r) }
    ensures { result ≡ same (drop at message.now) (bits_of r register) }
{
    for (j, bit) in message[at..].iter().enumerate() {
        if *bit != coefficient(register, r - 1 - j as u32) as u8 {
            return false;
        }
    }
    true
}

// Whether the bits after the first k are their check.
pub fn passes(message: &[u8], k: usize, r: u32, poly: u32, start: u32) -> bool
    requires { CheckPre r start × (length message.now ≡ k + r) }
    ensures { result ≡ passes (bits_of r poly) (bits_of r start) k message.now }
{
    let expected = check(&message[..k], r, poly, start);
    holds_bits(message, k, r, expected)
}
