// Exports for tests only: what document 01 does not export to C. None has a `requires`: a call that the tested function does not admit is
// answered by a number that is no result.
#![tactic(auto)]

ghost use Rattle.std.specs.Prelude.{◌≡◌, unwrap_or};
ghost use Rattle.refusal.specs.Judge.{number_of, index_of};
ghost use Rattle.code.specs.Description.{describe};
ghost use Rattle.quantiser.specs.Quantise.{quantised};
ghost use Rattle.probe.specs.Numbers.{description_numbers, quantised_numbers};
ghost use Rattle.probe.specs.Clauses.{all_bits, packing, unpacking, bit_at, ones_answer, placing_answer, taking_answer};

use arrays::BYTES;
use refusal::Refusal;

// A refusal's number.
fn refusal_number(x: Refusal) -> u64
    ensures { result ≡ number_of x }
{
    x.number() as u64
}

// A refusal's index, or 0.
fn refusal_index(x: Refusal) -> u64
    ensures { result ≡ unwrap_or (index_of x) 0 }
{
    x.index().unwrap_or(0) as u64
}

// Returns the refusal's number, or 0. `numbers` holds n, r, polynomial, start and k of an accepted description.
#[unsafe(no_mangle)]
pub extern "C" fn probe_description(d: &[u8], numbers: &mut [u64; 5]) -> u64
    ensures { (result, numbers.new) ≡ description_numbers (describe d.now) numbers.old }
{
    match code::read_description(d) {
        Ok(code) => {
            numbers[0] = code.n as u64;
            numbers[1] = code.r as u64;
            numbers[2] = code.polynomial as u64;
            numbers[3] = code.start as u64;
            numbers[4] = code.k as u64;
            0
        }
        Err(x) => refusal_number(x),
    }
}

// Whether every byte is 0 or 1.
fn are_bits(bits: &[u8]) -> bool
    ensures { result ≡ all_bits bits.now }
{
    bits.iter().all(|bit| *bit < 2)
}

// Packs bits. Returns 0, or 1 if the call is not admitted.
#[unsafe(no_mangle)]
pub extern "C" fn probe_pack(bits: &[u8], bytes: &mut [u8]) -> u64
    ensures { (result, bytes.new) ≡ packing bits.now bytes.old }
{
    if !are_bits(bits) {
        return 1;
    }
    if bytes.len() != bits::bytes_for(bits.len()) {
        return 1;
    }
    bits::pack(bits, bytes);
    0
}

// Unpacks bits. Returns 0, or 1 if the call is not admitted.
#[unsafe(no_mangle)]
pub extern "C" fn probe_unpack(bytes: &[u8], bits: &mut [u8]) -> u64
    ensures { (result, bits.new) ≡ unpacking bytes.now bits.old }
{
    if bytes.len() < bits::bytes_for(bits.len()) {
        return 1;
    }
    bits::unpack(bytes, bits);
    0
}

// Returns the bit of a mask at an index, or 2 if the mask has no such index.
#[unsafe(no_mangle)]
pub extern "C" fn probe_mask_bit(mask: &[u8], i: usize) -> u64
    ensures { result ≡ bit_at mask.now i }
{
    if mask.len() <= i / 8 {
        return 2;
    }
    bits::mask_bit(mask, i) as u64
}

// Returns the number of ones of a mask.
#[unsafe(no_mangle)]
pub extern "C" fn probe_ones(mask: &[u8]) -> u64
    ensures { result ≡ ones_answer mask.now }
{
    if 65536 < mask.len() {
        return 0xffff_ffff_ffff_ffff;
    }
    bits::ones(mask) as u64
}

// Places a message. Returns the number of looks.
#[unsafe(no_mangle)]
pub extern "C" fn probe_place(mask: &[u8], message: &[u8], u: &mut [u8]) -> u64
    ensures { (result, u.new) ≡ placing_answer mask.now message.now u.old }
{
    if BYTES < mask.len() {
        return 0xffff_ffff_ffff_ffff;
    }
    if u.len() < mask.len() {
        return 0xffff_ffff_ffff_ffff;
    }
    if message.len() / 8 < mask.len() {
        return 0xffff_ffff_ffff_ffff;
    }
    if !are_bits(message) {
        return 0xffff_ffff_ffff_ffff;
    }
    placing::place(mask, message, u) as u64
}

// Takes a message out. Returns the number of looks.
#[unsafe(no_mangle)]
pub extern "C" fn probe_take_out(mask: &[u8], u: &[u8], message: &mut [u8]) -> u64
    ensures { (result, message.new) ≡ taking_answer mask.now u.now message.old }
{
    if u.len() / 8 < mask.len() {
        return 0xffff_ffff_ffff_ffff;
    }
    if message.len() / 8 < mask.len() {
        return 0xffff_ffff_ffff_ffff;
    }
    placing::take_out(mask, u, message) as u64
}

// Returns the peak. `numbers` holds the refusal's number or 0, then the clipped count or the refusal's index or 0.
#[unsafe(no_mangle)]
pub extern "C" fn probe_quantise(
    scale: f32,
    samples: &[f32],
    output: &mut [u8],
    numbers: &mut [u64; 2],
) -> f32
    ensures { ((result, numbers.new) ≡ quantised_numbers (quantised scale samples.now output.old).0 numbers.old)
        × (output.new ≡ (quantised scale samples.now output.old).1) }
{
    match quantiser::quantise(scale, samples, output) {
        Ok(s) => {
            numbers[0] = 0;
            numbers[1] = s.clipped as u64;
            s.peak
        }
        Err(x) => {
            numbers[0] = refusal_number(x);
            numbers[1] = refusal_index(x);
            0.0
        }
    }
}
