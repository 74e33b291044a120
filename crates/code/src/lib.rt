// Code descriptions: records of kinds 1 and 4.
#![tactic(auto)]

ghost use Rattle.std.specs.Prelude.{◌≡◌, cond, ◌+◌, ◌<◌, ◌≤◌, ltb, length, take, drop};
ghost use Rattle.refusal.specs.Judge.{judge};
ghost use Rattle.code.specs.Description.{word, has_start, is_description, mask_at, mask_of, start_of, is_wide, bad_polynomial, describe};
ghost use Rattle.code.specs.Record.{record_in};
ghost use Rattle.code.specs.Claims.{Laid};
ghost use Rattle.code.specs.Clauses.{description_refusals, past_fields};

use arrays::{BYTES, LARGEST_N};
use refusal::Refusal;

// The numbers of a code.
#[derive(Clone, Copy)]
pub struct Code {
    // Its length is 2^n.
    pub n: u32,
    // How many check bits it has.
    pub r: u32,
    // The check polynomial without z^r: bit i is the coefficient of z^i.
    pub polynomial: u32,
    // The start value of the check.
    pub start: u32,
    // How many payload bits it has.
    pub k: usize,
}

// The bytes of the fields that every kind of description has.
const FIELDS: usize = 8;

// The bytes of a start value.
const START: usize = 2;

// The longest description: all fields, and the mask.
pub const LONGEST: usize = FIELDS + START + BYTES;

// The little-endian number at bytes i and i + 1.
pub fn read_word(d: &[u8], i: usize) -> u32
    requires { i + 1 < length d.now }
    ensures { result ≡ word d.now i }
{
    d[i] as u32 + 256 * (d[i + 1] as u32)
}

// The record at the beginning of some bytes.
pub fn record_in(bytes: &[u8]) -> &[u8]
    requires { 2 ≤ length bytes.now }
    ensures { result.now ≡ record_in bytes.now }
{
    let size = (read_word(bytes, 0) as usize).min(bytes.len());
    &bytes[..size]
}

// Whether descriptions of a kind have a start value.
fn has_start(kind: u32) -> bool
    ensures { result ≡ has_start kind }
{
    kind == 4
}

// Whether records of a kind are descriptions.
pub fn is_description(kind: u32) -> bool
    ensures { result ≡ is_description kind }
{
    kind == 1 || has_start(kind)
}

// How many bytes the start value takes in a description of a kind.
fn start_size(kind: u32) -> usize
    ensures { result ≡ cond (has_start kind) 2 0 }
{
    if has_start(kind) { START } else { 0 }
}

// The index of the first byte of the mask, in a description of a kind.
fn mask_at(kind: u32) -> usize
    ensures { result ≡ mask_at kind }
{
    FIELDS + start_size(kind)
}

// The mask of a description: its bytes after the fixed fields.
pub fn mask_of(d: &[u8]) -> &[u8]
    requires { mask_at (word d.now 2) ≤ length d.now }
    ensures { result.now ≡ mask_of d.now }
{
    let at = mask_at(read_word(d, 2));
    &d[at..]
}

// The start value of a description; 0 if its kind has none.
fn start_of(d: &[u8]) -> u32
    requires { mask_at (word d.now 2) ≤ length d.now }
    ensures { result ≡ start_of d.now }
{
    if has_start(read_word(d, 2)) {
        return read_word(d, 8);
    }
    0
}

// Whether a bit at r or above is set.
fn is_wide(x: u32, r: u32) -> bool
    requires { r < 32 }
    ensures { result ≡ is_wide x r }
{
    x >> r != 0
}

// Whether bit 0 is clear, or a bit at r or above is set.
fn is_bad_polynomial(p: u32, r: u32) -> bool
    requires { r < 32 }
    ensures { result ≡ bad_polynomial p r }
{
    p & 1 == 0 || is_wide(p, r)
}

// Whether a slice has fewer bytes than the fields of its kind.
fn is_short(d: &[u8]) -> bool
    ensures { result ≡ ltb (length d.now) (mask_at (word d.now 2)) }
{
    d.len() < FIELDS || d.len() < mask_at(read_word(d, 2))
}

// Refusals 1 to 5, of sizes and kind.
fn judge_layout(d: &[u8]) -> Result<(), Refusal>
    ensures { result ≡ judge (take 5 (description_refusals d.now)) }
{
    if is_short(d) {
        return Err(Refusal::FieldsMissing);
    }
    if read_word(d, 0) as usize != d.len() {
        return Err(Refusal::LengthField);
    }
    let kind = read_word(d, 2);
    if !is_description(kind) {
        return Err(Refusal::UnknownKind);
    }
    let n = d[4] as u32;
    if refusal::is_outside(n as usize, 3, LARGEST_N as usize) {
        return Err(Refusal::CodeLength);
    }
    if d.len() != mask_at(kind) + (1usize << n) / 8 {
        return Err(Refusal::MaskLength);
    }
    Ok(())
}

// Refusals 6, 7 and 25, of the check's fields.
fn judge_check(d: &[u8]) -> Result<(), Refusal>
    requires { mask_at (word d.now 2) ≤ length d.now }
    ensures { result ≡ judge (take 3 (drop 5 (description_refusals d.now))) }
{
    let r = d[5] as u32;
    if refusal::is_outside(r as usize, 1, 16) {
        return Err(Refusal::CheckLength);
    }
    if is_bad_polynomial(read_word(d, 6), r) {
        return Err(Refusal::Polynomial);
    }
    if is_wide(start_of(d), r) {
        return Err(Refusal::StartValue);
    }
    Ok(())
}

// The answer if no field is refused: refusal 8, or the code.
fn read_code(d: &[u8]) -> Result<Code, Refusal>
    requires { Laid d.now }
    ensures { result ≡ past_fields d.now }
{
    let r = d[5] as usize;
    let count = bits::ones(mask_of(d));
    if count < r + 1 {
        return Err(Refusal::NoPayload);
    }
    Ok(Code {
        n: d[4] as u32,
        r: d[5] as u32,
        polynomial: read_word(d, 6),
        start: start_of(d),
        k: count - r,
    })
}

// Reads a description: its refusals in order, then its code.
pub fn read_description(d: &[u8]) -> Result<Code, Refusal>
    ensures { result ≡ describe d.now }
{
    judge_layout(d)?;
    judge_check(d)?;
    read_code(d)
}
