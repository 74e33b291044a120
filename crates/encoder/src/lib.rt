// The encoder.
#![tactic(auto)]

ghost use Rattle.std.specs.Prelude.{◌≡◌, ◌^◌, length};
ghost use Rattle.refusal.specs.Judge.{differs, judge};
ghost use Rattle.bits.specs.Packing.{bytes_for, packed, unpacked, unused_bits};
ghost use Rattle.transform.specs.Transform.{transformed};
ghost use Rattle.encoder.specs.Encode.{message_of, codeword, encoding_refusals, encoded_by, encoded};
ghost use Rattle.encoder.specs.Clauses.{MessagePre, PayloadPre, placed_message, TransformPre};
ghost use Rattle.encoder.specs.Claims.{WellFormed};

use arrays::{ByteArray, SIZE};
use code::Code;
use code_mask::MaskedCode;
use refusal::Refusal;

// The message of a payload: its k bits, then its r check bits.
fn message_of(code: Code, payload: &[u8], message: &mut [u8])
    requires { MessagePre code payload.now message.old }
    ensures { message.new ≡ message_of code (unpacked payload.now code.k) }
{
    let k = code.k;
    bits::unpack(payload, &mut message[..k]);
    crc::append_check(message, k, code.r, code.polynomial, code.start);
}

// Places the message of a payload by the mask, packed; the message is made in `room`.
fn place_message(masked: &MaskedCode, payload: &[u8], room: &mut [u8], output: &mut [u8])
    requires { PayloadPre masked.now.code payload.now room.old output.old }
    ensures { output.new ≡ packed (placed_message masked.now.mask.now masked.now.code payload.now) }
{
    let code = masked.code;
    let size = code.k + code.r as usize;
    message_of(code, payload, &mut room[..size]);
    placing::place(masked.mask, room, output);
}

// Transforms the 2^n packed bits of the output, in `room`, and puts them back.
fn transform_in(n: u32, room: &mut ByteArray, output: &mut [u8])
    requires { TransformPre SIZE n room.old output.old }
    ensures { output.new ≡ packed (transformed n (unpacked output.old (2 ^ n))) }
{
    let size = output.len();
    arrays::copy(output, 0, room, 0, size);
    transform::transform_packed(n - 3, size, room);
    arrays::copy(room, 0, output, 0, size);
}

// The codeword of a payload: its message is placed, then transformed. One array has room for the message, and then for the transform.
fn write_codeword(masked: &MaskedCode, payload: &[u8], output: &mut [u8])
    requires { WellFormed masked.now.code payload.now output.old }
    ensures { output.new ≡ codeword masked.now.mask.now masked.now.code payload.now }
{
    let mut room = [0u8; SIZE];
    place_message(masked, payload, &mut room, output);
    transform_in(masked.code.n, &mut room, output);
}

// Whether an unused low bit of the last payload byte is set.
fn has_unused_bit(payload: &[u8], k: usize) -> bool
    requires { length payload.now ≡ bytes_for k }
    ensures { result ≡ differs (unused_bits payload.now k) 0 }
{
    if k % 8 == 0 {
        return false;
    }
    payload[k / 8] % (1u8 << (8 - k % 8)) != 0
}

// Judges a payload and an output: refusals 9 to 11.
fn judge_encoding(masked: &MaskedCode, payload: &[u8], output: &[u8]) -> Result<(), Refusal>
    ensures { result ≡ judge (encoding_refusals masked.now.code payload.now output.now) }
{
    let k = masked.code.k;
    if payload.len() != bits::bytes_for(k) {
        return Err(Refusal::PayloadLength);
    }
    if has_unused_bit(payload, k) {
        return Err(Refusal::UnusedBit);
    }
    let size = masked.mask.len();
    if output.len() != size {
        return Err(Refusal::CodewordLength);
    }
    Ok(())
}

// Encodes a payload under a code. If the call is refused nothing is written.
fn encode_by(masked: &MaskedCode, payload: &[u8], output: &mut [u8]) -> Result<(), Refusal>
    ensures { (result, output.new)
        ≡ encoded_by masked.now.mask.now masked.now.code payload.now output.old }
{
    judge_encoding(masked, payload, output)?;
    write_codeword(masked, payload, output);
    Ok(())
}

// Encodes a payload into the packed codeword. If the call is refused nothing is written.
pub fn encode(description: &[u8], payload: &[u8], output: &mut [u8]) -> Result<(), Refusal>
    ensures { (result, output.new) ≡ encoded description.now payload.now output.old }
{
    let masked = code_mask::read(description)?;
    encode_by(&masked, payload, output)
}
