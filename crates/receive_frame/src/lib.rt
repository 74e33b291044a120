// The line of a channel record: restarted decoding under the description that is held.
#![tactic(auto)]

ghost use Rattle.std.specs.Prelude.{◌≤◌, length};
ghost use Rattle.refusal.specs.Judge.{number_of};
ghost use Rattle.code.specs.Claims.{Coded};
ghost use Rattle.flip_trial.specs.declared.Restart.TheVariants.{AfterFlip};
ghost use Rattle.decoder.specs.Decoder.{single, decoded_under};
ghost use Rattle.receive_lines.specs.Line.{no_line};
ghost use Rattle.receive_lines.specs.Clauses.{PutPost};
ghost use Rattle.receive_frame.specs.Clauses.{line_of_answer};
ghost use Rattle.receive_frame.specs.Frame.{answer_line, decoding_line, channel_line};

use arrays::BYTES;
use code::Code;
use flip_decoder::Single;
use flip_run::{DecodingError, Tally, Terms};
use flip_trial::Restart;
use receive_lines::LINE;
use refusal::Refusal;

// The line of a refusal: its number alone.
pub fn put_refusal(line: &mut [u8], refused: Refusal) -> usize
    requires { LINE ≤ length line.old }
    ensures { PutPost line.old 0 (no_line (number_of refused)) line.new result }
{
    receive_lines::put_line(line, b"no", refused.number() as u64)
}

// The line of a decoder's answer and the payload that it wrote.
fn put_answer(line: &mut [u8], answer: Result<Tally, DecodingError>, payload: &[u8]) -> usize
    requires { (length payload.now ≤ BYTES) × (LINE ≤ length line.old) }
    ensures { PutPost line.old 0 (answer_line answer payload.now) line.new result }
{
    match answer {
        Ok(passed) => receive_lines::put_ok(
            line,
            passed.trials as u64,
            passed.steps as u64,
            payload,
        ),
        Err(DecodingError::NonePassed(_)) => receive_lines::put_line(line, b"no", 16),
        Err(DecodingError::Refused(x)) => put_refusal(line, x),
    }
}

// The line of restarted decoding under a code, whose payload is written to `payload`.
fn put_decoded(
    line: &mut [u8],
    mask: &[u8],
    code: Code,
    channel: &[u8],
    limit: u32,
    payload: &mut [u8],
) -> usize
    requires { Coded mask.now code
        × (length payload.old ≤ BYTES)
        × (LINE ≤ length line.old) }
    ensures { PutPost line.old 0
        (line_of_answer (decoded_under (single limit) AfterFlip mask.now code channel.now payload.old))
        line.new result }
{
    let terms = Terms {
        restart: Restart::AfterFlip,
        limit,
    };
    let answer = decoder::decode_by(Single(terms), mask, code, channel, payload);
    put_answer(line, answer, payload)
}

// The line of restarted decoding under the held description.
fn put_decoding(line: &mut [u8], held: &[u8], channel: &[u8], limit: u32) -> usize
    requires { LINE ≤ length line.old }
    ensures { PutPost line.old 0 (decoding_line held.now channel.now limit) line.new result }
{
    match code::read_description(held) {
        Ok(code) => {
            let mut payload = [0u8; BYTES];
            let size = bits::bytes_for(code.k);
            let mask = code::mask_of(held);
            put_decoded(line, mask, code, channel, limit, &mut payload[..size])
        }
        Err(x) => put_refusal(line, x),
    }
}

// The line of a channel record.
pub fn put_channel(line: &mut [u8], held: &[u8], bytes: &[u8]) -> usize
    requires { LINE ≤ length line.old }
    ensures { PutPost line.old 0 (channel_line held.now bytes.now) line.new result }
{
    if held.len() == 0 {
        return put_refusal(line, Refusal::NoDescription);
    }
    if bytes.len() < 6 {
        return put_refusal(line, Refusal::ShortRecord);
    }
    let limit = code::read_word(bytes, 4);
    put_decoding(line, held, &bytes[6..], limit)
}
