// The codec for host firmware in C; include/polar.h has the prototypes.
#![tactic(auto)]

ghost use Rattle.std.specs.Prelude.{◌≡◌};
ghost use Rattle.encoder.specs.Encode.{encoded};
ghost use Rattle.pass_resume.specs.Resume.{resumed};
ghost use Rattle.decoder.specs.Decoder.{decoded_full, decoded_half, decoded_restarted, sets_full, sets_half, sets_restarted};
ghost use Rattle.hearing_buffer.specs.Lent.{opened_in, added_in, cleared_in, full_in, restarted_in};
ghost use Rattle.hearing_preview.specs.Preview.{previewed_in};
ghost use Rattle.polar_number.specs.Number.{numbered, encoded_parts, resumed_parts, decoded_parts, kept_parts};

use flip_run::Terms;
use flip_trial::Restart;
use polar_number::answer_number;

#[unsafe(no_mangle)]
pub extern "C" fn polar_encode(description: &[u8], payload: &[u8], codeword: &mut [u8]) -> u64
    ensures { (result, codeword.new)
        ≡ numbered encoded_parts (encoded description.now payload.now codeword.old) }
{
    answer_number(encoder::encode(description, payload, codeword))
}

#[unsafe(no_mangle)]
pub extern "C" fn polar_resume(
    description: &[u8],
    channel: &[u8],
    prefix: &[u8],
    bits: &mut [u8],
) -> u64
    ensures { (result, bits.new)
        ≡ numbered resumed_parts (resumed description.now channel.now prefix.now bits.old) }
{
    answer_number(pass_resume::resume(description, channel, prefix, bits))
}

#[unsafe(no_mangle)]
pub extern "C" fn polar_decode_full(
    description: &[u8],
    channel: &[u8],
    limit: u32,
    payload: &mut [u8],
) -> u64
    ensures { (result, payload.new)
        ≡ numbered decoded_parts (decoded_full description.now channel.now limit payload.old) }
{
    answer_number(flip_decoder::decode_full(description, channel, limit, payload))
}

#[unsafe(no_mangle)]
pub extern "C" fn polar_decode_half(
    description: &[u8],
    channel: &[u8],
    limit: u32,
    payload: &mut [u8],
) -> u64
    ensures { (result, payload.new)
        ≡ numbered decoded_parts (decoded_half description.now channel.now limit payload.old) }
{
    answer_number(flip_decoder::decode_half(description, channel, limit, payload))
}

#[unsafe(no_mangle)]
pub extern "C" fn polar_decode_restarted(
    description: &[u8],
    channel: &[u8],
    limit: u32,
    payload: &mut [u8],
) -> u64
    ensures { (result, payload.new)
        ≡ numbered decoded_parts (decoded_restarted description.now channel.now limit payload.old) }
{
    answer_number(flip_decoder::decode_restarted(description, channel, limit, payload))
}

#[unsafe(no_mangle)]
pub extern "C" fn polar_decode_sets_full(
    description: &[u8],
    channel: &[u8],
    w: u32,
    limit: u32,
    payload: &mut [u8],
) -> u64
    ensures { (result, payload.new)
        ≡ numbered decoded_parts (sets_full description.now channel.now w limit payload.old) }
{
    answer_number(sets_decoder::decode_sets_full(description, channel, w, limit, payload))
}

#[unsafe(no_mangle)]
pub extern "C" fn polar_decode_sets_half(
    description: &[u8],
    channel: &[u8],
    w: u32,
    limit: u32,
    payload: &mut [u8],
) -> u64
    ensures { (result, payload.new)
        ≡ numbered decoded_parts (sets_half description.now channel.now w limit payload.old) }
{
    answer_number(sets_decoder::decode_sets_half(description, channel, w, limit, payload))
}

#[unsafe(no_mangle)]
pub extern "C" fn polar_decode_sets_restarted(
    description: &[u8],
    channel: &[u8],
    w: u32,
    limit: u32,
    payload: &mut [u8],
) -> u64
    ensures { (result, payload.new)
        ≡ numbered decoded_parts (sets_restarted description.now channel.now w limit payload.old) }
{
    answer_number(sets_decoder::decode_sets_restarted(description, channel, w, limit, payload))
}

#[unsafe(no_mangle)]
pub extern "C" fn polar_hearing_open(description: &[u8], state: &mut [u8]) -> u64
    ensures { (result, state.new)
        ≡ numbered kept_parts (opened_in description.now state.old) }
{
    answer_number(hearing_buffer::open(description, state))
}

#[unsafe(no_mangle)]
pub extern "C" fn polar_hearing_add(state: &mut [u8], channel: &[u8]) -> u64
    ensures { (result, state.new)
        ≡ numbered kept_parts (added_in state.old channel.now) }
{
    answer_number(hearing_buffer::add(state, channel))
}

#[unsafe(no_mangle)]
pub extern "C" fn polar_hearing_clear(state: &mut [u8]) -> u64
    ensures { (result, state.new)
        ≡ numbered kept_parts (cleared_in state.old) }
{
    answer_number(hearing_buffer::clear(state))
}

#[unsafe(no_mangle)]
pub extern "C" fn polar_hearing_decode_full(state: &[u8], limit: u32, payload: &mut [u8]) -> u64
    ensures { (result, payload.new)
        ≡ numbered decoded_parts (full_in state.now limit payload.old) }
{
    let full = Terms {
        restart: Restart::Root,
        limit,
    };
    answer_number(hearing_buffer::decode(full, state, payload))
}

#[unsafe(no_mangle)]
pub extern "C" fn polar_hearing_decode_restarted(
    state: &[u8],
    limit: u32,
    payload: &mut [u8],
) -> u64
    ensures { (result, payload.new)
        ≡ numbered decoded_parts (restarted_in state.now limit payload.old) }
{
    let restarted = Terms {
        restart: Restart::AfterFlip,
        limit,
    };
    answer_number(hearing_buffer::decode(restarted, state, payload))
}

#[unsafe(no_mangle)]
pub extern "C" fn polar_hearing_preview(
    state: &[u8],
    channel: &[u8],
    limit: u32,
    payload: &mut [u8],
) -> u64
    ensures { ((result, payload.new)
        ≡ numbered decoded_parts (previewed_in state.now channel.now limit payload.old))
        × (state.exit.now ≡ state.entry.now) }
{
    answer_number(hearing_preview::preview_in(state, channel, limit, payload))
}
