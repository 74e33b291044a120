// A vector that is tried before it is kept: an add to a copy of the values in a buffer, and restarted decoding of the sums.
#![tactic(auto)]

ghost use Rattle.std.specs.Prelude.{◌≡◌, Ok};
ghost use Rattle.hearing.specs.Hearing.{added_to};
ghost use Rattle.hearing_state.specs.State.{code_of_state, with_hearing, decoded_held_with};
ghost use Rattle.hearing_buffer.specs.Lent.{state_in};
ghost use Rattle.hearing_preview.specs.Preview.{previewed_in};
ghost use Rattle.hearing_preview.specs.Clauses.{MayAdd};

use arrays::SIZE;
use code::{Code, LONGEST};
use flip_run::{DecodingError, Tally, Terms};
use flip_trial::Restart;
use hearing_buffer::VALUES_AT;

// Adds a vector to a copy of the values in a buffer, and decodes the sums.
fn decode_sums(
    code: Code,
    buffer: &[u8],
    channel: &[u8],
    limit: u32,
    output: &mut [u8],
) -> Result<Tally, DecodingError>
    requires { MayAdd code buffer.now channel.now }
    ensures { (result, output.new)
        ≡ decoded_held_with Restart.AfterFlip (with_hearing (state_in buffer.now)
        (added_to code (state_in buffer.now).hearing channel.now)) limit output.old }
{
    let restarted = Terms {
        restart: Restart::AfterFlip,
        limit,
    };
    let mut values = [0u8; SIZE];
    arrays::copy(buffer, VALUES_AT, &mut values, 0, channel.len());
    hearing::add_values(&mut values, channel);
    hearing_state::decode_values(restarted, code, &buffer[..LONGEST], &values, output)
}

// Previews an add under the code of the state.
fn preview_under(
    code: Code,
    buffer: &[u8],
    channel: &[u8],
    limit: u32,
    output: &mut [u8],
) -> Result<Tally, DecodingError>
    requires { code_of_state (state_in buffer.now) ≡ Ok code }
    ensures { (result, output.new)
        ≡ previewed_in buffer.now channel.now limit output.old }
{
    let at = LONGEST;
    hearing::judge_add(code, buffer[at], channel)?;
    decode_sums(code, buffer, channel, limit, output)
}

// Previews an add to the hearing in a buffer, which is only read and holds afterwards what it held.
pub fn preview_in(
    buffer: &[u8],
    channel: &[u8],
    limit: u32,
    output: &mut [u8],
) -> Result<Tally, DecodingError>
    ensures { ((result, output.new) ≡ previewed_in buffer.now channel.now limit output.old)
        × (buffer.exit.now ≡ buffer.entry.now) }
{
    let code = hearing_buffer::code_in(buffer)?;
    preview_under(code, buffer, channel, limit, output)
}
