// What is kept of a frame that is heard more than once, by its parts: the code of a state, and decoding of its values.
#![tactic(auto)]

ghost use Rattle.std.specs.Prelude.{◌≡◌, ◌≤◌, length, take, drop};
ghost use Rattle.arrays.specs.Sizes.{largest_n};
ghost use Rattle.arrays.specs.Padded.{all_zero};
ghost use Rattle.code.specs.Code.{code_length};
ghost use Rattle.code.specs.Description.{describe};
ghost use Rattle.code.specs.Record.{record_in};
ghost use Rattle.decoder.specs.Decoder.{single, decoded_as};
ghost use Rattle.hearing_state.specs.State.{is_state, code_of_state};
ghost use Rattle.hearing_state.specs.Clauses.{state_by, StatePre, DecodePre};

use code::Code;
use flip_decoder::Single;
use flip_run::{DecodingError, Tally, Terms};
use refusal::Refusal;

// The description at the start of these bytes.
fn described_in(bytes: &[u8]) -> Result<Code, Refusal>
    requires { 2 ≤ length bytes.now }
    ensures { result ≡ describe (record_in bytes.now) }
{
    code::read_description(code::record_in(bytes))
}

// Whether only zeros follow the description at the start of these bytes.
fn ends_in_zeros(bytes: &[u8]) -> bool
    requires { 2 ≤ length bytes.now }
    ensures { result ≡ all_zero (drop (length (record_in bytes.now)) bytes.now) }
{
    arrays::is_zero_from(bytes, code::record_in(bytes).len())
}

// Whether a list of calls can leave a state with these parts, under the code that it describes.
fn is_state(code: Code, description: &[u8], count: u8, values: &[u8]) -> bool
    requires { (code.n ≤ largest_n)
        × StatePre description.now values.now }
    ensures { result ≡ is_state code (state_by description.now count values.now) }
{
    if ends_in_zeros(description) {
        return hearing::is_hearing(code, count, values);
    }
    false
}

// The code of a state given by its parts, or refusal 40.
pub fn code_by(description: &[u8], count: u8, values: &[u8]) -> Result<Code, Refusal>
    requires { StatePre description.now values.now }
    ensures { result ≡ code_of_state (state_by description.now count values.now) }
{
    match described_in(description) {
        Ok(code) => {
            if is_state(code, description, count, values) {
                return Ok(code);
            }
            Err(Refusal::NotAState)
        }
        Err(_) => Err(Refusal::NotAState),
    }
}

// Decodes the first values under a code. `decode_by` serves all decoders, so it judges once more that the values lie in −31..31.
pub fn decode_values(
    terms: Terms,
    code: Code,
    bytes: &[u8],
    values: &[u8],
    output: &mut [u8],
) -> Result<Tally, DecodingError>
    requires { DecodePre code bytes.now values.now }
    ensures { (result, output.new)
        ≡ decoded_as (single terms.limit) terms.restart (record_in bytes.now)
        (take (code_length code) values.now) output.old }
{
    let size = 1usize << code.n;
    decoder::decode_by(
        Single(terms),
        code::mask_of(code::record_in(bytes)),
        code,
        &values[..size],
        output,
    )
}
