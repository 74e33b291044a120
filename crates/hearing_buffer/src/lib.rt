// A state in a buffer that the caller lends, and the operations on it. Open, add and clear answer how many vectors the state now holds the sums of; if a
// call is refused the buffer is as it was.
#![tactic(auto)]

ghost use Rattle.std.specs.Prelude.{◌≡◌, ◌++◌, ◌-◌, ◌≤◌, length, take, replicate, Ok};
ghost use Rattle.code.specs.Code.{longest_description};
ghost use Rattle.decoder.specs.Decoder.{single, decoded_as};
ghost use Rattle.hearing.specs.Hearing.{fresh, combined};
ghost use Rattle.hearing_state.specs.State.{state_of, description_of, code_of_state, decoded_held_with};
ghost use Rattle.hearing_state.specs.Clauses.{added_under};
ghost use Rattle.hearing_buffer.specs.Lent.{hearing_size, bytes_of, state_in, answer_in, opened_in, added_in, cleared_in};

use arrays::SIZE;
use code::{Code, LONGEST};
use flip_run::{DecodingError, Tally, Terms};
use refusal::Refusal;

// The index of the first value in a buffer.
pub const VALUES_AT: usize = LONGEST + 1;

// The size of a buffer.
const HEARING_SIZE: usize = VALUES_AT + SIZE;

// Puts zeros from an index on.
fn clear_from(buffer: &mut [u8], start: usize)
    requires { start ≤ length buffer.old }
    ensures { buffer.new
        ≡ take start buffer.old ++ replicate (length buffer.old - start) 0 }
{
    buffer[start..].fill(0);
}

// Writes the description of a fresh hearing, and zeros after it.
fn write_fresh(description: &[u8], buffer: &mut [u8])
    requires { (length description.now ≤ longest_description)
        × (length buffer.old ≡ hearing_size) }
    ensures { buffer.new ≡ bytes_of (state_of description.now fresh) }
{
    arrays::copy(description, 0, buffer, 0, description.len());
    clear_from(buffer, description.len());
}

// Opens a hearing in a buffer.
pub fn open(description: &[u8], buffer: &mut [u8]) -> Result<u8, Refusal>
    ensures { (result, buffer.new) ≡ opened_in description.now buffer.old }
{
    if buffer.len() != HEARING_SIZE {
        return Err(Refusal::NotAState);
    }
    code::read_description(description)?;
    write_fresh(description, buffer);
    Ok(0)
}

// The code of the state in a buffer, or refusal 40.
pub fn code_in(buffer: &[u8]) -> Result<Code, Refusal>
    ensures { result ≡ code_of_state (state_in buffer.now) }
{
    if buffer.len() == HEARING_SIZE {
        return hearing_state::code_by(&buffer[..LONGEST], buffer[LONGEST], &buffer[VALUES_AT..]);
    }
    Err(Refusal::NotAState)
}

// Adds a vector under the code of the state, in place: no byte of the buffer changes but its values and count.
fn add_under(code: Code, buffer: &mut [u8], channel: &[u8]) -> Result<u8, Refusal>
    requires { code_of_state (state_in buffer.old) ≡ Ok code }
    ensures { (result, buffer.new)
        ≡ answer_in (added_under code (state_in buffer.old) channel.now) buffer.old }
{
    let at = LONGEST;
    let count = buffer[at];
    hearing::judge_add(code, count, channel)?;
    hearing::add_values(&mut buffer[VALUES_AT..], channel);
    buffer[at] = count + 1;
    Ok(count + 1)
}

// Adds a vector to the hearing in a buffer.
pub fn add(buffer: &mut [u8], channel: &[u8]) -> Result<u8, Refusal>
    ensures { (result, buffer.new) ≡ added_in buffer.old channel.now }
{
    let code = code_in(buffer)?;
    add_under(code, buffer, channel)
}

// Clears the hearing in a buffer: its count, and its values, which follow the count.
pub fn clear(buffer: &mut [u8]) -> Result<u8, Refusal>
    ensures { (result, buffer.new) ≡ cleared_in buffer.old }
{
    code_in(buffer)?;
    clear_from(buffer, LONGEST);
    Ok(0)
}

// Decodes the values in a buffer under the code of its state.
fn decode_under(
    terms: Terms,
    code: Code,
    buffer: &[u8],
    output: &mut [u8],
) -> Result<Tally, DecodingError>
    requires { code_of_state (state_in buffer.now) ≡ Ok code }
    ensures { (result, output.new)
        ≡ decoded_as (single terms.limit) terms.restart (description_of (state_in buffer.now))
        (combined code (state_in buffer.now).hearing) output.old }
{
    hearing_state::decode_values(
        terms,
        code,
        &buffer[..LONGEST],
        &buffer[VALUES_AT..],
        output,
    )
}

// Decodes the hearing in a buffer. Its values are not copied.
pub fn decode(terms: Terms, buffer: &[u8], output: &mut [u8]) -> Result<Tally, DecodingError>
    ensures { (result, output.new) ≡ decoded_held_with terms.restart (state_in buffer.now) terms.limit output.old }
{
    let code = code_in(buffer)?;
    decode_under(terms, code, buffer, output)
}
