// Channel values: bytes in two's complement, their range, and refusals 12 and 13.
#![tactic(auto)]

ghost use Rattle.std.specs.Prelude.{◌≡◌, not, ◌≤◌, ltb, eqb, nat_abs, length};
ghost use Rattle.refusal.specs.Judge.{judge};
ghost use Rattle.arrays.specs.Sizes.{largest_n};
ghost use Rattle.channel.specs.Channel.{channel_value, first_outside, channel_refusals};

use code::Code;
use refusal::Refusal;

// The largest magnitude of a channel value.
const LARGEST: u32 = 31;

// A channel byte in two's complement.
pub fn channel_value(byte: u8) -> i32
    ensures { result ≡ channel_value byte }
{
    i32::from(byte.cast_signed())
}

// Whether a byte is a value in −31..31.
fn is_inside(byte: u8) -> bool
    ensures { result ≡ not (ltb 31 (nat_abs (channel_value byte))) }
{
    byte.wrapping_add(31) < 63
}

// Whether all values lie in −31..31. No branch depends on a value: the loop takes many at once.
pub fn are_inside(channel: &[u8]) -> bool
    ensures { result ≡ eqb (first_outside channel.now) (length channel.now) }
{
    let mut inside = true;
    for byte in channel {
        inside &= is_inside(*byte);
    }
    inside
}

// The first index of a channel value outside −31..31, or the channel's length if there is none: value by value.
fn find_outside(channel: &[u8]) -> usize
    ensures { result ≡ first_outside channel.now }
{
    channel
        .iter()
        .position(|byte| LARGEST < channel_value(*byte).unsigned_abs())
        .unwrap_or(channel.len())
}

// The first index of a channel value outside −31..31, or the channel's length if there is none. Most channels have none, so all values are
// tested at once before one is searched for.
fn first_outside(channel: &[u8]) -> usize
    ensures { result ≡ first_outside channel.now }
{
    if are_inside(channel) {
        return channel.len();
    }
    find_outside(channel)
}

// Judges a channel: refusals 12 and 13.
pub fn judge_channel(code: Code, channel: &[u8]) -> Result<(), Refusal>
    requires { code.n ≤ largest_n }
    ensures { result ≡ judge (channel_refusals code channel.now) }
{
    if channel.len() != 1usize << code.n {
        return Err(Refusal::ChannelLength);
    }
    let index = first_outside(channel);
    if index < channel.len() {
        return Err(Refusal::ChannelValue(index));
    }
    Ok(())
}
