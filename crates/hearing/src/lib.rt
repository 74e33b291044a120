// The combined values of a frame that is heard more than once: sums, the refusals of an add, and the test of values and count.
#![tactic(auto)]

ghost use Rattle.std.specs.Prelude.{◌≡◌, ◌^◌, ◌≤◌, eqb, nat_abs, length, take};
ghost use Rattle.laws.specs.Clauses.{splice};
ghost use Rattle.refusal.specs.Judge.{judge};
ghost use Rattle.arrays.specs.Sizes.{largest_n};
ghost use Rattle.channel.specs.Channel.{channel_value, first_outside};
ghost use Rattle.hearing.specs.Hearing.{clipped_sums, add_refusals, is_hearing};
ghost use Rattle.hearing.specs.Clauses.{clipped_sum, zero_from, AddPre, hearing_by};

use code::Code;
use refusal::Refusal;

// The sum of two values, clipped to −31..31.
fn clipped_sum(a: u8, b: u8) -> u8
    requires { (nat_abs (channel_value a) ≤ 31)
        × (nat_abs (channel_value b) ≤ 31) }
    ensures { result ≡ clipped_sum a b }
{
    let sum = a.cast_signed() + b.cast_signed();
    sum.clamp(-31, 31).cast_unsigned()
}

// Adds a vector to the first values, value by value. They are written by index: a proof knows nothing of what an `iter_mut().zip` wrote.
pub fn add_values(values: &mut [u8], channel: &[u8])
    requires { AddPre values.old channel.now }
    ensures { values.new
        ≡ splice values.old 0 (clipped_sums (length channel.now) values.old channel.now) }
{
    for (i, value) in channel.iter().enumerate() {
        values[i] = clipped_sum(values[i], *value);
    }
}

// Refusals 12, 13 and 27.
pub fn judge_add(code: Code, count: u8, channel: &[u8]) -> Result<(), Refusal>
    requires { code.n ≤ largest_n }
    ensures { result ≡ judge (add_refusals code count channel.now) }
{
    channel::judge_channel(code, channel)?;
    if count == 255 {
        return Err(Refusal::HearingFull);
    }
    Ok(())
}

// The index from which on all values of a hearing are zero.
fn zero_from(code: Code, count: u8) -> usize
    requires { code.n ≤ largest_n }
    ensures { result ≡ zero_from code count }
{
    if count == 0 {
        return 0;
    }
    1usize << code.n
}

// Whether the first values lie in −31..31.
fn are_inside(values: &[u8], size: usize) -> bool
    requires { size ≤ length values.now }
    ensures { result ≡ eqb (first_outside (take size values.now)) size }
{
    channel::are_inside(&values[..size])
}

// Whether a list of adds and clears can leave a hearing with this count and these values.
pub fn is_hearing(code: Code, count: u8, values: &[u8]) -> bool
    requires { (code.n ≤ largest_n)
        × (length values.now ≡ 2 ^ largest_n) }
    ensures { result ≡ is_hearing code (hearing_by count values.now) }
{
    if arrays::is_zero_from(values, zero_from(code, count)) {
        return are_inside(values, 1usize << code.n);
    }
    false
}
