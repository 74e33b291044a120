// The sample quantiser: samples times a scale, as channel values in quarter units.
#![tactic(auto)]

ghost use Rattle.std.specs.Prelude.{◌≡◌, Ok};
ghost use Rattle.refusal.specs.Judge.{judge};
ghost use Rattle.quantiser.specs.Quantise.{larger, valid_scale, first_nan, quantising_refusals, quantised};
ghost use Rattle.quantiser.specs.Clauses.{accepted};
ghost use Rattle.quantiser.specs.Claims.{WellFormed};

use quantiser_level::quantise_one;
use refusal::Refusal;

// What is reported of the products.
#[derive(Clone, Copy)]
pub struct Summary {
    // the largest magnitude
    pub peak: f32,
    // how many products were clipped
    pub clipped: usize,
}

// The larger of two floats.
fn larger_of(a: f32, b: f32) -> f32
    ensures { result ≡ larger a b }
{
    if b < a { a } else { b }
}

// Writes the byte of every sample. Returns the summary of the products. The bytes are written by index: a proof knows nothing of what an
// `iter_mut().zip` wrote.
fn fill(scale: f32, samples: &[f32], output: &mut [u8]) -> Summary
    requires { WellFormed scale samples.now output.old }
    ensures { (Ok result, output.new) ≡ accepted scale samples.now }
{
    let mut peak = 0.0f32;
    let mut clipped = 0usize;
    for (i, y) in samples.iter().enumerate() {
        let level = quantise_one(scale, *y);
        output[i] = level.byte;
        clipped += level.clipped;
        peak = larger_of(peak, level.magnitude);
    }
    Summary { peak, clipped }
}

// Whether a scale is finite and above zero.
fn is_valid(scale: f32) -> bool
    ensures { result ≡ valid_scale scale }
{
    if 0.0 < scale {
        scale < f32::from_bits(0x7f80_0000)
    } else {
        false
    }
}

// The index of the first sample that is not a number, or the length if there is none.
fn first_nan(samples: &[f32]) -> usize
    ensures { result ≡ first_nan samples.now }
{
    samples
        .iter()
        .position(|y| y.is_nan())
        .unwrap_or(samples.len())
}

// Judges a call: refusals 20 to 22.
fn judge_quantising(scale: f32, samples: &[f32], output: &[u8]) -> Result<(), Refusal>
    ensures { result ≡ judge (quantising_refusals scale samples.now output.now) }
{
    if samples.len() != output.len() {
        return Err(Refusal::SamplesLength);
    }
    if !is_valid(scale) {
        return Err(Refusal::Scale);
    }
    let index = first_nan(samples);
    if index < samples.len() {
        return Err(Refusal::NotANumber(index));
    }
    Ok(())
}

// Quantises samples to channel values, one byte each. If the call is refused nothing is written.
pub fn quantise(scale: f32, samples: &[f32], output: &mut [u8]) -> Result<Summary, Refusal>
    ensures { (result, output.new) ≡ quantised scale samples.now output.old }
{
    judge_quantising(scale, samples, output)?;
    Ok(fill(scale, samples, output))
}
