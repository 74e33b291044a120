// Resume: one decoding pass whose first bits are given.
#![tactic(auto)]

ghost use Rattle.std.specs.Prelude.{◌≡◌, ◌*◌, ◌≤◌, length};
ghost use Rattle.refusal.specs.Judge.{judge};
ghost use Rattle.pass_resume.specs.Resume.{first_bad, resuming_refusals, resumed_by, resumed};
ghost use Rattle.pass_resume.specs.Clauses.{bad_bit, resume_pass, prefix_refusals};
ghost use Rattle.pass_resume.specs.Claims.{WellFormed};

use arrays::{BitArray, SIZE};
use code_mask::MaskedCode;
use pass_tree::Work;
use refusal::Refusal;

// Whether a prefix byte is other than 0 or 1, or a 1 at a frozen index, which the mask does not mark.
fn is_bad(byte: u8, marked: u8) -> bool
    ensures { result ≡ bad_bit byte marked }
{
    1 < byte || byte == 1 && marked == 0
}

// The first index of a bad prefix byte, or the prefix's length.
fn first_bad(mask: &[u8], prefix: &[u8]) -> usize
    requires { length prefix.now ≤ 8 * length mask.now }
    ensures { result ≡ first_bad mask.now prefix.now }
{
    for (i, byte) in prefix.iter().enumerate() {
        if is_bad(*byte, bits::mask_bit(mask, i)) {
            return i;
        }
    }
    prefix.len()
}

// The pass of an accepted call, whose bits are put in `bits` and then in the output.
fn resume_pass(
    masked: &MaskedCode,
    channel: &[u8],
    prefix: &[u8],
    bits: &mut BitArray,
    output: &mut [u8],
) -> Work
    requires { WellFormed masked.now.mask.now masked.now.code channel.now prefix.now output.old
        × (length bits.old ≡ SIZE) }
    ensures { (result ≡ (resume_pass masked.now.mask.now masked.now.code channel.now prefix.now).work)
        × (output.new ≡ (resume_pass masked.now.mask.now masked.now.code channel.now prefix.now).bits) }
{
    let mut rules = [0u8; SIZE];
    let mut work = [0i32; SIZE];
    let mut sums = [0u8; SIZE];
    let mut leaves = [0i32; SIZE];
    pass::rules_from(masked.mask, &mut rules);
    arrays::copy(prefix, 0, bits, 0, prefix.len());
    let done = pass::pass(
        masked.code,
        prefix.len(),
        channel,
        &rules,
        &mut work,
        bits,
        &mut sums,
        &mut leaves,
    );
    arrays::copy(bits, 0, output, 0, channel.len());
    done
}

// Refusals 17 to 19.
fn judge_prefix(masked: &MaskedCode, prefix: &[u8], output: &[u8]) -> Result<(), Refusal>
    ensures { result ≡ judge (prefix_refusals masked.now.mask.now masked.now.code prefix.now output.now) }
{
    let size = 1usize << masked.code.n;
    if size < prefix.len() {
        return Err(Refusal::PrefixLength);
    }
    let index = first_bad(masked.mask, prefix);
    if index < prefix.len() {
        return Err(Refusal::PrefixBit(index));
    }
    if output.len() != size {
        return Err(Refusal::BitsLength);
    }
    Ok(())
}

// Refusals 12, 13 and 17 to 19.
fn judge_resuming(
    masked: &MaskedCode,
    channel: &[u8],
    prefix: &[u8],
    output: &[u8],
) -> Result<(), Refusal>
    ensures { result
        ≡ judge (resuming_refusals masked.now.mask.now masked.now.code channel.now prefix.now output.now) }
{
    channel::judge_channel(masked.code, channel)?;
    judge_prefix(masked, prefix, output)
}

// Resume under a code.
fn resume_by(
    masked: &MaskedCode,
    channel: &[u8],
    prefix: &[u8],
    bits: &mut BitArray,
    output: &mut [u8],
) -> Result<Work, Refusal>
    requires { length bits.old ≡ SIZE }
    ensures { (result, output.new)
        ≡ resumed_by masked.now.mask.now masked.now.code channel.now prefix.now output.old }
{
    judge_resuming(masked, channel, prefix, output)?;
    Ok(resume_pass(masked, channel, prefix, bits, output))
}

// All N bits of a pass whose first bits are the prefix, one a byte. The array of bits is made first: DECISIONS.md, "Large frames", says why.
pub fn resume(
    description: &[u8],
    channel: &[u8],
    prefix: &[u8],
    output: &mut [u8],
) -> Result<Work, Refusal>
    ensures { (result, output.new) ≡ resumed description.now channel.now prefix.now output.old }
{
    let mut bits = [0u8; SIZE];
    let masked = code_mask::read(description)?;
    resume_by(&masked, channel, prefix, &mut bits, output)
}
