// What every flip decoder tries and answers: decoding by any kind of trials. The definitions are in specs/.
#![tactic(auto)]

ghost use Rattle.std.specs.Prelude.{◌≡◌, ◌≤◌};
ghost use Rattle.refusal.specs.Judge.{judge};
ghost use Rattle.arrays.specs.Sizes.{largest_n};
ghost use Rattle.arrays.specs.Claims.{longest};
ghost use Rattle.code.specs.Code.{information_count};
ghost use Rattle.code.specs.Claims.{Coded};
ghost use Rattle.flip_trial.specs.declared.Restart.{Restart};
ghost use Rattle.decoder.specs.Decoder.{Decoder, own_refusals, decoded_under, decoded_as};
ghost use Rattle.decoder.specs.Clauses.{output_refusals, JudgesCall, FinePre};

use code::Code;
use flip_run::{DecodingError, Tally};
use flip_trial::Restart;
use refusal::Refusal;

// How to search for the set of a trial that passes.
#[derive(Clone, Copy)]
pub struct Search {
    // At which index later trials resume.
    pub restart: Restart,
    // The most flips of a trial.
    pub w: u32,
    // The most trials, trial 1 included.
    pub limit: u32,
}

// What a decoder tries: a kind of trials, and how many of them.
pub trait Trials: Copy {
    // What is flipped in each trial after the first, with the trial limit.
    ghost decoder: { Self → Decoder };

    // At which index later trials resume.
    ghost restart: { Self → Restart };

    // The decoder's own refusals.
    fn judge_own(self, code: Code) -> Result<(), Refusal>
        requires { information_count code ≤ longest }
        ensures { result ≡ judge (own_refusals (decoder self) code) };

    // Makes the trials of a call that no refusal before 16 stops, and answers.
    fn run(
        self,
        mask: &[u8],
        code: Code,
        channel: &[u8],
        output: &mut [u8],
    ) -> Result<Tally, DecodingError>
        requires { FinePre (decoder self) mask.now code channel.now output.old }
        ensures { (result, output.new)
            ≡ decoded_under (decoder self) (restart self) mask.now code channel.now output.old };
}

// Refusal 15.
fn judge_output(code: Code, output: &[u8]) -> Result<(), Refusal>
    ensures { result ≡ judge (output_refusals code output.now) }
{
    if output.len() != bits::bytes_for(code.k) {
        return Err(Refusal::OutputLength);
    }
    Ok(())
}

// Refusals 12 and 13, those of a decoder, which are `own`, and then 15.
pub fn judge_call(
    own: Result<(), Refusal>,
    code: Code,
    channel: &[u8],
    output: &[u8],
) -> Result<(), Refusal>
    requires { code.n ≤ largest_n }
    ensures { JudgesCall own code channel.now output.now result }
{
    channel::judge_channel(code, channel)?;
    own?;
    judge_output(code, output)
}

// Decodes a channel's values into the packed payload, by the mask and the code of a description.
pub fn decode_by<T: Trials>(
    trials: T,
    mask: &[u8],
    code: Code,
    channel: &[u8],
    output: &mut [u8],
) -> Result<Tally, DecodingError>
    requires { Coded mask.now code }
    ensures { (result, output.new)
        ≡ decoded_under (T.decoder trials) (T.restart trials) mask.now code channel.now output.old }
{
    let own = trials.judge_own(code);
    judge_call(own, code, channel, output)?;
    trials.run(mask, code, channel, output)
}

// Decodes a channel's values into the packed payload, by a description.
pub fn decode<T: Trials>(
    trials: T,
    description: &[u8],
    channel: &[u8],
    output: &mut [u8],
) -> Result<Tally, DecodingError>
    ensures { (result, output.new)
        ≡ decoded_as (T.decoder trials) (T.restart trials) description.now channel.now output.old }
{
    let code = code::read_description(description)?;
    decode_by(trials, code::mask_of(description), code, channel, output)
}
