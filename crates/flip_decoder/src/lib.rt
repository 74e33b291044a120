// Decoding by single flips: each trial after the first flips one index. Full, by half restart, and restarted.
#![tactic(auto)]

ghost use Rattle.std.specs.Prelude.{◌≡◌};
ghost use Rattle.decoder.specs.Decoder.{single, decoded_full, decoded_half, decoded_restarted};

use code::Code;
use decoder::Trials;
use flip_run::{DecodingError, Tally, Terms};
use flip_trial::Restart;
use refusal::Refusal;

// The trials of a run on these terms.
#[derive(Clone, Copy)]
pub struct Single(pub Terms);

impl Trials for Single {
    ghost decoder = { λ s. single s.0.limit };

    ghost restart = { λ s. s.0.restart };

    // Refusal 14: the trial limit is outside 1..K + 1.
    fn judge_own(self, code: Code) -> Result<(), Refusal> {
        let limit = self.0.limit as usize;
        if refusal::is_outside(limit, 1, code.k + code.r as usize + 1) {
            return Err(Refusal::TrialLimit);
        }
        Ok(())
    }

    fn run(
        self,
        mask: &[u8],
        code: Code,
        channel: &[u8],
        output: &mut [u8],
    ) -> Result<Tally, DecodingError> {
        flip_run::decode_in(self.0, mask, code, channel, output)
    }
}

// Decodes with each later trial repeated from the root.
pub fn decode_full(
    description: &[u8],
    channel: &[u8],
    limit: u32,
    output: &mut [u8],
) -> Result<Tally, DecodingError>
    ensures { (result, output.new) ≡ decoded_full description.now channel.now limit output.old }
{
    let full = Terms {
        restart: Restart::Root,
        limit,
    };
    decoder::decode(Single(full), description, channel, output)
}

// Decodes with each later trial resumed at N/2 if its flipped index is N/2 or above, otherwise at 0.
pub fn decode_half(
    description: &[u8],
    channel: &[u8],
    limit: u32,
    output: &mut [u8],
) -> Result<Tally, DecodingError>
    ensures { (result, output.new) ≡ decoded_half description.now channel.now limit output.old }
{
    let half = Terms {
        restart: Restart::Half,
        limit,
    };
    decoder::decode(Single(half), description, channel, output)
}

// Decodes with each later trial resumed at the first information index after its flipped one, or at N if there is none.
pub fn decode_restarted(
    description: &[u8],
    channel: &[u8],
    limit: u32,
    output: &mut [u8],
) -> Result<Tally, DecodingError>
    ensures { (result, output.new) ≡ decoded_restarted description.now channel.now limit output.old }
{
    let restarted = Terms {
        restart: Restart::AfterFlip,
        limit,
    };
    decoder::decode(Single(restarted), description, channel, output)
}
