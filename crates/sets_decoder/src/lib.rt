// Decoding by sets of flipped indices: full, by half restart, and restarted.
#![tactic(auto)]

ghost use Rattle.std.specs.Prelude.{◌≡◌, ◌≤◌};
ghost use Rattle.refusal.specs.Judge.{outside};
ghost use Rattle.arrays.specs.Claims.{longest};
ghost use Rattle.code.specs.Code.{information_count};
ghost use Rattle.decoder.specs.Decoder.{sets, most_limit, sets_full, sets_half, sets_restarted};

use code::Code;
use decoder::{Search, Trials};
use flip_run::{DecodingError, Tally};
use flip_trial::Restart;
use refusal::Refusal;

// The largest trial limit if a set may have more than one index.
const MOST_TRIALS: usize = 512;

// The largest trial limit: K + 1 if w is 1, otherwise MOST_TRIALS.
fn most_limit(w: u32, code: Code) -> usize
    requires { information_count code ≤ longest }
    ensures { result ≡ most_limit w code }
{
    if w == 1 {
        code.k + code.r as usize + 1
    } else {
        MOST_TRIALS
    }
}

// Whether a set may have no index, or more than three.
fn is_bad_count(w: u32) -> bool
    ensures { result ≡ outside w 1 3 }
{
    refusal::is_outside(w as usize, 1, 3)
}

// Whether the trial limit is outside its range.
fn is_bad_limit(search: Search, code: Code) -> bool
    requires { information_count code ≤ longest }
    ensures { result ≡ outside search.limit 1 (most_limit search.w code) }
{
    refusal::is_outside(search.limit as usize, 1, most_limit(search.w, code))
}

// The trials of a search.
#[derive(Clone, Copy)]
pub struct Sets(pub Search);

impl Trials for Sets {
    ghost decoder = { λ s. sets s.0.w s.0.limit };

    ghost restart = { λ s. s.0.restart };

    // Refusals 26 and 14.
    fn judge_own(self, code: Code) -> Result<(), Refusal> {
        if is_bad_count(self.0.w) {
            return Err(Refusal::FlipCount);
        }
        if is_bad_limit(self.0, code) {
            return Err(Refusal::TrialLimit);
        }
        Ok(())
    }

    fn run(
        self,
        mask: &[u8],
        code: Code,
        channel: &[u8],
        output: &mut [u8],
    ) -> Result<Tally, DecodingError> {
        sets_run::decode_in(self.0, mask, code, channel, output)
    }
}

// Decodes with each later trial repeated from the root.
pub fn decode_sets_full(
    description: &[u8],
    channel: &[u8],
    w: u32,
    limit: u32,
    output: &mut [u8],
) -> Result<Tally, DecodingError>
    ensures { (result, output.new) ≡ sets_full description.now channel.now w limit output.old }
{
    let full = Search {
        restart: Restart::Root,
        w,
        limit,
    };
    decoder::decode(Sets(full), description, channel, output)
}

// Decodes with each later trial resumed at N/2 if the lowest index of its set is N/2 or above, otherwise at 0.
pub fn decode_sets_half(
    description: &[u8],
    channel: &[u8],
    w: u32,
    limit: u32,
    output: &mut [u8],
) -> Result<Tally, DecodingError>
    ensures { (result, output.new) ≡ sets_half description.now channel.now w limit output.old }
{
    let half = Search {
        restart: Restart::Half,
        w,
        limit,
    };
    decoder::decode(Sets(half), description, channel, output)
}

// Decodes with each later trial resumed at the first information index after the lowest of its set, or at N if there is none.
pub fn decode_sets_restarted(
    description: &[u8],
    channel: &[u8],
    w: u32,
    limit: u32,
    output: &mut [u8],
) -> Result<Tally, DecodingError>
    ensures { (result, output.new) ≡ sets_restarted description.now channel.now w limit output.old }
{
    let restarted = Search {
        restart: Restart::AfterFlip,
        w,
        limit,
    };
    decoder::decode(Sets(restarted), description, channel, output)
}
