// The run of trials of flip decoding.
#![tactic(auto)]

ghost use Rattle.std.specs.Prelude.{◌≡◌, ◌≤◌, length, take};
ghost use Rattle.bits.specs.Packing.{bytes_for};
ghost use Rattle.pass_ends.specs.Clauses.{arrays, Whole};
ghost use Rattle.flip_run.specs.declared.DecodingError.TheVariants.{Refused};
ghost use Rattle.flip_run.specs.Clauses.{FramePre, LimitPre, RunPre, FirstFailed, PassedBits, answered, BeginPost, RunPost, verdict_by, answer_by};

use arrays::{BitArray, RuleArray, SIZE, ValueArray};
use code::Code;
use flip_trial::Restart;
use refusal::Refusal;

// The terms of a run of trials: at which index later trials resume, and how long the run goes on.
#[derive(Clone, Copy)]
pub struct Terms {
    // At which index later trials resume.
    pub restart: Restart,
    // How many trials may be made, trial 1 included.
    pub limit: u32,
}

// The trials that were made. A run ends with `Ok` if the last of them passed, and with `Err` if all failed.
#[derive(Clone, Copy, Debug, PartialEq, Eq)]
pub struct Tally {
    // How many trials were made.
    pub trials: u32,
    // The steps of all of them.
    pub steps: u32,
}

// Why a decoder writes no payload.
#[derive(Clone, Copy, Debug, PartialEq, Eq)]
pub enum DecodingError {
    // A refusal before any trial.
    Refused(Refusal),
    // Refusal 16: no trial passed.
    NonePassed(Tally),
}

impl From<Refusal> for DecodingError {
    ghost from_gives = { λ x e. e ≡ Refused x };

    fn from(refusal: Refusal) -> DecodingError {
        DecodingError::Refused(refusal)
    }
}

// The answer to a run. If a trial passed, the first k bits of its message are written to the output, packed.
pub fn answer(
    k: usize,
    ended: Result<Tally, Tally>,
    message: &[u8],
    output: &mut [u8],
) -> Result<Tally, DecodingError>
    requires { (k ≤ length message.now)
        × PassedBits ended (take k message.now)
        × (length output.old ≡ bytes_for k) }
    ensures { (result, output.new) ≡ answered k ended message.now output.old }
{
    match ended {
        Ok(passed) => {
            bits::pack(&message[..k], output);
            Ok(passed)
        }
        Err(failed) => Err(DecodingError::NonePassed(failed)),
    }
}

// Trial 1. Its bits and leaf values are put in `first` and `values`, and after the pass its message in the place of the sums.
pub fn begin(
    mask: &[u8],
    code: Code,
    channel: &[u8],
    first: &mut BitArray,
    values: &mut ValueArray,
    rules: &mut RuleArray,
    work: &mut ValueArray,
    sums: &mut BitArray,
) -> Result<Tally, Tally>
    requires { FramePre mask.now code channel.now
        × (length rules.old ≡ SIZE)
        × Whole SIZE (arrays work.old first.old sums.old values.old) }
    ensures { BeginPost SIZE mask.now code channel.now rules.new
        (arrays work.new first.new sums.new values.new) result }
{
    let done = flip_trial::first_trial(mask, code, channel, first, values, rules, work, sums);
    let tally = Tally {
        trials: 1,
        steps: done.steps,
    };
    if flip_trial::trial_passes(mask, code, first, sums) {
        return Ok(tally);
    }
    Err(tally)
}

// The trials after the first, which took `start` steps and failed, until one passes or the limit is reached. Trial 1's leaf values become
// the keys that order the indices. Bits and leaf values of later trials have arrays of their own: each restart begins with trial 1's bits.
fn flip_trials(
    terms: Terms,
    mask: &[u8],
    code: Code,
    channel: &[u8],
    start: u32,
    first: &BitArray,
    values: &mut ValueArray,
    rules: &mut RuleArray,
    work: &mut ValueArray,
    sums: &mut BitArray,
) -> Result<Tally, Tally>
    requires { FramePre mask.now code channel.now
        × LimitPre terms.limit code
        × FirstFailed SIZE mask.now code channel.now start rules.old (arrays work.old first.now sums.old values.old) }
    ensures { RunPost SIZE mask.now code (verdict_by terms mask.now code channel.now) result
        sums.new }
{
    let mut bits = [0u8; SIZE];
    let mut leaves = [0i32; SIZE];
    flip_order::make_keys(mask, values);
    let mut steps = start;
    let mut key = -1;
    for trial in 2..=terms.limit {
        key = flip_order::next_key(channel.len(), values, key);
        let i = flip_order::index_of(key);
        let q = flip_trial::restart_index(terms.restart, mask, i);
        let done = flip_trial::later_trial(
            code,
            q,
            &[i],
            channel,
            first,
            rules,
            work,
            &mut bits,
            sums,
            &mut leaves,
        );
        steps += done.steps;
        if flip_trial::trial_passes(mask, code, &bits, sums) {
            return Ok(Tally {
                trials: trial,
                steps,
            });
        }
    }
    Err(Tally {
        trials: terms.limit,
        steps,
    })
}

// Makes the arrays of trial 1 and runs the trials. The message of a trial that passes is left in `sums`.
fn run_trials(
    terms: Terms,
    mask: &[u8],
    code: Code,
    channel: &[u8],
    sums: &mut BitArray,
) -> Result<Tally, Tally>
    requires { FramePre mask.now code channel.now
        × LimitPre terms.limit code
        × (length sums.old ≡ SIZE) }
    ensures { RunPost SIZE mask.now code (verdict_by terms mask.now code channel.now) result
        sums.new }
{
    let mut first = [0u8; SIZE];
    let mut values = [0i32; SIZE];
    let mut rules = [0u8; SIZE];
    let mut work = [0i32; SIZE];
    match begin(
        mask,
        code,
        channel,
        &mut first,
        &mut values,
        &mut rules,
        &mut work,
        sums,
    ) {
        Ok(passed) => Ok(passed),
        Err(failed) => {
            if terms.limit == 1 {
                return Err(failed);
            }
            flip_trials(
                terms,
                mask,
                code,
                channel,
                failed.steps,
                &first,
                &mut values,
                &mut rules,
                &mut work,
                sums,
            )
        }
    }
}

// Runs the trials and answers.
pub fn decode_in(
    terms: Terms,
    mask: &[u8],
    code: Code,
    channel: &[u8],
    output: &mut [u8],
) -> Result<Tally, DecodingError>
    requires { RunPre terms mask.now code channel.now output.old }
    ensures { (result, output.new) ≡ answer_by terms mask.now code channel.now output.old }
{
    let mut message = [0u8; SIZE];
    let ended = run_trials(terms, mask, code, channel, &mut message);
    answer(code.k, ended, &message, output)
}
