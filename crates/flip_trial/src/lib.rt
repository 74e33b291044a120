// One trial of flip decoding: trial 1, a later trial, and its check.
#![tactic(auto)]

ghost use Rattle.std.specs.Prelude.{◌≡◌, ◌+◌, ◌-◌, ◌*◌, ◌≤◌, ◌<◌, length, take, get_or};
ghost use Rattle.laws.specs.Clauses.{splice};
ghost use Rattle.code.specs.Code.{code_length, information_count};
ghost use Rattle.code.specs.Claims.{Coded};
ghost use Rattle.channel.specs.Channel.{channel_values};
ghost use Rattle.pass_ends.specs.Clauses.{arrays};
ghost use Rattle.pass.specs.Clauses.{PassPre};
ghost use Rattle.flip_trial.specs.Trial.{restart_at, forced_prefix, message_in, trial_passes};
ghost use Rattle.flip_trial.specs.Claims.{half_at};
ghost use Rattle.flip_trial.specs.Clauses.{first_from, Below, set_all, trial_by, TrialPre, LaterTrialPre, TrialPost, FirstTrialPost};

use arrays::{BitArray, RuleArray, SIZE, ValueArray};
use code::Code;
use pass_tree::Work;

// The rule of a flipped index: the opposite decision.
const OPPOSITE: u8 = 3;

// The rule of any other information index.
const USUAL: u8 = 1;

// At which index later trials resume.
#[derive(Clone, Copy)]
pub enum Restart {
    // At index 0.
    Root,
    // At N/2 if the lowest flipped index is at least N/2, else at index 0.
    Half,
    // At the first information index after the lowest flipped one, or at N if there is none.
    AfterFlip,
}

// The first information index from `from` on, or N.
fn first_from(mask: &[u8], from: usize) -> usize
    requires { (8 * length mask.now ≤ SIZE) × (from ≤ 8 * length mask.now) }
    ensures { result ≡ first_from mask.now from (8 * length mask.now - from) }
{
    let size = 8 * mask.len();
    (from..size)
        .find(|&j| bits::mask_bit(mask, j) == 1)
        .unwrap_or(size)
}

// The index at which half restart resumes, of `size` indices.
fn half_index(size: usize, lowest: usize) -> usize
    ensures { result ≡ half_at size lowest }
{
    let middle = size / 2;
    if middle <= lowest { middle } else { 0 }
}

// The index at which a trial with this lowest flipped index resumes.
pub fn restart_index(restart: Restart, mask: &[u8], lowest: usize) -> usize
    requires { (8 * length mask.now ≤ SIZE) × (lowest < 8 * length mask.now) }
    ensures { result ≡ restart_at restart mask.now (8 * length mask.now) lowest }
{
    match restart {
        Restart::Root => 0,
        Restart::Half => half_index(8 * mask.len(), lowest),
        Restart::AfterFlip => first_from(mask, lowest + 1),
    }
}

// How a trial whose lowest flipped index is i begins, up to q.
fn put_prefix(i: usize, q: usize, first: &BitArray, bits: &mut BitArray)
    requires { (i < SIZE)
        × (q ≤ SIZE)
        × (get_or first.now i 0 < 2)
        × (length first.now ≡ SIZE)
        × (length bits.old ≡ SIZE) }
    ensures { bits.new ≡ splice bits.old 0 (forced_prefix first.now i q) }
{
    if q <= i {
        arrays::copy(first, 0, bits, 0, q);
        return;
    }
    arrays::copy(first, 0, bits, 0, i);
    bits[i] = 1 - first[i];
    bits[i + 1..q].fill(0);
}

// Sets the rule of each of some indices.
fn set_rules(rule: u8, flips: &[usize], rules: &mut RuleArray)
    requires { Below SIZE flips.now × (length rules.old ≡ SIZE) }
    ensures { rules.new ≡ set_all rules.old flips.now rule }
{
    for &i in flips {
        rules[i] = rule;
    }
}

// A later trial that flips some indices, given in ascending order, and resumes at q. Afterwards each of them has the usual rule.
pub fn later_trial(
    code: Code,
    q: usize,
    flips: &[usize],
    channel: &[u8],
    first: &BitArray,
    rules: &mut RuleArray,
    work: &mut ValueArray,
    bits: &mut BitArray,
    sums: &mut BitArray,
    leaves: &mut ValueArray,
) -> Work
    requires { TrialPre SIZE code channel.now rules.old (arrays work.old bits.old sums.old leaves.old)
        × LaterTrialPre SIZE code q flips.now first.now }
    ensures { TrialPost SIZE code q
        (trial_by q first.now rules.old code (channel_values channel.now) flips.now)
        (arrays work.new bits.new sums.new leaves.new) result
        × (rules.new ≡ set_all rules.old flips.now 1) }
{
    put_prefix(flips[0], q, first, bits);
    set_rules(OPPOSITE, flips, rules);
    let done = pass::pass(code, q, channel, rules, work, bits, sums, leaves);
    set_rules(USUAL, flips, rules);
    done
}

// Trial 1, a plain pass: its bits and leaf values stay in `first` and `values`.
pub fn first_trial(
    mask: &[u8],
    code: Code,
    channel: &[u8],
    first: &mut BitArray,
    values: &mut ValueArray,
    rules: &mut RuleArray,
    work: &mut ValueArray,
    sums: &mut BitArray,
) -> Work
    requires { PassPre SIZE code 0 channel.now (arrays work.old first.old sums.old values.old)
        × (8 * length mask.now ≡ code_length code)
        × (length rules.old ≡ SIZE) }
    ensures { FirstTrialPost SIZE mask.now code channel.now rules.new
        (arrays work.new first.new sums.new values.new) result }
{
    pass::rules_from(mask, rules);
    pass::pass(code, 0, channel, rules, work, first, sums, values)
}

// Takes a trial's message out of its bits, and says whether its payload has the check that follows it.
pub fn trial_passes(mask: &[u8], code: Code, bits: &BitArray, message: &mut [u8]) -> bool
    requires { Coded mask.now code
        × (code_length code ≤ length bits.now)
        × (code_length code ≤ length message.old) }
    ensures { (result ≡ trial_passes mask.now code (take (code_length code) bits.now))
        × (take (information_count code) message.new
        ≡ message_in mask.now code (take (code_length code) bits.now)) }
{
    placing::take_out(mask, bits, message);
    let size = code.k + code.r as usize;
    crc::passes(
        &message[..size],
        code.k,
        code.r,
        code.polynomial,
        code.start,
    )
}
