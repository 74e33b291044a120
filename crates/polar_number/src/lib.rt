// The number that an answer comes back as to C.
#![tactic(auto)]

ghost use Rattle.std.specs.Prelude.{◌≡◌, ◌<◌, ◌^◌};
ghost use Rattle.polar_number.specs.Number.{Parts, parts, packed_parts, refusal_parts};
ghost use Rattle.polar_number.specs.Clauses.{Fitting, error_parts, answer_parts};

use flip_run::{DecodingError, Tally};
use pass_tree::Work;
use refusal::Refusal;

// The number that comes back: refusal, then trial or index, then steps.
fn pack(refusal: u8, value: u64, steps: u64) -> u64
    requires { packed_parts (parts refusal value steps) < 2 ^ 64 }
    ensures { result ≡ packed_parts (parts refusal value steps) }
{
    refusal as u64 + value * 0x100 + steps * 0x1_0000_0000
}

// What C is told of a call: what it made, or why it made nothing.
pub trait Told {
    ghost parts_of: { Self → Parts };

    fn packed(self) -> u64
        requires { Fitting (parts_of self) }
        ensures { result ≡ packed_parts (parts_of self) };
}

// An encoder's codeword.
impl Told for () {
    ghost parts_of = { λ done. parts 0 0 0 };

    fn packed(self) -> u64 {
        pack(0, 0, 0)
    }
}

// A resumed pass's steps.
impl Told for Work {
    ghost parts_of = { λ work. parts 0 0 work.steps };

    fn packed(self) -> u64 {
        pack(0, 0, self.steps as u64)
    }
}

// How many vectors a lent state holds the sums of.
impl Told for u8 {
    ghost parts_of = { λ count. parts 0 count 0 };

    fn packed(self) -> u64 {
        pack(0, self as u64, 0)
    }
}

// A decoder's trials.
impl Told for Tally {
    ghost parts_of = { λ tally. parts 0 tally.trials tally.steps };

    fn packed(self) -> u64 {
        pack(0, self.trials as u64, self.steps as u64)
    }
}

impl Told for Refusal {
    ghost parts_of = { refusal_parts };

    fn packed(self) -> u64 {
        pack(self.number(), self.index().unwrap_or(0) as u64, 0)
    }
}

impl Told for DecodingError {
    ghost parts_of = { error_parts };

    fn packed(self) -> u64 {
        match self {
            DecodingError::NonePassed(failed) => {
                pack(16, failed.trials as u64, failed.steps as u64)
            }
            DecodingError::Refused(x) => x.packed(),
        }
    }
}

// The number of an answer.
pub fn answer_number<T: Told, E: Told>(answer: Result<T, E>) -> u64
    requires { Fitting (answer_parts T.parts_of E.parts_of answer) }
    ensures { result ≡ packed_parts (answer_parts T.parts_of E.parts_of answer) }
{
    match answer {
        Ok(made) => made.packed(),
        Err(error) => error.packed(),
    }
}
