// A code with the mask that places its message.
#![tactic(auto)]

ghost use Rattle.std.specs.Prelude.{◌≡◌, Ok, Err, MatchResult};
ghost use Rattle.code.specs.Description.{describe, mask_of};
ghost use Rattle.code.specs.Claims.{Coded};

use code::Code;
use refusal::Refusal;

// A code and its mask, as an accepted description has them.
#[derive(Clone, Copy)]
pub struct MaskedCode<'a> {
    // The numbers of the code.
    pub code: Code,
    // A bit for each index: 1 at an information index, 0 at a frozen one.
    pub mask: &'a [u8],
    pub ghost coded: { Coded mask.now code },
}

// Reads a description: its refusals in order, then its code and mask.
pub fn read(d: &[u8]) -> Result<MaskedCode<'_>, Refusal>
    ensures { MatchResult result (λ m. (describe d.now ≡ Ok m.code) × (m.mask.now ≡ mask_of d.now)) (λ x. describe d.now ≡ Err x) }
{
    let code = code::read_description(d)?;
    let mask = code::mask_of(d);
    Ok(MaskedCode { code, mask })
}
