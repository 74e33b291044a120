// A walk along a mask. Its counts are private: only `start` and `look` make a walk, so that n looks are reported by n calls of `look` alone.
#![tactic(auto)]

ghost use Rattle.std.specs.Prelude.{◌≡◌, ◌*◌, ◌^◌, ◌≤◌, ◌<◌, length};
ghost use Rattle.bits.specs.Mask.{mask_bit};
ghost use Rattle.walk.specs.Walked.{at_start, looked};

// What a walk has counted.
#[derive(Clone, Copy)]
pub struct Walk {
    // How many bits of the mask were looked at: those at 0, 1, 2 and so on.
    looks: usize,
    // How many of them are ones.
    ones: usize,
}

// What a look sees.
#[derive(Clone, Copy)]
pub struct Look {
    // The bit of the mask.
    pub bit: u8,
    // The walk after it.
    pub walk: Walk,
}

impl Walk {
    // A walk that has looked at nothing.
    pub fn start() -> Walk
        ensures { result ≡ at_start }
    {
        Walk { looks: 0, ones: 0 }
    }

    // Looks at the next bit of the mask.
    pub fn look(self, mask: &[u8]) -> Look
        requires { (8 * length mask.now < 2 ^ 64)
            × (self.looks < 8 * length mask.now)
            × (self.ones ≤ self.looks) }
        ensures { (result.bit ≡ mask_bit mask.now self.looks)
            × (result.walk ≡ looked mask.now self) }
    {
        let bit = bits::mask_bit(mask, self.looks);
        Look {
            bit,
            walk: Walk {
                looks: self.looks + 1,
                ones: self.ones + bit as usize,
            },
        }
    }

    // The number of looks.
    pub fn looks(self) -> usize
        ensures { result ≡ self.looks }
    {
        self.looks
    }

    // The number of ones seen.
    pub fn ones(self) -> usize
        ensures { result ≡ self.ones }
    {
        self.ones
    }
}
