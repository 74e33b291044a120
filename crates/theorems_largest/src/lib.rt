// Longer codes: with a larger n every answer but refusal 4 stays, and the values of a pass are bounded; see specs/ and proofs/.
#![tactic(auto)]
