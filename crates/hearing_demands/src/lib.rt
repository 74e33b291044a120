// What a hearing holds after any list of adds and clears; see specs/ and proofs/.
#![tactic(auto)]
