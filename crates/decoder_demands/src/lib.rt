// What the definitions of the decoders promise: demand 3, the noiseless clause of demand 2, and what an answer says; see specs/ and proofs/.
#![tactic(auto)]
