// The check's start value: silence fails trial 1, and what descriptions of kinds 1 and 4 share; see specs/ and proofs/.
#![tactic(auto)]
