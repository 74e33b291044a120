// Which sets of flipped indices are tried: what the definitions of crate sets promise; see specs/ and proofs/.
#![tactic(auto)]
