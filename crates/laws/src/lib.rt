// Laws that the codec's proofs share; see specs/ and proofs/.
#![tactic(auto)]
