// Document 01, "Vectors at the edges", the example of `receive`, descriptions of kind 4 and flip sets, by computation and through the
// theorems; see proofs/.
#![tactic(auto)]
