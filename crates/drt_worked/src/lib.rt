//! Worked rows of what stands above the model: words, written texts, and the entries of a front, as the definitions compute them.
//! There is no code: the rows stand in proofs/.
#![tactic(auto)]
