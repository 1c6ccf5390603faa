//! General lemmas that the proofs of the other crates import: keys, options, tests, and texts that are cut at a byte.
//! There is no code.
#![tactic(auto)]
