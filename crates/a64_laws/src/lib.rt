//! What single A64 instructions do, one law each, for the proofs of code generators.
#![tactic(auto)]
