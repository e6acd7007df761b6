//! What the lists of instructions of expressions compute: what the meaning of their operators and conversions gives, law by law.
#![tactic(auto)]
