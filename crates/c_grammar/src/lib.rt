//! Which tokens spell which tree: the grammar of the C profile (ISO C11 6.5 to 6.9, in part).
#![tactic(auto)]
