//! What well-typed programs give the code that follows them: that the locals of each scope are new. Laws alone.
#![tactic(auto)]
