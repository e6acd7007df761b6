//! That the expressions of well-typed programs are covered by the laws on their code, but for what has no code yet. Laws alone.
#![tactic(auto)]
