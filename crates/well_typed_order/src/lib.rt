//! Expressions and initialisers that keep all rules are in order, as the meaning of programs asks it: laws alone.
#![tactic(auto)]
