//! That the code of statements does what they mean: the simulation, construct by construct.
#![tactic(auto)]
