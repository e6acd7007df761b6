//! That the code of expressions does what they mean: the simulation, node by node.
#![tactic(auto)]
