//! What code does against what its tree means: the relation between the states of the meaning and of the machine, and the
//! statement that the simulation proves.
#![tactic(auto)]
