//! What machine code does, against what a source means: runs with bounds on their steps, and code of items that jump.
#![tactic(auto)]
