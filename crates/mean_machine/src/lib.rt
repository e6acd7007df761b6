//! A machine that computes what a program means, in steps that keep the open calls and all that waits on a stack.
#![tactic(auto)]
