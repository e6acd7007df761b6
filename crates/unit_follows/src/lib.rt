//! What the words of a file are to do wherever a linker puts them.
#![tactic(auto)]
