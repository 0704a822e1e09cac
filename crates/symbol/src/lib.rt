// The entries of symbol table nodes.
#![tactic(auto)]

pub mod entry;
