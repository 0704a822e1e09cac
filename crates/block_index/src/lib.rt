// The blocks of a list in the order of their addresses, so that a new one is compared with few of them.
#![tactic(auto)]

pub mod adding;
pub mod index;
pub mod met;
pub mod search;
