// The damaged block of a file, found in the list of the blocks that its walk has entered.
#![tactic(auto)]

pub mod block;
pub mod entered;
