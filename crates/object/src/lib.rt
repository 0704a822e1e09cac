// The objects of an audit, each walked once.
#![tactic(auto)]

pub mod object;
