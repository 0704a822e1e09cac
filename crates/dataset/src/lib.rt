// The dataset walk over its messages and its data.
#![tactic(auto)]

pub mod dataset;
