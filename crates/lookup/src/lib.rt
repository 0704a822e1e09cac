// Path lookup.
#![tactic(auto)]

pub mod lookup;
