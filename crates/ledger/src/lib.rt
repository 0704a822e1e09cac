// The table of objects: each address met, in order of discovery, with the number of hard links and sharings that give it.
#![tactic(auto)]

pub mod report;
pub mod search;
pub mod table;
