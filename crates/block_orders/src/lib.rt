// Blocks entered in hostile orders, and how many blocks each of them was compared with.
#![tactic(auto)]

pub mod compared;
pub mod orders;
pub mod table;
