// One descent over a group's tree, for the audit, which discovers the objects of its entries, and for lookup, which compares their names.
#![tactic(auto)]

pub mod contents;
pub mod group;
pub mod maps;
