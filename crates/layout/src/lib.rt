// Rows of one size in a slice, and names in rows: the layer on which every table in memory stands.
#![tactic(auto)]

pub mod counted;
pub mod name;
pub mod table;
