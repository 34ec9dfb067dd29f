// The record: the table of its fields, sorted by path, and the slot of one.
#![tactic(auto)]

mod insert;
pub mod slot;
pub mod table;
