// The text of a table read into memory: a head in any order of columns, then a row for each line.
#![tactic(auto)]

pub mod read;
pub mod row;
