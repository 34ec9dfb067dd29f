// Opening the four texts: the tables into memory, the record's text against them, all or nothing.
#![tactic(auto)]

pub mod answer;
mod fields;
pub mod open;
mod store;
mod texts;
