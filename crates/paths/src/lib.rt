// Keys and fields' paths in slots of bytes: read, spelled and ordered.
#![tactic(auto)]

pub mod field;
pub mod key;
