// Policy paths against fields' paths and against each other: which match, and which are in conflict.
#![tactic(auto)]

pub mod conflict;
pub mod path;
