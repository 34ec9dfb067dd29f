// The tables in memory: users with their environment lines, policy lines, who may read and write, whom a line may admit, and which paths conflict.
#![tactic(auto)]

pub mod candidates;
pub mod conflicts;
pub mod memory;
pub mod push;
pub mod rights;
