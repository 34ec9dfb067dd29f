// Record text in: its tokens, and its grammar with keys that stand twice.
#![tactic(auto)]

pub mod grammar;
pub mod keys;
pub mod tokens;
