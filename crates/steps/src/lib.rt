// A policy's paths in slots of bytes: read and spelled.
#![tactic(auto)]

pub mod policy;
pub mod step;
