// The three operations of the server: open, request, save.
#![tactic(auto)]

pub mod answer;
pub mod open;
pub mod request;
pub mod save;
