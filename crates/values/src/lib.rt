// Values read and written.
#![tactic(auto)]

pub mod value;
pub mod whole;
