// Bytes of lines and texts: classes, comparing and numbers.
#![tactic(auto)]

pub mod class;
pub mod limits;
pub mod number;
pub mod slice;
