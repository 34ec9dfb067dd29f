// Saved text out: the fields of a table, all or those that one user may read, as nested objects in order.
#![tactic(auto)]

pub mod saved;
pub mod turn;
