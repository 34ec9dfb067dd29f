// Opening the four texts.
pub use opening::open::{LOGINS, RECORD, TABLES, open};
