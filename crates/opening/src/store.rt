// What was read into arrays of the opening's own, stored in the lent ones: only rows in use are read, so that short texts stay cheap.
ghost use Rattle.std.specs.Prelude.{◌≡◌};
ghost use Rattle.record.specs.Slots.{CanonicalFields};
ghost use Rattle.tables.specs.Memory.{CanonicalTables};

use layout::table::copy_rows;
use record::table::{RECORD, SLOT, SLOTS};
use tables::memory::{POLICY, RULE, RULES, TABLES, USER, USERS};

// The tables: users, and behind their rows the policy.
pub fn copy_tables(to: &mut [u8; TABLES], from: &[u8; TABLES])
    requires { CanonicalTables from.now }
    ensures { to.new ≡ from.now }
{
    copy_rows(&mut to[..POLICY], &from[..POLICY], USER, USERS);
    copy_rows(&mut to[POLICY..], &from[POLICY..], RULE, RULES);
}

// The fields.
pub fn copy_fields(to: &mut [u8; RECORD], from: &[u8; RECORD])
    requires { CanonicalFields from.now }
    ensures { to.new ≡ from.now }
{
    copy_rows(to, from, SLOT, SLOTS);
}
