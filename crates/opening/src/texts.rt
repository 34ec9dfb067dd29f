// The texts of the three tables opened together.
ghost use Rattle.std.specs.Prelude.{◌≡◌, [], ◌≤◌, length, drop, replicate};
ghost use Rattle.model.specs.Limits.{max_text};
ghost use Rattle.model.specs.Opening.{from, conflict_from, open_tables};
ghost use Rattle.refusals.specs.Numbers.{answer_by};
ghost use Rattle.tables.specs.Memory.{users_bytes, tables_bytes, policy_in, tables_in, CanonicalTables};
ghost use Rattle.tabletext.specs.Reading.{in_line_of};
ghost use Rattle.opening.specs.Answers.{texts_of, fault_of, opening_result};

use crate::answer::Fault;
use refusals::Refusal;
use tables::conflicts::first_conflict;
use tables::memory::{TABLES, policy_of};
use tabletext::read::{Table, TableFault, read_table};

// The line of the first conflict among the policy's.
fn conflict_in(tables: &[u8; TABLES]) -> Option<usize>
    ensures { result ≡ conflict_from 2 [] (policy_in (drop users_bytes tables.now)) }
{
    first_conflict(policy_of(tables))
}

// A table's refusal, as one of the text with this number.
fn in_text(text: usize, read: Result<(), TableFault>) -> Result<(), Fault>
    ensures { answer_by fault_of result ≡ from text (answer_by in_line_of read) }
{
    read.map_err(|fault| Fault {
        refusal: fault.refusal,
        text,
        line: fault.line,
    })
}

// The three tables' texts into memory of zeros.
pub fn open_tables(
    tables: &mut [u8; TABLES],
    users: &[u8],
    environments: &[u8],
    policy: &[u8],
) -> Result<(), Fault>
    requires users_len_bound { (length users.now ≤ max_text) × (length environments.now ≤ max_text) × (length policy.now ≤ max_text) }
    requires tables_value { tables.old ≡ replicate tables_bytes 0 }
    ensures tables_after { opening_result result (tables_in tables.new) ≡ open_tables (texts_of users.now environments.now policy.now []) }
    ensures canonical_tables { CanonicalTables tables.new }
{
    in_text(1, read_table(Table::Users, tables, users))?;
    in_text(2, read_table(Table::Environments, tables, environments))?;
    in_text(3, read_table(Table::Policy, tables, policy))?;
    if let Some(n) = conflict_in(tables) {
        return Err(Fault {
            refusal: Refusal::Conflict,
            text: 3,
            line: n,
        });
    }
    Ok(())
}
