// One reader for the three tables.
ghost use Rattle.std.specs.Prelude.{◌≡◌, ◌&&◌, ◌≤◌, length};
ghost use Rattle.model.specs.Base.{all, among};
ghost use Rattle.model.specs.Limits.{max_text};
ghost use Rattle.model.specs.Table.{split, same_length, is_head, read_row, ended};
ghost use Rattle.layout.specs.Layout.{Keeps};
ghost use Rattle.tables.specs.Memory.{tables_bytes, tables_in, CanonicalTables};
ghost use Rattle.tabletext.specs.Reading.{values_in, Adds, table_of, ReadsTable};

use crate::row::{add_binding, add_rule, add_user};
use lexical::slice::until;
use lines::{count, has_column, value};
use refusals::Refusal;
use tables::memory::{POLICY, TABLES};

// An enum for two matches: as a trait, their six lines would stand in three impls, each of which has to say in a ghost member what it adds.
#[derive(Clone, Copy)]
pub enum Table {
    Users,
    Environments,
    Policy,
}

// A refusal with its line: the head is 1, and 0 stands for the whole text.
#[derive(Clone, Copy, PartialEq, Eq)]
pub struct TableFault {
    pub refusal: Refusal,
    pub line: usize,
}

// Whether a head has as many columns as a line names, and each of these.
fn has_columns(columns: &[u8], head: &[u8]) -> bool
    requires { (length columns.now ≤ max_text) × (length head.now ≤ max_text) }
    ensures { result ≡ (same_length (split head.now) (split columns.now) && all (λ c. among c (split head.now)) (split columns.now)) }
{
    let n = count(columns);
    if count(head) != n {
        return false;
    }
    for j in 0..n {
        if !has_column(head, value(columns, j)) {
            return false;
        }
    }
    true
}

// Whether a line has the columns of a table, each once, in any order.
fn is_head(t: Table, head: &[u8]) -> bool
    requires { length head.now ≤ max_text }
    ensures { result ≡ is_head (table_of t) (split head.now) }
{
    match t {
        Table::Users => has_columns(b"user;role;key;allowance", head),
        Table::Environments => has_columns(b"user;name;value", head),
        Table::Policy => has_columns(b"role;access;path", head),
    }
}

// What a line adds to the tables.
fn add_row(t: Table, tables: &mut [u8], head: &[u8], line: &[u8]) -> Result<(), Refusal>
    requires { (length tables.old ≡ tables_bytes) × (length head.now ≤ max_text) }
    ensures adds { Adds ((table_of t).row (values_in head.now line.now))
        (tables_in tables.old) result (tables_in tables.new) }
    ensures keeps { Keeps CanonicalTables tables.old tables.new }
{
    match t {
        Table::Users => add_user(&mut tables[..POLICY], head, line),
        Table::Environments => add_binding(&mut tables[..POLICY], head, line),
        Table::Policy => add_rule(&mut tables[POLICY..], head, line),
    }
}

// The same, if the line has as many values as the head.
fn read_row(t: Table, tables: &mut [u8; TABLES], head: &[u8], line: &[u8]) -> Result<(), Refusal>
    requires { (length head.now ≤ max_text) × (length line.now ≤ max_text) }
    ensures adds { Adds (λ m. read_row (table_of t) (split head.now) m (ended line.now))
        (tables_in tables.old) result (tables_in tables.new) }
    ensures keeps { Keeps CanonicalTables tables.old tables.new }
{
    if count(line) != count(head) {
        return Err(Refusal::Row);
    }
    add_row(t, tables, head, line)
}

// A table's text into the tables: what the lines before a refusal added stays.
pub fn read_table(t: Table, tables: &mut [u8; TABLES], s: &[u8]) -> Result<(), TableFault>
    requires { length s.now ≤ max_text }
    ensures reads_table { ReadsTable (table_of t) (tables_in tables.old) s.now result (tables_in tables.new) }
    ensures keeps { Keeps CanonicalTables tables.old tables.new }
{
    let end = until(s, 0, b'\n');
    if end == s.len() {
        return Err(TableFault {
            refusal: Refusal::Head,
            line: 0,
        });
    }
    let head = &s[..end];
    if !is_head(t, head) {
        return Err(TableFault {
            refusal: Refusal::Head,
            line: 0,
        });
    }
    let mut at = end + 1;
    let mut n: usize = 2;
    // A cursor, which goes from line to line: how far, `until` says.
    while at < s.len() {
        let to = until(s, at, b'\n');
        if to == s.len() {
            return Err(TableFault {
                refusal: Refusal::Row,
                line: n,
            });
        }
        if let Err(refusal) = read_row(t, tables, head, &s[at..to]) {
            return Err(TableFault { refusal, line: n });
        }
        at = to + 1;
        n += 1;
    }
    Ok(())
}
