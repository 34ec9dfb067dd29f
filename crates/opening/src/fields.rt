// The record's text opened against the tables, and the masks of its fields.
ghost use Rattle.std.specs.Prelude.{◌≡◌, ◌-◌, ◌≤◌, ◌<◌, length, replicate};
ghost use Rattle.model.specs.Base.{any};
ghost use Rattle.model.specs.Limits.{max_text};
ghost use Rattle.model.specs.Paths.{as_steps};
ghost use Rattle.model.specs.Rights.{conflicts_with};
ghost use Rattle.model.specs.Opening.{quotas, open_record};
ghost use Rattle.layout.specs.Layout.{Keeps};
ghost use Rattle.masks.specs.Readers.{readers_of, Agreed};
ghost use Rattle.record.specs.Slots.{record_bytes, fields_in, masks_in, field_at, CanonicalFields};
ghost use Rattle.tables.specs.Memory.{users_bytes, policy_bytes, users_in, policy_in, tables_in};
ghost use Rattle.tables.specs.Grants.{Found};
ghost use Rattle.opening.specs.Answers.{opening_result};

use crate::answer::Fault;
use layout::table::{row_at, row_count};
use lexical::limits::MAX_DEPTH;
use loader::read_record;
use matching::conflict::steps_of;
use paths::field::shared_keys;
use reader::grammar::RecordError;
use record::slot::set_mask;
use record::table::{RECORD, SLOTS, count, slot_at};
use refusals::Refusal;
use tables::candidates::keep_first;
use tables::conflicts::has_conflict;
use tables::memory::{RULES, TABLES, USER, USERS, policy_of, quota};
use tables::rights::readers_by;

// All quotas together.
fn all_quotas(users: &[u8]) -> usize
    requires { (users_bytes ≤ length users.now) × (length users.now ≤ max_text) }
    ensures { result ≡ quotas (users_in users.now) }
{
    let mut sum: usize = 0;
    for i in 0..row_count(users, USER, USERS) {
        sum += quota(row_at(users, USER, i));
    }
    sum
}

// Whether a field is in conflict with a WRITE line.
fn has_conflicting_field(policy: &[u8], table: &[u8; RECORD]) -> bool
    requires { length policy.now ≡ policy_bytes }
    ensures { result ≡ any (λ f. any (conflicts_with (as_steps f.path)) (policy_in policy.now)) (fields_in table.now) }
{
    for i in 0..count(table) {
        let steps = steps_of(slot_at(table, i));
        if has_conflict(policy, RULES, &steps) {
            return true;
        }
    }
    false
}

// A refusal of the record's text, which has no line.
fn in_record(refusal: Refusal) -> Fault
    ensures { result ≡ record { refusal = refusal; text = 4; line = 0 } }
{
    Fault {
        refusal,
        text: 4,
        line: 0,
    }
}

// A record's text into a table of zeros.
pub fn open_record(tables: &[u8; TABLES], table: &mut [u8; RECORD], s: &[u8]) -> Result<(), Fault>
    requires { (length s.now ≤ max_text) × (table.old ≡ replicate record_bytes 0) }
    ensures table_after { opening_result result (fields_in table.new) ≡ open_record (tables_in tables.now) s.now }
    ensures canonical_fields { CanonicalFields table.new }
{
    let n = match read_record(table, s) {
        Err(RecordError::NotRecord) => return Err(in_record(Refusal::NotRecord)),
        Err(RecordError::KeyTwice) => return Err(in_record(Refusal::Repeated)),
        Ok(n) => n,
    };
    if SLOTS < n {
        return Err(in_record(Refusal::TooManyFields));
    }
    if SLOTS - n < all_quotas(tables) {
        return Err(in_record(Refusal::TooManyFields));
    }
    if has_conflicting_field(policy_of(tables), table) {
        return Err(in_record(Refusal::Conflict));
    }
    Ok(())
}

// The mask of the i-th field: what was found out of the one before serves as far as their paths share keys.
fn mask_at(
    found: &mut [Option<u32>; MAX_DEPTH],
    tables: &[u8; TABLES],
    table: &[u8; RECORD],
    i: usize,
) -> u32
    requires i_in_bounds { i < length (fields_in table.now) }
    requires found { Found (users_in tables.now) (field_at (i - 1) (fields_in table.now)).path found.old }
    ensures value { result ≡ readers_of (tables_in tables.now) (field_at i (fields_in table.now)).path }
    ensures found_2 { Found (users_in tables.now) (field_at i (fields_in table.now)).path found.new }
{
    let slot = slot_at(table, i);
    keep_first(
        found,
        shared_keys(slot_at(table, i.saturating_sub(1)), slot),
    );
    readers_by(found, tables, slot)
}

// Beside each field the mask of those who may read it.
pub fn set_masks(tables: &[u8; TABLES], table: &mut [u8; RECORD])
    ensures table_unchanged { fields_in table.new ≡ fields_in table.old }
    ensures agreed { Agreed (tables_in tables.now) (fields_in table.old) (masks_in table.new) }
    ensures keeps { Keeps CanonicalFields table.old table.new }
{
    let mut found = [None; MAX_DEPTH];
    for i in 0..count(table) {
        let mask = mask_at(&mut found, tables, table, i);
        set_mask(table, i, mask);
    }
}
