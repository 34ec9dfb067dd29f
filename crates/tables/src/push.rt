// A row more behind those in use, where there is room for it. A row is written from its last part to its first.
ghost use Rattle.std.specs.Prelude.{◌≡◌, [], ◌∷◌, ◌++◌, ◌<◌, length, take, replicate};
ghost use Rattle.model.specs.Limits.{max_name, max_key, max_users, max_bindings, max_rules};
ghost use Rattle.layout.specs.Layout.{name_row, encode_name, Keeps};
ghost use Rattle.steps.specs.Steps.{steps_slot, steps_in, CanonicalSteps};
ghost use Rattle.steps.specs.Environments.{binding_row, bindings_bytes, bindings_in, encode_binding, CanonicalBindings};
ghost use Rattle.tables.specs.Memory.{user_row, users_bytes, rule_row, policy_bytes, access_in, access_byte, users_in, policy_in, encode_user, CanonicalUsers, CanonicalPolicy};

use crate::memory::{ACCESS, KEY, QUOTA, ROLE, RULE, RULES, USER, USERS};
use buffers::{put, put_byte};
use layout::name::{NAME_ROW, put_name};
use layout::table::push_row;
use steps::step::{BINDING, BINDINGS};

// An environment line, into a row of zeros.
fn put_binding(row: &mut [u8], name: &[u8], value: &[u8])
    requires { row.old ≡ replicate binding_row 0 }
    ensures { row.new ≡ encode_binding (record { name = take max_name name.now; value = take max_key value.now }) }
{
    put_name(&mut row[NAME_ROW..BINDING], value);
    put_name(&mut row[0..NAME_ROW], name);
}

// An environment line.
pub fn push_binding(lines: &mut [u8], name: &[u8], value: &[u8])
    requires { (length lines.old ≡ bindings_bytes) × (0 < length name.now) }
    ensures lines_after { bindings_in lines.new ≡ take max_bindings (bindings_in lines.old ++ record { name = take max_name name.now; value = take max_key value.now } ∷ []) }
    ensures keeps { Keeps CanonicalBindings lines.old lines.new }
{
    let mut row = [0u8; BINDING];
    put_binding(&mut row, name, value);
    push_row(lines, BINDING, BINDINGS, &row);
}

// A user without environment lines, into a row of zeros.
fn put_user(row: &mut [u8], name: &[u8], role: &[u8], key: &[u8], quota: u16)
    requires { row.old ≡ replicate user_row 0 }
    ensures { row.new ≡ encode_user (record { name = take max_name name.now; role = take max_name role.now; key = take max_name key.now; quota = quota; environment = [] }) }
{
    let high = put_byte(row, QUOTA, (quota % 256) as u8);
    put_byte(row, high, (quota / 256) as u8);
    put_name(&mut row[KEY..QUOTA], key);
    put_name(&mut row[ROLE..KEY], role);
    put_name(&mut row[0..NAME_ROW], name);
}

// A user.
pub fn push_user(users: &mut [u8], name: &[u8], role: &[u8], key: &[u8], quota: u16)
    requires { (length users.old ≡ users_bytes) × (0 < length name.now) }
    ensures users_after { users_in users.new ≡ take max_users (users_in users.old ++ record { name = take max_name name.now; role = take max_name role.now; key = take max_name key.now; quota = quota; environment = [] } ∷ []) }
    ensures keeps { Keeps CanonicalUsers users.old users.new }
{
    let mut row = [0u8; USER];
    put_user(&mut row, name, role, key, quota);
    push_row(users, USER, USERS, &row);
}

// A policy line, into a row of zeros.
fn put_rule(row: &mut [u8], role: &[u8], access: u8, steps: &[u8])
    requires { (row.old ≡ replicate rule_row 0) × (length steps.now ≡ steps_slot) }
    ensures { row.new ≡ encode_name name_row (take max_name role.now) ++ access ∷ steps.now }
{
    let path = put_byte(row, ACCESS, access);
    put(row, path, steps);
    put_name(&mut row[0..NAME_ROW], role);
}

// A policy line. The access is its byte, of which each but 1 means READ: a type of two kinds would ask more of a caller.
pub fn push_rule(policy: &mut [u8], role: &[u8], access: u8, steps: &[u8])
    requires { (length policy.old ≡ policy_bytes) × (0 < length role.now) × (length steps.now ≡ steps_slot) }
    ensures policy_after { policy_in policy.new ≡ take max_rules (policy_in policy.old ++ record { role = take max_name role.now; access = access_in access; path = steps_in steps.now } ∷ []) }
    ensures keeps { CanonicalSteps steps.now → access ≡ access_byte (access_in access) → Keeps CanonicalPolicy policy.old policy.new }
{
    let mut row = [0u8; RULE];
    put_rule(&mut row, role, access, steps);
    push_row(policy, RULE, RULES, &row);
}
