// What a line of values adds to a table, or its refusal.
ghost use Rattle.std.specs.Prelude.{◌≡◌, ◌≤◌, length};
ghost use Rattle.std.specs.Option.{option_map};
ghost use Rattle.model.specs.Base.{any};
ghost use Rattle.model.specs.Limits.{max_text};
ghost use Rattle.model.specs.Tables.{users_table, environments_table, policy_table, same_binding, access_of};
ghost use Rattle.layout.specs.Layout.{Keeps};
ghost use Rattle.steps.specs.Environments.{bindings_bytes, bindings_in};
ghost use Rattle.tables.specs.Memory.{users_bytes, policy_bytes, access_is, users_in, policy_in, CanonicalUsers, CanonicalPolicy};
ghost use Rattle.tabletext.specs.Reading.{values_in, Adds};

use layout::name::{KEY_ROW, NAME_ROW, name_from};
use layout::table::row_count;
use lexical::class::{is_key, is_name, is_plain};
use lexical::limits::MAX_QUOTA;
use lexical::number::number;
use lexical::slice::same;
use lines::value_under;
use refusals::Refusal;
use steps::policy::read_steps;
use steps::step::{BINDING, BINDINGS, ENVIRONMENT};
use tables::memory::{Access, LINES, RULE, RULES, USER, USERS, find_user};
use tables::push::{push_binding, push_rule, push_user};

// A user.
pub fn add_user(users: &mut [u8], head: &[u8], line: &[u8]) -> Result<(), Refusal>
    requires { (length users.old ≡ users_bytes) × (length head.now ≤ max_text) }
    ensures adds { Adds (users_table.row (values_in head.now line.now))
        (users_in users.old) result (users_in users.new) }
    ensures keeps { Keeps CanonicalUsers users.old users.new }
{
    let name = value_under(head, line, b"user");
    let role = value_under(head, line, b"role");
    let key = value_under(head, line, b"key");
    if !is_name(name) {
        return Err(Refusal::Row);
    }
    if !is_name(role) {
        return Err(Refusal::Row);
    }
    if !is_name(key) {
        return Err(Refusal::Row);
    }
    if same(role, b"*") {
        return Err(Refusal::Row);
    }
    let Some(quota) = number(value_under(head, line, b"allowance"), MAX_QUOTA) else {
        return Err(Refusal::Row);
    };
    if let Some(_) = find_user(users, name) {
        return Err(Refusal::Repeated);
    }
    if USERS <= row_count(users, USER, USERS) {
        return Err(Refusal::TableFull);
    }
    push_user(users, name, role, key, quota as u16);
    Ok(())
}

// Whether a user's environment lines have this one.
fn has_binding(lines: &[u8], name: &[u8], value: &[u8]) -> bool
    requires { length lines.now ≡ bindings_bytes }
    ensures { result ≡ any (same_binding (record { name = name.now; value = value.now })) (bindings_in lines.now) }
{
    for i in 0..row_count(lines, BINDING, BINDINGS) {
        let at = i * BINDING;
        if same(name, name_from(lines, at, NAME_ROW)) {
            if same(value, name_from(lines, at + NAME_ROW, KEY_ROW)) {
                return true;
            }
        }
    }
    false
}

// An environment line, which joins those of its user.
pub fn add_binding(users: &mut [u8], head: &[u8], line: &[u8]) -> Result<(), Refusal>
    requires { (length users.old ≡ users_bytes) × (length head.now ≤ max_text) }
    ensures adds { Adds (environments_table.row (values_in head.now line.now))
        (users_in users.old) result (users_in users.new) }
    ensures keeps { Keeps CanonicalUsers users.old users.new }
{
    let user = value_under(head, line, b"user");
    let name = value_under(head, line, b"name");
    let value = value_under(head, line, b"value");
    if !is_name(user) {
        return Err(Refusal::Row);
    }
    if !is_plain(name) {
        return Err(Refusal::Row);
    }
    if !is_key(value) {
        return Err(Refusal::Row);
    }
    let Some(i) = find_user(users, user) else {
        return Err(Refusal::UnknownUser);
    };
    let start = i * USER + LINES;
    let end = start + ENVIRONMENT;
    if has_binding(&users[start..end], name, value) {
        return Err(Refusal::Repeated);
    }
    if BINDINGS <= row_count(&users[start..end], BINDING, BINDINGS) {
        return Err(Refusal::TableFull);
    }
    push_binding(&mut users[start..end], name, value);
    Ok(())
}

// The access of this name.
fn access(s: &[u8]) -> Option<Access>
    ensures { option_map access_is result ≡ access_of s.now }
{
    if same(s, b"READ") {
        return Some(Access::Read);
    }
    if same(s, b"WRITE") {
        return Some(Access::Write);
    }
    None
}

// A policy line.
pub fn add_rule(policy: &mut [u8], head: &[u8], line: &[u8]) -> Result<(), Refusal>
    requires { (length policy.old ≡ policy_bytes) × (length head.now ≤ max_text) }
    ensures adds { Adds (policy_table.row (values_in head.now line.now))
        (policy_in policy.old) result (policy_in policy.new) }
    ensures keeps { Keeps CanonicalPolicy policy.old policy.new }
{
    let role = value_under(head, line, b"role");
    if !is_name(role) {
        return Err(Refusal::Row);
    }
    let Some(kind) = access(value_under(head, line, b"access")) else {
        return Err(Refusal::Row);
    };
    let Some(path) = read_steps(value_under(head, line, b"path")) else {
        return Err(Refusal::Path);
    };
    if RULES <= row_count(policy, RULE, RULES) {
        return Err(Refusal::TableFull);
    }
    push_rule(policy, role, u8::from(kind), &path);
    Ok(())
}
