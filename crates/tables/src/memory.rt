// Users in rows of a name, a role, a key, a quota and environment lines; policy lines in rows of a role, an access and steps.
ghost use Rattle.std.specs.Prelude.{◌≡◌, ℕ, ◌≤◌, length, drop};
ghost use Rattle.std.specs.Option.{option_map};
ghost use Rattle.model.specs.Rights.{is_write, is_for};
ghost use Rattle.model.specs.Tables.{User, user_named};
ghost use Rattle.steps.specs.Steps.{steps_slot, steps_in};
ghost use Rattle.steps.specs.Environments.{bindings_bytes, bindings_in};
ghost use Rattle.tables.specs.Memory.{user_row, users_bytes, rule_row, policy_bytes, tables_bytes, access_is, access_byte, user_in, users_in, rule_in};

use layout::name::{NAME_ROW, name_from};
use lexical::limits::{MAX_RULES, MAX_USERS};
use lexical::slice::same_bytes;
use steps::policy::STEPS;
use steps::step::ENVIRONMENT;

// A user: rows of the name, the role and the key, two bytes of the quota, and the environment lines.
pub const ROLE: usize = NAME_ROW;

pub const KEY: usize = ROLE + NAME_ROW;

pub const QUOTA: usize = KEY + NAME_ROW;

const QUOTA_HIGH: usize = QUOTA + 1;

pub const LINES: usize = QUOTA + 2;

pub const USER: usize = LINES + ENVIRONMENT;

pub const USERS: usize = MAX_USERS;

// Behind the users' rows stand the policy's.
pub const POLICY: usize = USERS * USER;

// A policy line: a row of the role, a byte of the access, and the steps.
pub const ACCESS: usize = NAME_ROW;

const STEPS_AT: usize = ACCESS + 1;

pub const RULE: usize = STEPS_AT + STEPS;

pub const RULES: usize = MAX_RULES;

// Users and their environment lines, and the policy.
pub const TABLES: usize = POLICY + RULES * RULE;

// The kind of a policy line.
#[derive(Clone, Copy)]
pub enum Access {
    Read,
    Write,
}

// Its byte in a row.
impl From<Access> for u8 {
    ghost from_gives = { λ a b. b ≡ access_byte (access_is a) };

    fn from(access: Access) -> u8 {
        match access {
            Access::Read => 0,
            Access::Write => 1,
        }
    }
}

// The policy's rows, which stand behind the users'.
pub fn policy_of(tables: &[u8]) -> &[u8]
    requires { length tables.now ≡ tables_bytes }
    ensures { (result.now ≡ drop users_bytes tables.now) × (length result.now ≡ policy_bytes) }
{
    &tables[POLICY..]
}

// The quota of a user.
pub fn quota(user: &[u8]) -> usize
    requires { length user.now ≡ user_row }
    ensures { result ≡ (user_in user.now).quota }
{
    (user[QUOTA] as usize) + 256 * (user[QUOTA_HIGH] as usize)
}

// The environment lines of a user.
pub fn bindings(user: &[u8]) -> &[u8]
    requires { length user.now ≡ user_row }
    ensures result_value { bindings_in result.now ≡ (user_in user.now).environment }
    ensures result_len { length result.now ≡ bindings_bytes }
{
    &user[LINES..]
}

// The policy path of a line.
pub fn rule_path(rule: &[u8]) -> &[u8]
    requires { length rule.now ≡ rule_row }
    ensures result_value { steps_in result.now ≡ (rule_in rule.now).path }
    ensures result_len { length result.now ≡ steps_slot }
{
    &rule[STEPS_AT..]
}

// The index of the user of a name.
pub fn find_user(users: &[u8], name: &[u8]) -> Option<usize>
    requires { users_bytes ≤ length users.now }
    ensures { result ≡ option_map (λ (t : ℕ × User). t.0) (user_named name.now (users_in users.now)) }
{
    for i in 0..USERS {
        let at = i * USER;
        if users[at] == 0 {
            return None;
        }
        if same_bytes(name_from(users, at, NAME_ROW), name) {
            return Some(i);
        }
    }
    None
}

// Whether a line is of the kind WRITE.
pub fn is_write(rule: &[u8]) -> bool
    requires { length rule.now ≡ rule_row }
    ensures { result ≡ is_write (rule_in rule.now) }
{
    rule[ACCESS] == u8::from(Access::Write)
}

// Whether a line is of the user's role or of every role.
pub fn is_for(rule: &[u8], user: &[u8]) -> bool
    requires { (length rule.now ≡ rule_row) × (length user.now ≡ user_row) }
    ensures { result ≡ is_for (user_in user.now) (rule_in rule.now) }
{
    let role = name_from(rule, 0, NAME_ROW);
    if same_bytes(role, name_from(user, ROLE, NAME_ROW)) {
        return true;
    }
    same_bytes(role, b"*")
}
