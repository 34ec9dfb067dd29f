// The copy of a user: policy lines, environment lines, and the fields that the user may read, as their masks say.
#![tactic(auto)]

ghost use Rattle.std.specs.Prelude.{◌≡◌, map, ◌+◌, ◌≤◌, ◌<◌, ◌^◌, length};
ghost use Rattle.rows.specs.Rows.{Wrote};
ghost use Rattle.model.specs.Base.{joined, keep};
ghost use Rattle.model.specs.Limits.{max_users};
ghost use Rattle.model.specs.Rights.{is_for};
ghost use Rattle.model.specs.Serving.{rule_line, binding_line, copy_of};
ghost use Rattle.steps.specs.Environments.{bindings_bytes, bindings_in};
ghost use Rattle.tables.specs.Memory.{user_row, rule_row, policy_bytes, user_in, rule_in, policy_in};
ghost use Rattle.writer.specs.Selected.{most_saved, shown_in};
ghost use Rattle.copies.specs.Heads.{rule_text, rules_text, head_text, copy_text, head_of};

use buffers::{put, put_byte};
use layout::name::{KEY_ROW, NAME_ROW, name_from};
use layout::table::{row_at, row_count};
use lexical::limits::MAX_COPY;
use record::table::RECORD;
use steps::policy::put_steps;
use steps::step::{BINDING, BINDINGS};
use tables::memory::{ROLE, RULE, RULES, bindings, is_for, is_write, rule_path};
use writer::saved::{Shown, put_saved};

// A copy never exceeds this many bytes: `max_copy` of Limits.
pub const COPY: usize = MAX_COPY;

// `role;access;path`, with the user's role put in.
fn put_rule_line(out: &mut [u8], at: usize, user: &[u8], rule: &[u8]) -> usize
    requires { (length user.now ≡ user_row) × (length rule.now ≡ rule_row) × (at + rule_text < 2 ^ 64) }
    ensures wrote { Wrote at (rule_line (user_in user.now) (rule_in rule.now)) out.old result out.new }
    ensures upper_bound { result ≤ at + rule_text }
{
    let mut to = put(out, at, name_from(user, ROLE, NAME_ROW));
    if is_write(rule) {
        to = put(out, to, b";WRITE;");
    } else {
        to = put(out, to, b";READ;");
    }
    to = put_steps(out, to, rule_path(rule));
    put_byte(out, to, b'\n')
}

// The policy lines of the user's role and of every role.
fn put_rules(out: &mut [u8], at: usize, user: &[u8], policy: &[u8]) -> usize
    requires { (length user.now ≡ user_row) × (length policy.now ≡ policy_bytes) × (at + rules_text < 2 ^ 64) }
    ensures wrote { Wrote at (joined (map (rule_line (user_in user.now)) (keep (is_for (user_in user.now)) (policy_in policy.now)))) out.old result out.new }
    ensures upper_bound { result ≤ at + rules_text }
{
    let mut to = at;
    for i in 0..row_count(policy, RULE, RULES) {
        let rule = row_at(policy, RULE, i);
        if is_for(rule, user) {
            to = put_rule_line(out, to, user, rule);
        }
    }
    to
}

// The environment lines.
fn put_bindings(out: &mut [u8], at: usize, lines: &[u8]) -> usize
    requires { (length lines.now ≡ bindings_bytes) × (at + bindings_bytes < 2 ^ 64) }
    ensures wrote { Wrote at (joined (map binding_line (bindings_in lines.now))) out.old result out.new }
    ensures upper_bound { result ≤ at + bindings_bytes }
{
    let n = row_count(lines, BINDING, BINDINGS);
    let mut to = at;
    for i in 0..n {
        let row = i * BINDING;
        to = put(out, to, name_from(lines, row, NAME_ROW));
        to = put_byte(out, to, b';');
        to = put(out, to, name_from(lines, row + NAME_ROW, KEY_ROW));
        to = put_byte(out, to, b'\n');
    }
    to
}

// What stands before the fields in a copy: the policy lines and the environment lines, each under its head.
pub fn put_head(out: &mut [u8], at: usize, policy: &[u8], user: &[u8]) -> usize
    requires { (length policy.now ≡ policy_bytes) × (length user.now ≡ user_row) × (at + head_text < 2 ^ 64) }
    ensures wrote { Wrote at (head_of (policy_in policy.now) (user_in user.now)) out.old result out.new }
    ensures upper_bound { result ≤ at + head_text }
{
    let mut to = put(out, at, b"role;access;path\n");
    to = put_rules(out, to, user, policy);
    to = put(out, to, b"name;value\n");
    put_bindings(out, to, bindings(user))
}

// The copy of the user with the index i, with the fields whose masks have that user's bit.
pub fn put_copy(
    out: &mut [u8],
    at: usize,
    policy: &[u8],
    user: &[u8],
    table: &[u8; RECORD],
    i: usize,
) -> usize
    requires { (length policy.now ≡ policy_bytes) × (length user.now ≡ user_row) × (at + copy_text < 2 ^ 64) × (i < max_users) }
    ensures wrote { Wrote at (copy_of (policy_in policy.now) (user_in user.now) (shown_in (Shown.To i) table.now)) out.old result out.new }
    ensures upper_bound { result ≤ at + length (head_of (policy_in policy.now) (user_in user.now)) + most_saved + 1 }
{
    let mut to = put_head(out, at, policy, user);
    to = put_saved(out, to, table, Shown::To(i));
    put_byte(out, to, b'\n')
}
