// Who may read and who may write a path.
ghost use Rattle.std.specs.Prelude.{◌≡◌, true, ◌||◌, ℕ, ◌≤◌, ◌<◌, length, drop};
ghost use Rattle.std.specs.Prelude.{Option};
ghost use Rattle.model.specs.Tables.{User, user_at};
ghost use Rattle.model.specs.Rights.{may_write};
ghost use Rattle.model.specs.Serving.{reads_by};
ghost use Rattle.masks.specs.Bits.{bit_at};
ghost use Rattle.masks.specs.Readers.{readers_of};
ghost use Rattle.paths.specs.Layout.{path_slot, path_in};
ghost use Rattle.matching.specs.Parts.{may_match};
ghost use Rattle.tables.specs.Memory.{user_row, rule_row, policy_bytes, user_in, users_in, rule_in, rule_at, policy_in, rule_count, tables_in};
ghost use Rattle.tables.specs.Grants.{gives_read, gives_write, reads_by_line, Found, Covers};

use crate::candidates::candidates;
use crate::memory::{
    RULE, RULES, TABLES, USER, USERS, bindings, is_for, is_write, policy_of, rule_path,
};
use layout::table::{is_empty, row_at, row_count};
use lexical::limits::MAX_DEPTH;
use masks::{difference, first_bit, with_bit, without_bit};
use matching::path::{asks_lines, lines_match, matches, may_match};

// Whether a line gives a user the right to write a path.
fn gives_write(rule: &[u8], user: &[u8], path: &[u8]) -> bool
    requires { (length rule.now ≡ rule_row) × (length user.now ≡ user_row) × (path_slot ≤ length path.now) }
    ensures { result ≡ gives_write (user_in user.now) (path_in path.now) (rule_in rule.now) }
{
    if !is_write(rule) {
        return false;
    }
    if !is_for(rule, user) {
        return false;
    }
    matches(bindings(user), rule_path(rule), path)
}

// Whether a user may write a path.
pub fn may_write(policy: &[u8], user: &[u8], path: &[u8]) -> bool
    requires { (length policy.now ≡ policy_bytes) × (length user.now ≡ user_row) × (path_slot ≤ length path.now) }
    ensures { result ≡ may_write (policy_in policy.now) (user_in user.now) (path_in path.now) }
{
    for i in 0..RULES {
        let rule = row_at(policy, RULE, i);
        if is_empty(rule) {
            return false;
        }
        if gives_write(rule, user, path) {
            return true;
        }
    }
    false
}

// Whether a line that may match a path gives a user the right to read it. A path without environment steps asks no environment line.
fn gives_read(rule: &[u8], user: &[u8], path: &[u8]) -> bool
    requires rule_len { (length rule.now ≡ rule_row) × (length user.now ≡ user_row) × (path_slot ≤ length path.now) }
    requires path_value { may_match (rule_in rule.now).path (path_in path.now) ≡ true }
    ensures { result ≡ gives_read (path_in path.now) (rule_in rule.now) (user_in user.now) }
{
    if !is_for(rule, user) {
        return false;
    }
    let steps = rule_path(rule);
    if !asks_lines(steps) {
        return true;
    }
    lines_match(bindings(user), steps, path)
}

// A mask with the bits set of those to whom a line that may match the path gives the right to read it.
// Of the users of `able`, which leaves out nobody for whom the line matches, those are asked who are not marked yet.
fn with_readers(mask: u32, able: u32, tables: &[u8; TABLES], rule: &[u8], path: &[u8]) -> u32
    requires rule_len { (length rule.now ≡ rule_row) × (path_slot ≤ length path.now) }
    requires path_value { may_match (rule_in rule.now).path (path_in path.now) ≡ true }
    requires covers { Covers (users_in tables.now) (rule_in rule.now).path (path_in path.now) able }
    ensures { (k : ℕ) → bit_at result k ≡ (bit_at mask k || reads_by_line (path_in path.now) (rule_in rule.now) (user_at (users_in tables.now) k)) }
{
    let mut marked = mask;
    let mut rest = difference(able, mask);
    // From bit to bit, not from place to place.
    while rest != 0 {
        let j = first_bit(rest);
        if gives_read(rule, row_at(tables, USER, j), path) {
            marked = with_bit(marked, j);
        }
        rest = without_bit(rest, j);
    }
    marked
}

// The next of the n lines, from a place on, that may match a path for somebody; n where none may. The lines before it let nobody read the path.
// With `None` for none the last clause would be two: of the lines up to a place, and of those up to the end.
fn next_line(policy: &[u8], n: usize, from: usize, path: &[u8]) -> usize
    requires { (length policy.now ≡ policy_bytes) × (path_slot ≤ length path.now) × (n ≡ rule_count policy.now) × (from ≤ n) }
    ensures lower_bound { (from ≤ result) × (result ≤ n) }
    ensures path_value { result < n → may_match (rule_at result policy.now).path (path_in path.now) ≡ true }
    ensures path_value_2 { (o : Option User) → reads_by (drop from (policy_in policy.now)) o (path_in path.now) ≡ reads_by (drop result (policy_in policy.now)) o (path_in path.now) }
{
    for i in from..n {
        let rule = row_at(policy, RULE, i);
        if may_match(rule_path(rule), path) {
            return i;
        }
    }
    n
}

// The mask of those who may read a path. A line that matches for nobody is passed over once, not for each user;
// who holds a key of the path is found out once, not for each line, and kept in `found`.
pub fn readers_by(found: &mut [Option<u32>; MAX_DEPTH], tables: &[u8; TABLES], path: &[u8]) -> u32
    requires path_slot_in_bounds { path_slot ≤ length path.now }
    requires found { Found (users_in tables.now) (path_in path.now) found.old }
    ensures value { result ≡ readers_of (tables_in tables.now) (path_in path.now) }
    ensures found_2 { Found (users_in tables.now) (path_in path.now) found.new }
{
    let users = row_count(tables, USER, USERS);
    let policy = policy_of(tables);
    let n = row_count(policy, RULE, RULES);
    let mut mask: u32 = 0;
    let mut i = next_line(policy, n, 0, path);
    // A cursor: `next_line` says how far.
    while i < n {
        let rule = row_at(policy, RULE, i);
        let able = candidates(found, tables, users, rule_path(rule), path);
        mask = with_readers(mask, able, tables, rule, path);
        i = next_line(policy, n, i + 1, path);
    }
    mask
}

// The same where nothing is found out yet.
pub fn readers(tables: &[u8; TABLES], path: &[u8]) -> u32
    requires { path_slot ≤ length path.now }
    ensures { result ≡ readers_of (tables_in tables.now) (path_in path.now) }
{
    let mut found = [None; MAX_DEPTH];
    readers_by(&mut found, tables, path)
}
