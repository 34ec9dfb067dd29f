// Paths in conflict with WRITE lines of the policy.
ghost use Rattle.std.specs.Prelude.{◌≡◌, [], ◌≤◌, length, take};
ghost use Rattle.model.specs.Base.{any};
ghost use Rattle.model.specs.Rights.{conflicts_with};
ghost use Rattle.model.specs.Opening.{conflict_from};
ghost use Rattle.steps.specs.Steps.{steps_slot, steps_in};
ghost use Rattle.tables.specs.Memory.{policy_bytes, policy_in};

use crate::memory::{RULE, RULES, is_write, rule_path};
use layout::table::{row_at, row_count};
use matching::conflict::conflict;

// Whether a path is in conflict with a WRITE line among the first n lines.
pub fn has_conflict(policy: &[u8], n: usize, steps: &[u8]) -> bool
    requires { (length policy.now ≡ policy_bytes) × (steps_slot ≤ length steps.now) }
    ensures { result ≡ any (conflicts_with (steps_in steps.now)) (take n (policy_in policy.now)) }
{
    let first = n.min(row_count(policy, RULE, RULES));
    for i in 0..first {
        let rule = row_at(policy, RULE, i);
        if is_write(rule) && conflict(steps, rule_path(rule)) {
            return true;
        }
    }
    false
}

// The number of the first WRITE line in conflict with an earlier one, the head being line 1.
pub fn first_conflict(policy: &[u8]) -> Option<usize>
    requires { length policy.now ≡ policy_bytes }
    ensures { result ≡ conflict_from 2 [] (policy_in policy.now) }
{
    let n = row_count(policy, RULE, RULES);
    for i in 0..n {
        let rule = row_at(policy, RULE, i);
        if is_write(rule) && has_conflict(policy, i, rule_path(rule)) {
            return Some(i + 2);
        }
    }
    None
}
