// What a step admits, given a user's environment lines: rows of a name and a value, up to the first that is empty.
ghost use Rattle.std.specs.Prelude.{◌≡◌, Bool, true, List, ◌≤◌, length};
ghost use Rattle.std.specs.Fn.{FnReturnsAtPair};
ghost use Rattle.model.specs.Paths.{environment};
ghost use Rattle.model.specs.Base.{any, among};
ghost use Rattle.model.specs.Rights.{admits, matches};
ghost use Rattle.paths.specs.Layout.{path_slot, path_in};
ghost use Rattle.steps.specs.Steps.{names_slot, step_row, steps_slot, operator_of, names_in, step_in, steps_in};
ghost use Rattle.steps.specs.Environments.{bindings_bytes, bindings_in};
ghost use Rattle.model.specs.Tables.{Binding};
ghost use Rattle.matching.specs.Parts.{Asked, decides, may_admit, is_met, asks, has_value, may_match};

use layout::counted::{count, row_at};
use layout::name::{KEY_ROW, NAME_ROW, name_from};
use lexical::limits::{MAX_DEPTH, MAX_LISTED};
use lexical::slice::same;
use paths::key::key_at;
use steps::policy::{STEP, first_name, kind_of};
use steps::step::{BINDING, BINDINGS, Kind, Operator};

// Whether the key is one of the names.
pub fn has_name(names: &[u8], key: &[u8]) -> bool
    requires { names_slot ≤ length names.now }
    ensures { result ≡ among key.now (names_in names.now) }
{
    let n = count(names, MAX_LISTED);
    for i in 0..n {
        if same(key, key_at(names, i)) {
            return true;
        }
    }
    false
}

// Whether a line of the name decides: for `=~n` the first does, for `in~n` only one that holds the key.
fn decides(operator: Operator, holds: bool) -> bool
    ensures { result ≡ decides (operator_of operator) holds }
{
    match operator {
        Operator::Equals => true,
        Operator::In => holds,
    }
}

// What the first line says that says anything of its name and value; no where there is none.
fn first_said<F: Fn(&[u8], &[u8]) -> Option<bool>>(lines: &[u8], says: F) -> bool
    requires lines_len { bindings_bytes ≤ length lines.now }
    requires callable { F.IsAlwaysCallable says }
    ensures { (asked : List Binding → Bool) → Asked (FnReturnsAtPair F.Fn says) asked → result ≡ asked (bindings_in lines.now) }
{
    for i in 0..BINDINGS {
        let at = i * BINDING;
        if lines[at] == 0 {
            return false;
        }
        let name = name_from(lines, at, NAME_ROW);
        let value = name_from(lines, at + NAME_ROW, KEY_ROW);
        if let Some(said) = says(name, value) {
            return said;
        }
    }
    false
}

// Whether the key is the first value listed under the name n, or any of them, as the operator says. The value is compared first: where it does not decide, the name need not be.
fn is_listed(lines: &[u8], operator: Operator, n: &[u8], key: &[u8]) -> bool
    requires { bindings_bytes ≤ length lines.now }
    ensures { result ≡ admits (bindings_in lines.now) (environment (operator_of operator) n.now) key.now }
{
    first_said(lines, |name, value| {
        let holds = same(key, value);
        if decides(operator, holds) && same(name, n) {
            Some(holds)
        } else {
            None
        }
    })
}

// Whether some line has the key as its value: where none has, no environment step admits it.
pub fn has_value(lines: &[u8], key: &[u8]) -> bool
    requires { bindings_bytes ≤ length lines.now }
    ensures { result ≡ has_value (bindings_in lines.now) key.now }
{
    first_said(
        lines,
        |_, value| if same(key, value) { Some(true) } else { None },
    )
}

// Whether the step in a row admits the key, given the right environment lines.
fn may_admit(step: &[u8], key: &[u8]) -> bool
    requires { length step.now ≡ step_row }
    ensures { result ≡ may_admit (step_in step.now) key.now }
{
    match kind_of(step[0]) {
        Kind::Names => has_name(&step[1..], key),
        Kind::Wildcard => true,
        Kind::Environment(_) => true,
    }
}

// Whether the step in a row asks the environment lines.
pub fn asks(step: &[u8]) -> bool
    requires { length step.now ≡ step_row }
    ensures { result ≡ asks (step_in step.now) }
{
    match kind_of(step[0]) {
        Kind::Names => false,
        Kind::Wildcard => false,
        Kind::Environment(_) => true,
    }
}

// Whether the environment lines let the step in a row admit the key: only an environment step asks them.
fn is_met(lines: &[u8], step: &[u8], key: &[u8]) -> bool
    requires { (bindings_bytes ≤ length lines.now) × (length step.now ≡ step_row) }
    ensures { result ≡ is_met (bindings_in lines.now) (step_in step.now) key.now }
{
    match kind_of(step[0]) {
        Kind::Names => true,
        Kind::Wildcard => true,
        Kind::Environment(operator) => is_listed(lines, operator, first_name(&step[1..]), key),
    }
}

// Whether the policy path in one slot matches the field's path in the other, given the right environment lines.
pub fn may_match(steps: &[u8], slot: &[u8]) -> bool
    requires { (steps_slot ≤ length steps.now) × (path_slot ≤ length slot.now) }
    ensures { result ≡ may_match (steps_in steps.now) (path_in slot.now) }
{
    let n = count(steps, MAX_DEPTH);
    if count(slot, MAX_DEPTH) != n {
        return false;
    }
    for i in 0..n {
        if !may_admit(row_at(steps, STEP, i), key_at(slot, i)) {
            return false;
        }
    }
    true
}

// Whether any step of the policy path asks the environment lines.
pub fn asks_lines(steps: &[u8]) -> bool
    requires { steps_slot ≤ length steps.now }
    ensures { result ≡ any asks (steps_in steps.now) }
{
    let depth = count(steps, MAX_DEPTH);
    for i in 0..depth {
        if asks(row_at(steps, STEP, i)) {
            return true;
        }
    }
    false
}

// Whether a policy path that may match does so with these environment lines.
pub fn lines_match(lines: &[u8], steps: &[u8], slot: &[u8]) -> bool
    requires bindings_bytes_in_bounds { (bindings_bytes ≤ length lines.now) × (steps_slot ≤ length steps.now) × (path_slot ≤ length slot.now) }
    requires slot_value { may_match (steps_in steps.now) (path_in slot.now) ≡ true }
    ensures { result ≡ matches (bindings_in lines.now) (steps_in steps.now) (path_in slot.now) }
{
    let n = count(steps, MAX_DEPTH);
    for i in 0..n {
        if !is_met(lines, row_at(steps, STEP, i), key_at(slot, i)) {
            return false;
        }
    }
    true
}

// Whether the policy path in one slot matches the field's path in the other. The lines are asked only where a step asks them.
pub fn matches(lines: &[u8], steps: &[u8], slot: &[u8]) -> bool
    requires { (bindings_bytes ≤ length lines.now) × (steps_slot ≤ length steps.now) × (path_slot ≤ length slot.now) }
    ensures { result ≡ matches (bindings_in lines.now) (steps_in steps.now) (path_in slot.now) }
{
    if !may_match(steps, slot) {
        return false;
    }
    if !asks_lines(steps) {
        return true;
    }
    lines_match(lines, steps, slot)
}
