// Paths in conflict: one is shorter, and each of its steps overlaps the other's step there.
ghost use Rattle.std.specs.Prelude.{◌≡◌, ◌≤◌, ◌<◌, length};
ghost use Rattle.model.specs.Base.{any, among};
ghost use Rattle.model.specs.Limits.{max_depth};
ghost use Rattle.model.specs.Paths.{as_steps};
ghost use Rattle.model.specs.Rights.{overlap, is_above, conflict};
ghost use Rattle.layout.specs.Layout.{slot_count};
ghost use Rattle.paths.specs.Layout.{path_slot, path_in};
ghost use Rattle.steps.specs.Steps.{names_slot, step_row, steps_slot, names_in, step_in, steps_in};

use crate::path::has_name;
use layout::counted::{count, row_at};
use lexical::limits::{MAX_DEPTH, MAX_LISTED};
use paths::key::key_at;
use steps::policy::{STEP, STEPS, kind_of, push_step};
use steps::step::{Kind, Step, one_name};

// Whether two slots of names share one.
fn share(a: &[u8], b: &[u8]) -> bool
    requires { (names_slot ≤ length a.now) × (names_slot ≤ length b.now) }
    ensures { result ≡ any (λ n. among n (names_in b.now)) (names_in a.now) }
{
    let n = count(a, MAX_LISTED);
    for i in 0..n {
        if has_name(b, key_at(a, i)) {
            return true;
        }
    }
    false
}

// Whether the steps of two rows overlap.
fn overlap(a: &[u8], b: &[u8]) -> bool
    requires { (length a.now ≡ step_row) × (length b.now ≡ step_row) }
    ensures { result ≡ overlap (step_in a.now) (step_in b.now) }
{
    let Kind::Names = kind_of(a[0]) else {
        return true;
    };
    let Kind::Names = kind_of(b[0]) else {
        return true;
    };
    share(&a[1..], &b[1..])
}

// Whether the steps of a path, m of them, overlap those of a longer one.
fn is_above(a: &[u8], m: usize, b: &[u8]) -> bool
    requires steps_slot_in_bounds { (steps_slot ≤ length a.now) × (steps_slot ≤ length b.now) }
    requires m_value { (m ≡ slot_count max_depth a.now) × (m < slot_count max_depth b.now) }
    ensures { result ≡ is_above (steps_in a.now) (steps_in b.now) }
{
    for i in 0..m {
        if !overlap(row_at(a, STEP, i), row_at(b, STEP, i)) {
            return false;
        }
    }
    true
}

// Whether the paths are in conflict. Only the shorter can be above the other: paths of equal length never conflict, so most lines need no look at their steps.
pub fn conflict(a: &[u8], b: &[u8]) -> bool
    requires { (steps_slot ≤ length a.now) × (steps_slot ≤ length b.now) }
    ensures { result ≡ conflict (steps_in a.now) (steps_in b.now) }
{
    let m = count(a, MAX_DEPTH);
    let n = count(b, MAX_DEPTH);
    if m < n {
        return is_above(a, m, b);
    }
    if n < m {
        return is_above(b, n, a);
    }
    false
}

// A field's path as steps: each key counts as a list of one.
pub fn steps_of(slot: &[u8]) -> [u8; STEPS]
    requires { path_slot ≤ length slot.now }
    ensures { steps_in result ≡ as_steps (path_in slot.now) }
{
    let n = count(slot, MAX_DEPTH);
    let mut steps = [0u8; STEPS];
    for i in 0..n {
        let names = one_name(key_at(slot, i));
        push_step(
            &mut steps,
            Step {
                kind: Kind::Names,
                names,
            },
        );
    }
    steps
}
