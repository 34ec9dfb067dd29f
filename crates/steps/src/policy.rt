// A policy path: at most six steps in a slot, a byte that says how many and a row for each.
ghost use Rattle.std.specs.Prelude.{◌≡◌, [], ◌∷◌, ◌++◌, ◌+◌, ◌≤◌, ◌<◌, ◌^◌, length, get_or, take};
ghost use Rattle.std.specs.Prelude.{None};
ghost use Rattle.rows.specs.Rows.{Wrote};
ghost use Rattle.model.specs.Paths.{environment, operator_text, step_text, steps_text, read_step, read_path, steps_of};
ghost use Rattle.steps.specs.Steps.{names_slot, step_row, steps_slot, spelled_step, spelled_steps, operator_of, names_in, by_kind, kind_of, byte_of, step_in, steps_in, step_of, row_of, CanonicalStep, CanonicalSteps, StepsAre};
ghost use Rattle.layout.specs.Layout.{Keeps};
ghost use Rattle.model.specs.Limits.{max_depth};

use crate::step::{Kind, NAMES, Operator, Step, step_at};
use buffers::{put, put_byte, put_quoted};
use layout::counted::{count, push_row, row_at};
use lexical::limits::{MAX_DEPTH, MAX_LISTED, MAX_PATH_TEXT};
use lexical::slice::is_at;
use paths::key::key_at;

// A step in a row: the byte of its kind, and its names. A slot: how many steps, and a row for each.
pub const STEP: usize = 1 + NAMES;

pub const STEPS: usize = 1 + MAX_DEPTH * STEP;

// The byte of a kind in a row.
impl From<Kind> for u8 {
    ghost from_gives = { λ kind b. b ≡ byte_of kind };

    fn from(kind: Kind) -> u8 {
        match kind {
            Kind::Names => 0,
            Kind::Wildcard => 1,
            Kind::Environment(Operator::Equals) => 2,
            Kind::Environment(Operator::In) => 3,
        }
    }
}

// The kind of a step in a row: named among the promises, so no impl of From.
pub fn kind_of(b: u8) -> Kind
    ensures { result ≡ kind_of b }
{
    match b {
        1 => Kind::Wildcard,
        2 => Kind::Environment(Operator::Equals),
        3 => Kind::Environment(Operator::In),
        _ => Kind::Names,
    }
}

// A step into its row.
fn put_row(row: &mut [u8], step: Step)
    requires { length row.old ≡ step_row }
    ensures { row.new ≡ row_of step }
{
    row[0] = u8::from(step.kind);
    put(row, 1, &step.names);
}

// One step more, where there is room for it.
pub fn push_step(slot: &mut [u8], step: Step)
    requires { steps_slot ≤ length slot.old }
    ensures slot_after { steps_in slot.new ≡ take max_depth (steps_in slot.old ++ (step_of step ∷ [])) }
    ensures keeps { CanonicalStep (row_of step) → Keeps CanonicalSteps slot.old slot.new }
{
    let mut row = [0u8; STEP];
    put_row(&mut row, step);
    push_row(slot, STEP, MAX_DEPTH, &row);
}

// The first of the names, or nothing.
pub fn first_name(names: &[u8]) -> &[u8]
    requires { names_slot ≤ length names.now }
    ensures { result.now ≡ get_or (names_in names.now) 0 [] }
{
    if 0 < count(names, MAX_LISTED) {
        return key_at(names, 0);
    }
    &names[..0]
}

// A list of names in the standard spelling: in single quotes, with commas between.
fn put_list(out: &mut [u8], at: usize, names: &[u8]) -> usize
    requires { (names_slot ≤ length names.now) × (at + spelled_step < 2 ^ 64) }
    ensures { Wrote at (step_text (by_kind Kind.Names (names_in names.now))) out.old result out.new }
{
    let mut to = put_byte(out, at, b'[');
    for i in 0..count(names, MAX_LISTED) {
        if 0 < i {
            to = put_byte(out, to, b',');
        }
        to = put_quoted(out, to, b'\'', key_at(names, i));
    }
    put_byte(out, to, b']')
}

// The opening bracket of an environment step, and the word of its operator.
fn put_operator(out: &mut [u8], at: usize, operator: Operator) -> usize
    requires { at + 4 < 2 ^ 64 }
    ensures { Wrote at (0x5B ∷ operator_text (operator_of operator)) out.old result out.new }
{
    match operator {
        Operator::Equals => put(out, at, b"[=~"),
        Operator::In => put(out, at, b"[in~"),
    }
}

// An environment step in the standard spelling.
fn put_environment(out: &mut [u8], at: usize, operator: Operator, name: &[u8]) -> usize
    requires { at + length name.now + 5 < 2 ^ 64 }
    ensures { Wrote at (step_text (environment (operator_of operator) name.now)) out.old result out.new }
{
    let from = put_operator(out, at, operator);
    let to = put(out, from, name);
    put_byte(out, to, b']')
}

// A step in the standard spelling.
fn put_step(out: &mut [u8], at: usize, row: &[u8]) -> usize
    requires { (length row.now ≡ step_row) × (at + spelled_step < 2 ^ 64) }
    ensures { Wrote at (step_text (step_in row.now)) out.old result out.new }
{
    let names = &row[1..];
    match kind_of(row[0]) {
        Kind::Wildcard => put(out, at, b"[*]"),
        Kind::Names => put_list(out, at, names),
        Kind::Environment(operator) => put_environment(out, at, operator, first_name(names)),
    }
}

// A policy path in the standard spelling.
pub fn put_steps(out: &mut [u8], at: usize, slot: &[u8]) -> usize
    requires { (steps_slot ≤ length slot.now) × (at + spelled_steps < 2 ^ 64) }
    ensures wrote { Wrote at (steps_text (steps_in slot.now)) out.old result out.new }
    ensures upper_bound { result ≤ at + spelled_steps }
{
    let mut to = put_byte(out, at, b'$');
    for i in 0..count(slot, MAX_DEPTH) {
        to = put_step(out, to, row_at(slot, STEP, i));
    }
    to
}

// One to six steps behind a `$`, in any spelling, that are the whole text.
fn read_all(s: &[u8]) -> Option<[u8; STEPS]>
    ensures { StepsAre result (read_path read_step s.now) }
{
    if !is_at(s, 0, b'$') {
        return None;
    }
    let mut slot = [0u8; STEPS];
    let mut at = 1;
    // A cursor: where a step ends, its reader says.
    while at < s.len() {
        if MAX_DEPTH <= count(&slot, MAX_DEPTH) {
            return None;
        }
        let (step, to) = step_at(s, at)?;
        push_step(&mut slot, step);
        at = to;
    }
    if count(&slot, MAX_DEPTH) == 0 {
        return None;
    }
    Some(slot)
}

// A policy path that is not too long in the standard spelling, which is written into no bytes: where it ends is all that is asked.
pub fn read_steps(s: &[u8]) -> Option<[u8; STEPS]>
    ensures { StepsAre result (steps_of s.now) }
{
    let slot = read_all(s)?;
    if MAX_PATH_TEXT < put_steps(&mut [], 0, &slot) {
        return None;
    }
    Some(slot)
}
