// Steps of a policy path: lists of names, wildcards and environment steps, read in every spelling.
ghost use Rattle.std.specs.Prelude.{◌≡◌, [], ◌∷◌, ◌≤◌, length, take};
ghost use Rattle.std.specs.Prelude.{None, Some};
ghost use Rattle.rows.specs.Positions.{placed};
ghost use Rattle.model.specs.Paths.{operator_text, read_either, in_brackets, read_wildcard, read_identifier, read_environment, read_dotted, read_list, read_selector, read_step};
ghost use Rattle.lexical.specs.Classes.{text_answer};
ghost use Rattle.steps.specs.Steps.{operator_of, by_kind, byte_of, step_of, row_of, HoldsNames, StepIs};
ghost use Rattle.model.specs.Limits.{max_key, max_listed};
ghost use Rattle.layout.specs.Layout.{encode_keys};

use layout::name::{KEY_ROW, NAME_ROW};
use lexical::class::{Class, between, is_digit, scan};
use lexical::limits::{MAX_BINDINGS, MAX_KEY, MAX_LISTED, MAX_NAME};
use lexical::slice::{is_at, starts};
use paths::key::push_key;

// The names of a step: how many, and a row for each.
pub const NAMES: usize = 1 + MAX_LISTED * KEY_ROW;

// A user's environment lines: rows of a name and a value.
pub const BINDING: usize = NAME_ROW + KEY_ROW;

pub const BINDINGS: usize = MAX_BINDINGS;

pub const ENVIRONMENT: usize = BINDINGS * BINDING;

#[derive(Clone, Copy)]
pub enum Operator {
    Equals,
    In,
}

#[derive(Clone, Copy)]
pub enum Kind {
    Names,
    Wildcard,
    Environment(Operator),
}

// The names of a list, or the one of an environment step, stand beside the kind: how many, and four rows. Where a step is read, it is answered with the position behind it.
#[derive(Clone, Copy)]
pub struct Step {
    pub kind: Kind,
    pub names: [u8; NAMES],
}

// A slot of one name.
pub fn one_name(name: &[u8]) -> [u8; NAMES]
    ensures { HoldsNames result (take max_key name.now ∷ []) }
{
    let mut names = [0u8; NAMES];
    push_key(&mut names, name, MAX_LISTED);
    names
}

// A step of one name.
fn one_named(kind: Kind, name: &[u8]) -> Step
    ensures { (step_of result ≡ by_kind kind (take max_key name.now ∷ [])) × (row_of result ≡ byte_of kind ∷ encode_keys max_listed (take max_key name.now ∷ [])) }
{
    Step {
        kind,
        names: one_name(name),
    }
}

// Any key.
fn wildcard_at(s: &[u8], at: usize) -> Option<(Step, usize)>
    requires { at ≤ length s.now }
    ensures { StepIs result (placed read_wildcard s.now at) }
{
    if !is_at(s, at, b'*') {
        return None;
    }
    let step = Step {
        kind: Kind::Wildcard,
        names: [0; NAMES],
    };
    Some((step, at + 1))
}

// An identifier, no longer than a key, that begins with no digit.
fn identifier_at(s: &[u8], at: usize) -> Option<(Step, usize)>
    requires { at ≤ length s.now }
    ensures { StepIs result (placed read_identifier s.now at) }
{
    let to = scan(s, at, Class::Identifier, 1, MAX_KEY)?;
    if is_digit(s[at]) {
        return None;
    }
    Some((one_named(Kind::Names, &s[at..to]), to))
}

// The word of an operator, and the plain name of an environment step behind it.
fn environment_at(s: &[u8], at: usize, word: &[u8], operator: Operator) -> Option<(Step, usize)>
    requires { (at ≤ length s.now) × (word.now ≡ operator_text (operator_of operator)) }
    ensures { StepIs result (placed (read_environment (operator_of operator)) s.now at) }
{
    if !starts(s, at, word) {
        return None;
    }
    let from = at + word.len();
    let to = scan(s, from, Class::Plain, 1, MAX_NAME)?;
    Some((one_named(Kind::Environment(operator), &s[from..to]), to))
}

// A name in either quote: where the closing one ends.
fn either_at(s: &[u8], at: usize) -> Option<usize>
    requires { at ≤ length s.now }
    ensures { text_answer s.now at result ≡ placed read_either s.now at }
{
    between(s, at, b'\'', Class::Name, 1, MAX_KEY).or_else(|| between(
        s,
        at,
        b'"',
        Class::Name,
        1,
        MAX_KEY,
    ))
}

// One to four names with commas between.
fn list_at(s: &[u8], at: usize) -> Option<(Step, usize)>
    requires { at ≤ length s.now }
    ensures { StepIs result (placed read_list s.now at) }
{
    let mut names = [0u8; NAMES];
    let mut from = at;
    for _ in 0..MAX_LISTED {
        let e = either_at(s, from)?;
        push_key(&mut names, &s[from + 1..e - 1], MAX_LISTED);
        if !is_at(s, e, b',') {
            let step = Step {
                kind: Kind::Names,
                names,
            };
            return Some((step, e));
        }
        from = e + 1;
    }
    None
}

// What a step has between brackets.
fn selector_at(s: &[u8], at: usize) -> Option<(Step, usize)>
    requires { at ≤ length s.now }
    ensures { StepIs result (placed read_selector s.now at) }
{
    wildcard_at(s, at)
        .or_else(|| environment_at(s, at, b"=~", Operator::Equals))
        .or_else(|| environment_at(s, at, b"in~", Operator::In))
        .or_else(|| list_at(s, at))
}

// A wildcard or an identifier behind a dot.
fn dotted_at(s: &[u8], at: usize) -> Option<(Step, usize)>
    requires { at ≤ length s.now }
    ensures { StepIs result (placed read_dotted s.now at) }
{
    if !is_at(s, at, b'.') {
        return None;
    }
    let from = at + 1;
    wildcard_at(s, from).or_else(|| identifier_at(s, from))
}

// A step in brackets.
fn bracketed_at(s: &[u8], at: usize) -> Option<(Step, usize)>
    requires { at ≤ length s.now }
    ensures { StepIs result (placed (in_brackets read_selector) s.now at) }
{
    if !is_at(s, at, b'[') {
        return None;
    }
    let (step, to) = selector_at(s, at + 1)?;
    if !is_at(s, to, b']') {
        return None;
    }
    Some((step, to + 1))
}

// A step in any spelling.
pub fn step_at(s: &[u8], at: usize) -> Option<(Step, usize)>
    requires { at ≤ length s.now }
    ensures { StepIs result (placed read_step s.now at) }
{
    dotted_at(s, at).or_else(|| bracketed_at(s, at))
}
