// The functions of `layout`, `paths`, `steps` and `matching`.
use crate::{each, show};
use buffers::put;
use layout::counted::count;
use layout::name::{KEY_ROW, NAME_ROW, name, name_from, put_name};
use lexical::limits::{MAX_DEPTH, MAX_LISTED};
use matching::conflict::{conflict, steps_of};
use matching::path::{has_name, matches};
use paths::field::{PATH, compare_paths, put_path, read_path};
use paths::key::{key_at, push_key};
use std::io;
use steps::policy::{STEPS, kind_of, push_step, put_steps, read_steps};
use steps::step::{BINDING, ENVIRONMENT, Kind, NAMES, Operator, Step, one_name, step_at};

// What is shown of a text.
const OUT: usize = 40;

// Where the second of two environment lines has its value.
const SECOND_VALUE: usize = BINDING + NAME_ROW;

fn kind(rt: &impl Print, k: Kind) -> io::Result<()> {
    match k {
        Kind::Names => show::text(rt, b"names\n"),
        Kind::Wildcard => show::text(rt, b"wildcard\n"),
        Kind::Environment(operator) => match operator {
            Operator::Equals => show::text(rt, b"equals\n"),
            Operator::In => show::text(rt, b"in\n"),
        },
    }
}

// A name in a row, which has no room for its last byte.
fn name_in_row(rt: &impl Print) -> io::Result<()> {
    let mut row = [0u8; NAME_ROW];
    put_name(&mut row, b"seventeen bytes..");
    show::line(rt, name(&row))
}

fn two_names() -> [u8; NAMES] {
    let mut slot = [0u8; NAMES];
    push_key(&mut slot, b"ann", MAX_LISTED);
    push_key(&mut slot, b"bob", MAX_LISTED);
    slot
}

fn names_in_slot(rt: &impl Print, slot: &[u8; NAMES]) -> io::Result<()> {
    show::count(rt, count(slot, MAX_LISTED) as u64)?;
    show::line(rt, key_at(slot, 1))?;
    show::line(rt, name_from(slot, 1, KEY_ROW))?;
    show::flag(rt, has_name(slot, b"bob"))?;
    show::flag(rt, has_name(slot, b"bo"))
}

fn names(rt: &impl Print) -> io::Result<()> {
    name_in_row(rt)?;
    let slot = two_names();
    names_in_slot(rt, &slot)?;
    let one = one_name(b"eve");
    show::flag(rt, has_name(&one, b"eve"))
}

fn kinds(rt: &impl Print) -> io::Result<()> {
    kind(rt, kind_of(0))?;
    kind(rt, kind_of(1))?;
    kind(rt, kind_of(2))?;
    kind(rt, kind_of(3))?;
    kind(rt, kind_of(4))
}

// A path with one key more.
fn longer(slot: &mut [u8; PATH]) {
    push_key(slot, b"more", MAX_DEPTH);
}

fn path_text(rt: &impl Print, slot: &[u8; PATH]) -> io::Result<()> {
    let mut out = [b'.'; OUT];
    let to = put_path(&mut out, 0, slot);
    show::buffer(rt, &out, to)
}

fn path(rt: &impl Print, s: &[u8]) -> io::Result<()> {
    show::asked(rt, b"read_path", s)?;
    let Some(mut slot) = read_path(s) else {
        return show::bad(rt);
    };
    path_text(rt, &slot)?;
    longer(&mut slot);
    path_text(rt, &slot)
}

fn steps_text(rt: &impl Print, slot: &[u8; STEPS]) -> io::Result<()> {
    let mut out = [b'.'; OUT];
    let to = put_steps(&mut out, 0, slot);
    show::buffer(rt, &out, to)?;
    show::count(rt, count(slot, MAX_DEPTH) as u64)
}

fn policy(rt: &impl Print, s: &[u8]) -> io::Result<()> {
    show::asked(rt, b"read_steps", s)?;
    let Some(slot) = read_steps(s) else {
        return show::bad(rt);
    };
    steps_text(rt, &slot)
}

fn step_alone(rt: &impl Print, found: Step) -> io::Result<()> {
    let mut slot = [0u8; STEPS];
    push_step(&mut slot, found);
    steps_text(rt, &slot)
}

fn step(rt: &impl Print, s: &[u8]) -> io::Result<()> {
    show::asked(rt, b"step_at", s)?;
    let Some((found, to)) = step_at(s, 0) else {
        return show::bad(rt);
    };
    show::count(rt, to as u64)?;
    step_alone(rt, found)
}

fn order_of(rt: &impl Print, a: &[u8], b: &[u8]) -> io::Result<()> {
    show::asked_both(rt, b"compare_paths", a, b)?;
    let (Some(x), Some(y)) = (read_path(a), read_path(b)) else {
        return show::bad(rt);
    };
    show::order(rt, compare_paths(&x, &y))
}

// A user's two lines, n 29 and n 30: before each name and value stands how long it is.
fn two_lines() -> [u8; ENVIRONMENT] {
    let mut lines = [0u8; ENVIRONMENT];
    put(&mut lines, 0, b"\x01n");
    put(&mut lines, NAME_ROW, b"\x0229");
    put(&mut lines, BINDING, b"\x01n");
    put(&mut lines, SECOND_VALUE, b"\x0230");
    lines
}

fn match_of(rt: &impl Print, p: &[u8], k: &[u8]) -> io::Result<()> {
    show::asked_both(rt, b"matches", p, k)?;
    let lines = two_lines();
    let (Some(steps), Some(slot)) = (read_steps(p), read_path(k)) else {
        return show::bad(rt);
    };
    show::flag(rt, matches(&lines, &steps, &slot))
}

fn conflict_of(rt: &impl Print, p: &[u8], q: &[u8], k: &[u8]) -> io::Result<()> {
    show::asked_both(rt, b"conflict", p, q)?;
    let (Some(a), Some(b), Some(slot)) = (read_steps(p), read_steps(q), read_path(k)) else {
        return show::bad(rt);
    };
    show::flag(rt, conflict(&a, &b))?;
    show::asked(rt, b"and the field", k)?;
    show::flag(rt, conflict(&a, &steps_of(&slot)))
}

fn orders(rt: &impl Print) -> io::Result<()> {
    let a = b"$['a']";
    let ab = b"$['a']['b']";
    order_of(rt, a, a)?;
    order_of(rt, a, ab)?;
    order_of(rt, ab, a)?;
    order_of(rt, b"$['a']['c']", b"$['ab']['b']")
}

fn matches_by_environment(rt: &impl Print) -> io::Result<()> {
    let first = b"$['29']['speed']";
    let second = b"$['30']['speed']";
    let equals = b"$[=~n].speed";
    match_of(rt, b"$.*.speed", first)?;
    match_of(rt, equals, first)?;
    match_of(rt, equals, second)?;
    match_of(rt, b"$[in~n].speed", second)
}

fn matches_by_names(rt: &impl Print) -> io::Result<()> {
    match_of(rt, b"$['29','31'].speed", b"$['31']['speed']")?;
    match_of(rt, b"$.*", b"$['29']['speed']")
}

fn conflicts_by_length(rt: &impl Print) -> io::Result<()> {
    conflict_of(rt, b"$.a.b", b"$.a", b"$['a']")?;
    conflict_of(rt, b"$.a.b", b"$.c", b"$['a']['b']")
}

fn conflicts_by_steps(rt: &impl Print) -> io::Result<()> {
    conflict_of(rt, b"$['x','a'].b", b"$['a','y']", b"$['a']['b']['c']")?;
    conflict_of(rt, b"$[=~loco].b", b"$.a", b"$['z']")
}

// At most six steps, and at most 121 bytes in the standard spelling.
fn long_policies(rt: &impl Print) -> io::Result<()> {
    each(
        rt,
        b"$.a.b.c.d.e.f
$.a.b.c.d.e.f.g
$['sixteen bytes ok','sixteen bytes ok','sixteen bytes ok','sixteen bytes ok']['sixteen bytes ok','sixteen bytes ok']
$['sixteen bytes ok','sixteen bytes ok','sixteen bytes ok','sixteen bytes ok'].sixteen_bytes_ok.fourteen_bytes.x
$['sixteen bytes ok','sixteen bytes ok','sixteen bytes ok','sixteen bytes ok'].sixteen_bytes_ok.fourteen_bytes.xy
",
        policy,
    )
}

pub fn table(rt: &impl Print) -> io::Result<()> {
    names(rt)?;
    kinds(rt)?;
    each(
        rt,
        b"$['a']
$['sixteen bytes ok']['b']
$['seventeen bytes..']
$['a']['b']['c']['d']['e']['f']
$['a']['b']['c']['d']['e']['f']['g']
$

$.a
$[\"a\"]
$['a']\x20
",
        path,
    )?;
    each(
        rt,
        b"$.a
$.29
$._29
$.*
$[*]['a',\"b\"]
$['a','b','c','d']
$['a','b','c','d','e']
$['a',]
$[]
$[=~loco].speed
$[in~loco]
$[=~lo co]
",
        policy,
    )?;
    long_policies(rt)?;
    each(
        rt,
        b".name['x']
.seventeen_bytes__
[*]
['a','b']
[in~loco]
['a' ]
",
        step,
    )?;
    orders(rt)?;
    matches_by_environment(rt)?;
    matches_by_names(rt)?;
    conflicts_by_length(rt)?;
    conflicts_by_steps(rt)
}
