// A field's path: at most six keys in a slot.
ghost use Rattle.std.specs.Prelude.{◌≡◌, ◌+◌, ◌≤◌, ◌<◌, ◌^◌, length, option_map, IfSome};
ghost use Rattle.rows.specs.Rows.{Wrote};
ghost use Rattle.rows.specs.Positions.{placed};
ghost use Rattle.model.specs.Limits.{max_path_text, max_depth};
ghost use Rattle.model.specs.Fields.{order_path};
ghost use Rattle.model.specs.Paths.{read_key_step, keys_of, keys_text};
ghost use Rattle.layout.specs.Layout.{CanonicalKeys};
ghost use Rattle.lexical.specs.Orders.{order_of};
ghost use Rattle.paths.specs.Layout.{path_slot, path_in};
ghost use Rattle.paths.specs.Fields.{key_answer, shared};

use crate::key::{key_at, push_key};
use buffers::{put_byte, put_quoted};
use layout::counted::count;
use layout::name::KEY_ROW;
use lexical::class::{Class, between};
use lexical::limits::{MAX_DEPTH, MAX_KEY};
use lexical::slice::{compare, is_at, same};
use std::cmp::Ordering;

// A slot of a path: how many keys, and a row for each.
pub const PATH: usize = 1 + MAX_DEPTH * KEY_ROW;

// The order of two slots' paths, key by key.
pub fn compare_paths(a: &[u8], b: &[u8]) -> Ordering
    requires { (path_slot ≤ length a.now) × (path_slot ≤ length b.now) }
    ensures { result ≡ order_of (order_path (path_in a.now) (path_in b.now)) }
{
    let m = count(a, MAX_DEPTH);
    let n = count(b, MAX_DEPTH);
    for i in 0..m.min(n) {
        match compare(key_at(a, i), key_at(b, i)) {
            Ordering::Equal => {}
            order => return order,
        }
    }
    m.cmp(&n)
}

// How many first keys two paths share.
pub fn shared_keys(a: &[u8], b: &[u8]) -> usize
    requires { (path_slot ≤ length a.now) × (path_slot ≤ length b.now) }
    ensures { result ≡ shared (path_in a.now) (path_in b.now) }
{
    let n = count(a, MAX_DEPTH).min(count(b, MAX_DEPTH));
    for i in 0..n {
        if !same(key_at(a, i), key_at(b, i)) {
            return i;
        }
    }
    n
}

// A key in brackets and single quotes: where it ends.
fn key_step(s: &[u8], at: usize) -> Option<usize>
    requires { at ≤ length s.now }
    ensures { key_answer s.now at result ≡ placed read_key_step s.now at }
{
    if !is_at(s, at, b'[') {
        return None;
    }
    let e = between(s, at + 1, b'\'', Class::Name, 1, MAX_KEY)?;
    if !is_at(s, e, b']') {
        return None;
    }
    Some(e + 1)
}

// A normalized path that is the whole text, in a slot of its own.
pub fn read_path(s: &[u8]) -> Option<[u8; PATH]>
    ensures { (option_map path_in result ≡ keys_of s.now) × IfSome result (CanonicalKeys max_depth) }
{
    if !is_at(s, 0, b'$') {
        return None;
    }
    let mut slot = [0u8; PATH];
    let mut at = 1;
    // A cursor: where a key ends, its reader says.
    while at < s.len() {
        if MAX_DEPTH <= count(&slot, MAX_DEPTH) {
            return None;
        }
        let e = key_step(s, at)?;
        push_key(&mut slot, &s[at + 2..e - 2], MAX_DEPTH);
        at = e;
    }
    if count(&slot, MAX_DEPTH) == 0 {
        return None;
    }
    Some(slot)
}

// The normalized path of a slot.
pub fn put_path(out: &mut [u8], at: usize, slot: &[u8]) -> usize
    requires { (path_slot ≤ length slot.now) × (at + max_path_text < 2 ^ 64) }
    ensures { Wrote at (keys_text (path_in slot.now)) out.old result out.new }
{
    let mut to = put_byte(out, at, b'$');
    for i in 0..count(slot, MAX_DEPTH) {
        to = put_byte(out, to, b'[');
        to = put_quoted(out, to, b'\'', key_at(slot, i));
        to = put_byte(out, to, b']');
    }
    to
}
