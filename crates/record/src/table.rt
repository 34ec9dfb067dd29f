// A table of slots, sorted by path: the slots before the first empty one are in use.
ghost use Rattle.std.specs.Prelude.{◌≡◌, true, false, ◌*◌, ◌≤◌, ◌<◌, length, take, drop};
ghost use Rattle.std.specs.Fn.{FnReturnsAt};
ghost use Rattle.model.specs.Limits.{max_fields};
ghost use Rattle.model.specs.Fields.{Keys};
ghost use Rattle.layout.specs.Layout.{is_empty, Keeps};
ghost use Rattle.paths.specs.Layout.{path_slot, path_in};
ghost use Rattle.record.specs.Slots.{slot_bytes, mask_in, fields_in, masks_in, CanonicalField, CanonicalFields};
ghost use Rattle.record.specs.Search.{place_in, PutsBehind, SearchedTo, stored_bytes, stored_slot, stored_masks, stored_in};

use crate::insert::insert_slot;
use layout::table::{is_empty, replace_row, row_at, row_count};
use lexical::limits::{MAX_FIELDS, MAX_STRING};
use lexical::slice::{begins_before, first_word, is_behind};
use masks::MASK;
use paths::field::{PATH, compare_paths};
use paths::key::key_at;
use std::cmp::Ordering;

// In a slot, behind the path: the readers mask, how long the value's text is, and room for the longest.
pub const LENGTH: usize = PATH + MASK;

pub const TEXT: usize = LENGTH + 1;

pub const VALUE_ROOM: usize = 2 + MAX_STRING;

pub const SLOT: usize = TEXT + VALUE_ROOM;

pub const SLOTS: usize = MAX_FIELDS;

pub const RECORD: usize = SLOTS * SLOT;

// The place of a path, or the place before which it belongs: neither is a failure, both are places that `store_at` takes, so that `Ok` and `Err` would say less.
#[derive(Clone, Copy)]
pub enum Place {
    At(usize),
    Before(usize),
}

// The i-th slot.
pub fn slot_at(table: &[u8; RECORD], i: usize) -> &[u8]
    requires { i < max_fields }
    ensures { (result.now ≡ take slot_bytes (drop (i * slot_bytes) table.now)) × (length result.now ≡ slot_bytes) }
{
    row_at(table, SLOT, i)
}

// How many fields a table holds.
pub fn count(table: &[u8; RECORD]) -> usize
    ensures { result ≡ length (fields_in table.now) }
{
    row_count(table, SLOT, SLOTS)
}

// How far the search for a path goes on from a place by first keys alone, past each that the test puts before the path's.
fn pass<F: Fn(&[u8]) -> bool>(table: &[u8; RECORD], from: usize, is_before: F) -> usize
    requires { F.IsAlwaysCallable is_before }
    ensures { (p : Keys) → PutsBehind (λ k. FnReturnsAt F.Fn is_before k true) p → SearchedTo from p (fields_in table.now) → SearchedTo result p (fields_in table.now) }
{
    for i in from..SLOTS {
        let slot = slot_at(table, i);
        if is_empty(slot) {
            return i;
        }
        if !is_before(key_at(slot, 0)) {
            return i;
        }
    }
    SLOTS
}

// How far the search for a path comes by first keys alone: first by their first words, then by the rest of them. Most slots that it passes have a first key before the path's.
fn passed(table: &[u8; RECORD], path: &[u8]) -> usize
    requires { path_slot ≤ length path.now }
    ensures { SearchedTo result (path_in path.now) (fields_in table.now) }
{
    if is_empty(path) {
        return 0;
    }
    let first = key_at(path, 0);
    let word = first_word(first);
    let from = pass(table, 0, |key| begins_before(key, word));
    pass(table, from, |key| is_behind(first, key))
}

// Where the path of a slot stands in a table, or before which place it belongs.
pub fn find(table: &[u8; RECORD], path: &[u8]) -> Place
    requires { path_slot ≤ length path.now }
    ensures { result ≡ place_in 0 (path_in path.now) (fields_in table.now) }
{
    for i in passed(table, path)..SLOTS {
        let slot = slot_at(table, i);
        if is_empty(slot) {
            return Place::Before(i);
        }
        match compare_paths(path, slot) {
            Ordering::Less => return Place::Before(i),
            Ordering::Equal => return Place::At(i),
            Ordering::Greater => {}
        }
    }
    Place::Before(SLOTS)
}

// The field of a slot, in the place of the one of its path or where it belongs, which a search has found.
pub fn store_at(table: &mut [u8; RECORD], place: Place, slot: &[u8; SLOT])
    requires { (is_empty slot.now ≡ false) × (place ≡ place_in 0 (path_in slot.now) (fields_in table.old)) }
    ensures table_after { fields_in table.new ≡ stored_in slot.now (fields_in table.old) }
    ensures table_after_2 { masks_in table.new ≡ stored_masks place (mask_in slot.now) (masks_in table.old) }
    ensures table_after_3 { table.new ≡ stored_bytes place slot.now table.old }
{
    match place {
        Place::At(at) => replace_row(table, SLOT, SLOTS, at, slot),
        Place::Before(at) => {
            if at < SLOTS {
                insert_slot(table, at, slot);
            }
        }
    }
}

// The field of a slot, in the place of the one of its path or where it belongs: an empty slot changes nothing.
pub fn store(table: &mut [u8; RECORD], slot: &[u8; SLOT])
    ensures table_after { fields_in table.new ≡ stored_in slot.now (fields_in table.old) }
    ensures keeps { CanonicalField slot.now → Keeps CanonicalFields table.old table.new }
    ensures table_after_2 { table.new ≡ stored_slot slot.now table.old }
{
    if is_empty(slot) {
        return;
    }
    let place = find(table, slot);
    store_at(table, place, slot);
}
