// A slot: a path, the mask of those who may read the field, how long the value's text is, and room for the text.
ghost use Rattle.std.specs.Prelude.{◌≡◌, false, ◌*◌, ◌≤◌, ◌<◌, min, length, take, drop, set, replicate};
ghost use Rattle.model.specs.Limits.{max_text};
ghost use Rattle.values.specs.Scalars as scalars;
ghost use Rattle.paths.specs.Layout.{path_slot, path_in};
ghost use Rattle.record.specs.Slots.{value_room, slot_bytes, record_bytes, text_in, mask_in, fields_in, masks_in, slot_of, with_mask, Proper, CanonicalFields};
ghost use Rattle.layout.specs.Layout.{is_empty, over_row, Keeps};
ghost use Rattle.record.specs.Search.{place_in, stored_bytes, stored_slot, stored_masks, stored_at};

use crate::table::{LENGTH, Place, RECORD, SLOT, TEXT, VALUE_ROOM, store, store_at};
use buffers::{copy, put};
use layout::counted::count;
use masks::{decode_mask, encode_mask};
use paths::field::PATH;
use values::value::{Scalar, put_value};

// The text of a slot's value.
pub fn value_text(slot: &[u8]) -> &[u8]
    requires { length slot.now ≡ slot_bytes }
    ensures result_value { result.now ≡ text_in slot.now }
    ensures result_len_bound { length result.now ≤ value_room }
{
    let end = TEXT + count(&slot[LENGTH..], VALUE_ROOM);
    &slot[TEXT..end]
}

// The mask of those who may read a slot's field.
pub fn mask_of(slot: &[u8]) -> u32
    requires { length slot.now ≡ slot_bytes }
    ensures { result ≡ mask_in slot.now }
{
    decode_mask(&slot[PATH..])
}

// A slot's mask becomes another.
fn put_mask(slot: &mut [u8], mask: u32)
    requires { length slot.old ≡ slot_bytes }
    ensures { slot.new ≡ with_mask mask slot.old }
{
    put(slot, PATH, &encode_mask(mask));
}

// The mask of the i-th field becomes another.
pub fn set_mask(table: &mut [u8; RECORD], i: usize, mask: u32)
    requires { i < length (fields_in table.old) }
    ensures table_unchanged { (fields_in table.new ≡ fields_in table.old) × (masks_in table.new ≡ set (masks_in table.old) i mask) }
    ensures keeps { Keeps CanonicalFields table.old table.new }
    ensures table_after { table.new ≡ over_row slot_bytes i (with_mask mask (take slot_bytes (drop (i * slot_bytes) table.old))) table.old }
{
    let start = i * SLOT;
    let end = start + SLOT;
    put_mask(&mut table[start..end], mask);
}

// The length of a value's text as the byte that says it: at most what there is room for.
fn length_byte(n: usize) -> u8
    ensures { result ≡ min n value_room }
{
    n.min(VALUE_ROOM) as u8
}

// A field into a slot of zeros: a path, a mask, and a value whose string is a part of the text.
fn fill(slot: &mut [u8], path: &[u8], mask: u32, v: Scalar, text: &[u8])
    requires { (slot.old ≡ replicate slot_bytes 0) × (length path.now ≡ path_slot) × (length text.now ≤ max_text) × scalars.InText v text.now }
    ensures { slot.new ≡ slot_of path.now mask (scalars.value_in text.now v) }
{
    copy(slot, &path[0..PATH]);
    put_mask(slot, mask);
    let n = put_value(&mut slot[TEXT..], 0, v, text);
    slot[LENGTH] = length_byte(n);
}

// A value, whose string is a part of the text, at a path, with an empty mask: without keys nothing changes.
pub fn store_value(table: &mut [u8; RECORD], path: &[u8], v: Scalar, text: &[u8])
    requires { (length path.now ≡ path_slot) × (length text.now ≤ max_text) × scalars.InText v text.now }
    ensures table_after { fields_in table.new ≡ stored_at path.now (scalars.value_in text.now v) (fields_in table.old) }
    ensures keeps { Proper path.now (scalars.value_in text.now v) → Keeps CanonicalFields table.old table.new }
    ensures table_after_2 { table.new ≡ stored_slot (slot_of path.now 0 (scalars.value_in text.now v)) table.old }
{
    let mut slot = [0u8; SLOT];
    fill(&mut slot, path, 0, v, text);
    store(table, &slot);
}

// The same with a mask, where the path has keys and its place is known.
pub fn store_value_at(
    table: &mut [u8; RECORD],
    place: Place,
    path: &[u8],
    mask: u32,
    v: Scalar,
    text: &[u8],
)
    requires path_len { (length path.now ≡ path_slot) × (length text.now ≤ max_text) × scalars.InText v text.now }
    requires path_value { (is_empty path.now ≡ false) × (place ≡ place_in 0 (path_in path.now) (fields_in table.old)) }
    ensures table_after { fields_in table.new ≡ stored_at path.now (scalars.value_in text.now v) (fields_in table.old) }
    ensures table_after_2 { masks_in table.new ≡ stored_masks place mask (masks_in table.old) }
    ensures table_after_3 { table.new ≡ stored_bytes place (slot_of path.now mask (scalars.value_in text.now v)) table.old }
{
    let mut slot = [0u8; SLOT];
    fill(&mut slot, path, mask, v, text);
    store_at(table, place, &slot);
}
