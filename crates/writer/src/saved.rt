// The saved text of the fields that are shown.
ghost use Rattle.std.specs.Prelude.{◌≡◌, ◌+◌, ◌≤◌, ◌<◌, ◌^◌, length, drop};
ghost use Rattle.rows.specs.Rows.{Wrote};
ghost use Rattle.model.specs.Limits.{max_fields};
ghost use Rattle.model.specs.Values.{value_text};
ghost use Rattle.model.specs.SavedText.{saved};
ghost use Rattle.layout.specs.Layout.{in_use};
ghost use Rattle.record.specs.Slots.{value_room, slot_bytes, value_in};
ghost use Rattle.writer.specs.Selected.{most_saved, is_shown, Placed, shown_from, shown_in};

use crate::turn::{put_braces, put_descent, put_turn};
use buffers::{put, put_byte};
use layout::counted::count;
use layout::table::is_empty;
use lexical::limits::{MAX_DEPTH, MAX_KEY};
use masks::has_bit;
use record::slot::{mask_of, value_text};
use record::table::{RECORD, SLOTS, VALUE_ROOM, slot_at};
use values::value::value_at;

// No saved text of all slots is longer, whatever they hold.
pub const MOST_SAVED: usize = SLOTS * (SAVED_FIELD + 1);

// A field behind another: braces, a comma, keys in quotes with colons and braces, and the value.
const SAVED_FIELD: usize = (MAX_KEY + 5) * MAX_DEPTH + VALUE_ROOM;

// Which fields are shown: all, or those whose mask has the bit of a user's place.
#[derive(Clone, Copy)]
pub enum Shown {
    All,
    To(usize),
}

// Whether the field in a slot is shown.
fn is_shown(shown: Shown, slot: &[u8]) -> bool
    requires { (length slot.now ≡ slot_bytes) × Placed shown }
    ensures { result ≡ is_shown shown slot.now }
{
    match shown {
        Shown::All => true,
        Shown::To(i) => has_bit(mask_of(slot), i),
    }
}

// The place of the first field from i on that is shown, if there is one.
fn next_shown(table: &[u8; RECORD], shown: Shown, i: usize) -> Option<usize>
    requires { (i ≤ length (in_use slot_bytes max_fields table.now)) × Placed shown }
    ensures { result ≡ shown_from shown i (drop i (in_use slot_bytes max_fields table.now)) }
{
    for j in i..SLOTS {
        let slot = slot_at(table, j);
        if is_empty(slot) {
            return None;
        }
        if is_shown(shown, slot) {
            return Some(j);
        }
    }
    None
}

// The value of a slot: what is read of its text is how the value is written.
fn put_held(out: &mut [u8], at: usize, slot: &[u8]) -> usize
    requires { (length slot.now ≡ slot_bytes) × (at + value_room < 2 ^ 64) }
    ensures wrote { Wrote at (value_text (value_in slot.now)) out.old result out.new }
    ensures upper_bound { result ≤ at + value_room }
{
    let text = value_text(slot);
    let Some((_, end)) = value_at(text, 0) else {
        return put(out, at, b"false");
    };
    put(out, at, &text[..end])
}

// The saved text of the fields that are shown.
pub fn put_saved(out: &mut [u8], at: usize, table: &[u8; RECORD], shown: Shown) -> usize
    requires { (at + most_saved < 2 ^ 64) × Placed shown }
    ensures wrote { Wrote at (saved (shown_in shown table.now)) out.old result out.new }
    ensures upper_bound { result ≤ at + most_saved }
{
    let Some(mut i) = next_shown(table, shown, 0) else {
        return put(out, at, b"{}");
    };
    let first = slot_at(table, i);
    let mut to = put_byte(out, at, b'{');
    to = put_descent(out, to, first, 0);
    to = put_held(out, to, first);
    while let Some(next) = next_shown(table, shown, i + 1) {
        let slot = slot_at(table, next);
        to = put_turn(out, to, slot_at(table, i), slot);
        to = put_held(out, to, slot);
        i = next;
    }
    put_braces(out, to, count(slot_at(table, i), MAX_DEPTH))
}
