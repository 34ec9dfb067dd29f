// A slot put in before another: those behind it move one slot later.
ghost use Rattle.std.specs.Prelude.{◌≡◌, false, ◌++◌, ◌-◌, ◌≤◌, ◌<◌, length, take};
ghost use Rattle.rows.specs.Rows.{insert_at};
ghost use Rattle.rows.specs.Moves.{moved_later};
ghost use Rattle.model.specs.Limits.{max_fields};
ghost use Rattle.layout.specs.Layout.{is_empty, in_use, inserted_row};
ghost use Rattle.record.specs.Slots.{slot_bytes, record_bytes};

use crate::table::{SLOT, SLOTS};
use buffers::copy;
use layout::table::moved_end;

// Each byte one slot later: the last fall off, and the first stay as they were. The distance is a constant, so that the compiler makes one move of it.
fn shift(tail: &mut [u8])
    requires { slot_bytes ≤ length tail.old }
    ensures { tail.new ≡ moved_later slot_bytes tail.old }
{
    tail.copy_within(..tail.len() - SLOT, SLOT);
}

// A slot before what stands in `tail`, whose last slot falls off.
fn put_before(tail: &mut [u8], slot: &[u8])
    requires { (length slot.now ≡ slot_bytes) × (slot_bytes ≤ length tail.old) }
    ensures { tail.new ≡ slot.now ++ take (length tail.old - length slot.now) tail.old }
{
    shift(tail);
    copy(tail, slot);
}

// A slot at the place i, before what stood there: only slots in use move, and the empty one behind them. Of more than there is room for, the last falls off.
pub fn insert_slot(table: &mut [u8], i: usize, slot: &[u8])
    requires table_len { (length table.old ≡ record_bytes) × (length slot.now ≡ slot_bytes) × (is_empty slot.now ≡ false) }
    requires i_lt_max_fields { (i < max_fields) × (i ≤ length (in_use slot_bytes max_fields table.old)) }
    ensures table_after { in_use slot_bytes max_fields table.new ≡ take max_fields (insert_at i slot.now (in_use slot_bytes max_fields table.old)) }
    ensures table_after_2 { table.new ≡ inserted_row slot_bytes max_fields i slot.now table.old }
{
    let start = i * SLOT;
    let end = moved_end(table, SLOT, SLOTS, i);
    put_before(&mut table[start..end], slot);
}
