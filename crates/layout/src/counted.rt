// Rows of `size` bytes behind a byte that says how many they are.
ghost use Rattle.std.specs.Prelude.{◌≡◌, [], ◌∷◌, ◌++◌, ◌+◌, ◌*◌, ◌≤◌, ◌<◌, length, take, drop};
ghost use Rattle.layout.specs.Layout.{slot_count, counted_rows, TightCounted, Keeps};

use crate::table;
use buffers::copy;

// How many rows a slot says it has, at most `most`.
pub fn count(slot: &[u8], most: usize) -> usize
    requires { 0 < length slot.now }
    ensures { result ≡ slot_count most slot.now }
{
    (slot[0] as usize).min(most)
}

// The i-th row.
pub fn row_at(slot: &[u8], size: usize, i: usize) -> &[u8]
    requires { i * size + 1 + size ≤ length slot.now }
    ensures { (result.now ≡ take size (drop (i * size + 1) slot.now)) × (length result.now ≡ size) }
{
    table::row_at(&slot[1..], size, i)
}

// One row more, where there is room for it among `most`.
pub fn push_row(slot: &mut [u8], size: usize, most: usize, row: &[u8])
    requires { (most * size + 1 ≤ length slot.old) × (most < 256) × (0 < size) × (length row.now ≡ size) }
    ensures slot_after { counted_rows size most slot.new ≡ take most (counted_rows size most slot.old ++ row.now ∷ []) }
    ensures keeps { Keeps (TightCounted size most) slot.old slot.new }
{
    let n = count(slot, most);
    if n < most {
        let start = n * size + 1;
        copy(&mut slot[start..], row);
        slot[0] = n as u8 + 1;
    }
}
