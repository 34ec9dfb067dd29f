// Keys in rows, behind a byte that says how many there are.
ghost use Rattle.std.specs.Prelude.{◌≡◌, [], ◌∷◌, ◌++◌, ◌+◌, ◌*◌, ◌≤◌, length, take, drop};
ghost use Rattle.layout.specs.Layout.{key_row, name_in, counted, Keeps, CanonicalKeys};
ghost use Rattle.model.specs.Limits.{max_key, max_depth};

use layout::name::KEY_ROW;
use layout::{counted, name};

// The i-th key of a slot of keys.
pub fn key_at(slot: &[u8], i: usize) -> &[u8]
    requires { i * key_row + 1 + key_row ≤ length slot.now }
    ensures { result.now ≡ name_in (take key_row (drop (i * key_row + 1) slot.now)) }
{
    name::name(counted::row_at(slot, KEY_ROW, i))
}

// One key more, where there is room for it among `most`.
pub fn push_key(slot: &mut [u8], key: &[u8], most: usize)
    requires { (most * key_row + 1 ≤ length slot.old) × (most ≤ max_depth) }
    ensures slot_after { counted name_in key_row most slot.new ≡ take most (counted name_in key_row most slot.old ++ (take max_key key.now ∷ [])) }
    ensures keeps { Keeps (CanonicalKeys most) slot.old slot.new }
{
    let mut row = [0u8; KEY_ROW];
    name::put_name(&mut row, key);
    counted::push_row(slot, KEY_ROW, most, &row);
}
