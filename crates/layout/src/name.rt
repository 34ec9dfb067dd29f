// A name in a row: how many bytes it has, and room for the longest.
ghost use Rattle.std.specs.Prelude.{◌≡◌, ◌∷◌, ◌+◌, ◌-◌, ◌≤◌, ◌<◌, min, length, take, drop};
ghost use Rattle.rows.specs.Rows.{written};
ghost use Rattle.layout.specs.Layout.{name_in};

use buffers::put;
use lexical::limits::{MAX_KEY, MAX_NAME};

// Rows of a name and of a key: how long it is, and room for the longest.
pub const NAME_ROW: usize = 1 + MAX_NAME;

pub const KEY_ROW: usize = 1 + MAX_KEY;

// The name in a row.
pub fn name(row: &[u8]) -> &[u8]
    requires { 0 < length row.now }
    ensures { result.now ≡ name_in row.now }
{
    let end = 1 + (row[0] as usize).min(row.len() - 1);
    &row[1..end]
}

// The name in the row of `size` bytes that stands at a position.
pub fn name_from(s: &[u8], at: usize, size: usize) -> &[u8]
    requires { (at + size ≤ length s.now) × (0 < size) }
    ensures { result.now ≡ name_in (take size (drop at s.now)) }
{
    let end = at + size;
    name(&s[at..end])
}

// A name, as much of it as there is room for, into a row: the bytes behind it keep their values.
pub fn put_name(row: &mut [u8], name: &[u8])
    requires { (0 < length row.old) × (length row.old ≤ 256) }
    ensures { row.new ≡ written 0 (min (length name.now) (length row.old - 1) ∷ take (length row.old - 1) name.now) row.old }
{
    let n = name.len().min(row.len() - 1);
    row[0] = n as u8;
    put(row, 1, &name[..n]);
}
