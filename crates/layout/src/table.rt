// Rows of `size` bytes, at most `most`: those before the first empty one are in use. A row is empty where its first byte is 0.
ghost use Rattle.std.specs.Prelude.{◌≡◌, false, [], ◌∷◌, ◌++◌, ◌+◌, ◌*◌, ◌≤◌, ◌<◌, length, take, drop, set};
ghost use Rattle.layout.specs.Layout.{is_empty, in_use, Holds, over_row, moved_end, Tight, Keeps};

use buffers::{copy, put_byte, wipe};

// Whether a row is empty.
pub fn is_empty(row: &[u8]) -> bool
    requires { 0 < length row.now }
    ensures { result ≡ is_empty row.now }
{
    row[0] == 0
}

// The i-th row.
pub fn row_at(t: &[u8], size: usize, i: usize) -> &[u8]
    requires { i * size + size ≤ length t.now }
    ensures { (result.now ≡ take size (drop (i * size) t.now)) × (length result.now ≡ size) }
{
    let start = i * size;
    let end = start + size;
    &t[start..end]
}

// How many rows are in use, of which the first `from` are known to be.
fn count_from(t: &[u8], size: usize, most: usize, from: usize) -> usize
    requires { Holds size most t.now × (from ≤ length (in_use size most t.now)) }
    ensures { result ≡ length (in_use size most t.now) }
{
    for i in from..most {
        if t[i * size] == 0 {
            return i;
        }
    }
    most
}

// How many rows are in use.
pub fn row_count(t: &[u8], size: usize, most: usize) -> usize
    requires { Holds size most t.now }
    ensures { result ≡ length (in_use size most t.now) }
{
    count_from(t, size, most, 0)
}

// One row more behind those in use, where there is room for it: the row behind it is made empty.
pub fn push_row(t: &mut [u8], size: usize, most: usize, row: &[u8])
    requires { Holds size most t.old × (length row.now ≡ size) × (is_empty row.now ≡ false) }
    ensures t_after { in_use size most t.new ≡ take most (in_use size most t.old ++ row.now ∷ []) }
    ensures keeps { Keeps (Tight size most) t.old t.new }
{
    let n = row_count(t, size, most);
    if n < most {
        let start = n * size;
        let end = start + size;
        put_byte(t, end, 0);
        copy(&mut t[start..], row);
    }
}

// A row in the place of the i-th, which is in use.
pub fn replace_row(t: &mut [u8], size: usize, most: usize, i: usize, row: &[u8])
    requires holds { Holds size most t.old × (length row.now ≡ size) × (is_empty row.now ≡ false) }
    requires i_in_bounds { i < length (in_use size most t.old) }
    ensures t_after { in_use size most t.new ≡ set (in_use size most t.old) i row.now }
    ensures t_after_2 { t.new ≡ over_row size i row.now t.old }
{
    let start = i * size;
    copy(&mut t[start..], row);
}

// Where what a new row moves ends: behind the rows in use, of which the first `from` are known to be, one more for it, and the empty one; at most behind all rows.
pub fn moved_end(t: &[u8], size: usize, most: usize, from: usize) -> usize
    requires { Holds size most t.now × (from ≤ length (in_use size most t.now)) }
    ensures { result ≡ moved_end size most t.now }
{
    (count_from(t, size, most, from) + 2).min(most) * size
}

// A table with zeros behind its rows, copied: only the rows in use are read.
pub fn copy_rows(to: &mut [u8], from: &[u8], size: usize, most: usize)
    requires { Holds size most from.now × (length to.old ≡ most * size) × Tight size most from.now }
    ensures { to.new ≡ from.now }
{
    let end = row_count(from, size, most) * size;
    copy(to, &from[..end]);
    wipe(&mut to[end..]);
}
