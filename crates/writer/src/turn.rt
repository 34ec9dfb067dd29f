// From one field to the next: objects closed, a comma, objects opened.
ghost use Rattle.std.specs.Prelude.{◌+◌, ◌≤◌, ◌<◌, ◌^◌, length, drop, replicate};
ghost use Rattle.rows.specs.Rows.{Wrote};
ghost use Rattle.model.specs.SavedText.{descend, turn};
ghost use Rattle.paths.specs.Layout.{path_slot, path_in};
ghost use Rattle.writer.specs.Selected.{descent_text, turn_text};

use buffers::{put, put_byte};
use layout::counted::count;
use lexical::limits::MAX_DEPTH;
use paths::field::shared_keys;
use paths::key::key_at;

// The keys of a path from the i-th on, each but the last with the brace of its object.
pub fn put_descent(out: &mut [u8], at: usize, path: &[u8], from: usize) -> usize
    requires { (path_slot ≤ length path.now) × (at + descent_text < 2 ^ 64) }
    ensures wrote { Wrote at (descend (drop from (path_in path.now))) out.old result out.new }
    ensures upper_bound { result ≤ at + descent_text }
{
    let n = count(path, MAX_DEPTH);
    let mut to = at;
    for i in from..n {
        to = put_byte(out, to, b'"');
        to = put(out, to, key_at(path, i));
        to = put_byte(out, to, b'"');
        to = put_byte(out, to, b':');
        if i + 1 < n {
            to = put_byte(out, to, b'{');
        }
    }
    to
}

// Closing braces.
pub fn put_braces(out: &mut [u8], at: usize, n: usize) -> usize
    requires { at + n < 2 ^ 64 }
    ensures { Wrote at (replicate n 0x7D) out.old result out.new }
{
    // Byte by byte and not by `fill`: what has no room in the buffer is left out, which `put_byte` sees to.
    for i in 0..n {
        put_byte(out, at + i, b'}');
    }
    at + n
}

// From the field at one path to the field at another: objects that hold both stay open.
pub fn put_turn(out: &mut [u8], at: usize, a: &[u8], b: &[u8]) -> usize
    requires { (path_slot ≤ length a.now) × (path_slot ≤ length b.now) × (at + turn_text + 1 < 2 ^ 64) }
    ensures wrote { Wrote at (turn (path_in a.now) (path_in b.now)) out.old result out.new }
    ensures upper_bound { result ≤ at + turn_text }
{
    let m = count(a, MAX_DEPTH);
    let n = count(b, MAX_DEPTH);
    let i = shared_keys(a, b);
    if m <= i {
        return at;
    }
    if n <= i {
        return at;
    }
    let closed = put_braces(out, at, m - i - 1);
    let to = put_byte(out, closed, b',');
    put_descent(out, to, b, i)
}
