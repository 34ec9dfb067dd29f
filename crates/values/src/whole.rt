// Whole numbers written.
ghost use Rattle.std.specs.Prelude.{◌+◌, ◌<◌, ◌^◌};
ghost use Rattle.rows.specs.Rows.{Wrote};
ghost use Rattle.model.specs.Values.{value_text, whole};

use buffers::{put_byte, put_decimal};

// An i32: its sign where it is below 0, and the digits of its size.
pub fn put_whole(out: &mut [u8], at: usize, z: i32) -> usize
    requires { at + 11 < 2 ^ 64 }
    ensures { Wrote at (value_text (whole z)) out.old result out.new }
{
    let size = z.unsigned_abs() as usize;
    if z < 0 {
        let to = put_byte(out, at, b'-');
        return put_decimal(out, to, size);
    }
    put_decimal(out, at, size)
}
