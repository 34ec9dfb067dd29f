// Writers: each stores what falls inside the buffer from `at` on, and answers where the text ends; and a slice copied or wiped.
// The position stands beside the buffer: with a struct of both, writing takes more instructions (DECISIONS 138).
#![tactic(auto)]

ghost use Rattle.std.specs.Prelude.{◌≡◌, [], ◌∷◌, ◌++◌, ◌+◌, ◌≤◌, ◌<◌, ◌^◌, length, drop, replicate};
ghost use Rattle.rows.specs.Rows.{Wrote};
ghost use Rattle.model.specs.Base.{decimal};

pub fn put_byte(out: &mut [u8], at: usize, b: u8) -> usize
    requires { at + 1 < 2 ^ 64 }
    ensures { Wrote at (b ∷ []) out.old result out.new }
{
    if at < out.len() {
        out[at] = b;
        return at + 1;
    }
    at + 1
}

// Copied in one piece: byte by byte, each would be compared with the buffer's end.
pub fn put(out: &mut [u8], at: usize, bytes: &[u8]) -> usize
    requires { at + length bytes.now < 2 ^ 64 }
    ensures { Wrote at bytes.now out.old result out.new }
{
    let end = at + bytes.len();
    if out.len() <= at {
        return end;
    }
    let n = bytes.len().min(out.len() - at);
    copy(&mut out[at..], &bytes[..n]);
    end
}

// A text between two of the same quote.
pub fn put_quoted(out: &mut [u8], at: usize, quote: u8, bytes: &[u8]) -> usize
    requires { at + length bytes.now + 2 < 2 ^ 64 }
    ensures { Wrote at (quote ∷ (bytes.now ++ (quote ∷ []))) out.old result out.new }
{
    let open = put_byte(out, at, quote);
    let close = put(out, open, bytes);
    put_byte(out, close, quote)
}

// A number in decimal: the digits before the last, and the last.
pub fn put_decimal(out: &mut [u8], at: usize, n: usize) -> usize
    requires { at + length (decimal n) < 2 ^ 64 }
    ensures { Wrote at (decimal n) out.old result out.new }
{
    let last = b'0' + ((n % 10) as u8);
    if n < 10 {
        return put_byte(out, at, last);
    }
    let to = put_decimal(out, at, n / 10);
    put_byte(out, to, last)
}

// The bytes of `src` at the start of `dst`: by a loop, since `copy_from_slice` is slower for texts as short as names (DECISIONS 143).
pub fn copy(dst: &mut [u8], src: &[u8])
    requires { length src.now ≤ length dst.old }
    ensures { dst.new ≡ src.now ++ drop (length src.now) dst.old }
{
    for i in 0..src.len() {
        dst[i] = src[i];
    }
}

// Every byte 0: nothing of what stood there stays.
pub fn wipe(s: &mut [u8])
    ensures { s.new ≡ replicate (length s.old) 0 }
{
    s.fill(0);
}
