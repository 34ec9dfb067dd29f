// The keys of an object so far, by their positions in the text.
ghost use Rattle.std.specs.Prelude.{◌≡◌, ◌-◌, ◌≤◌, ◌<◌, length, take, drop, set};
ghost use Rattle.model.specs.Limits.{max_text};
ghost use Rattle.reader.specs.Summaries.{stands_at_one};

use lexical::slice::starts;

// Whether the word w stands at one of the positions.
pub fn stands_at_one(w: &[u8], s: &[u8], at: &[u16]) -> bool
    requires { 0 < length w.now }
    ensures { result ≡ stands_at_one w.now s.now at.now }
{
    at.iter().any(|a| usize::from(*a) < s.len() && starts(s, usize::from(*a), w))
}

// Whether the word from `from` to `end` stands at one of the positions from `top` to `n`; its own position is put behind them.
pub fn note_key(s: &[u8], from: usize, end: usize, keys: &mut [u16], top: usize, n: usize) -> bool
    requires { (from < end) × (end ≤ length s.now) × (length s.now ≤ max_text) × (top ≤ n) × (n < length keys.old) }
    ensures value { result ≡ stands_at_one (take (end - from) (drop from s.now)) s.now (take (n - top) (drop top keys.old)) }
    ensures keys_after { keys.new ≡ set keys.old n from }
{
    let seen = stands_at_one(&s[from..end], s, &keys[top..n]);
    keys[n] = from as u16;
    seen
}
