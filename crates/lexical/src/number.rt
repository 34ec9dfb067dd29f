// Decimal numbers.
ghost use Rattle.std.specs.Prelude.{◌≡◌, ◌≤◌};
ghost use Rattle.model.specs.Limits.{max_session};
ghost use Rattle.model.specs.Base.{number};

use crate::class::is_digit;

// A whole text that is a number of at most `most`, with no leading zero but in `0` itself.
pub fn number(s: &[u8], most: u64) -> Option<u64>
    requires { most ≤ max_session }
    ensures { result ≡ number most s.now }
{
    if s.len() == 0 {
        return None;
    }
    if s[0] == b'0' {
        if 1 < s.len() {
            return None;
        }
    }
    let mut n: u64 = 0;
    for &b in s {
        if !is_digit(b) {
            return None;
        }
        n = n * 10 + ((b - b'0') as u64);
        if most < n {
            return None;
        }
    }
    Some(n)
}
