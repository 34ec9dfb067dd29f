// Whom a push reaches, and the lines that are sent.
#![tactic(auto)]

ghost use Rattle.std.specs.Prelude.{◌≡◌, ◌+◌, ◌≤◌, ◌<◌, ◌^◌, length};
ghost use Rattle.rows.specs.Rows.{Wrote};
ghost use Rattle.model.specs.Limits.{max_users, max_line};
ghost use Rattle.sessions.specs.Logins.{logins_in};
ghost use Rattle.deliveries.specs.Receivers.{receives, Listed, delivery_text, delivery_of, deliveries_text, deliveries_of};

use buffers::{put, put_byte, put_decimal};
use lexical::limits::MAX_USERS;
use masks::{has_bit, none_from};
use sessions::{LOGINS, number, state_at};

// Whether a push by the user at i reaches the one at j. The mask is asked first: it is at hand, and a login state is then looked up only where it counts.
#[tactic(auto, unfolding(crate::specs::Receivers::receives))]
fn receives(logins: &[u16; LOGINS], i: usize, mask: u32, j: usize) -> bool
    requires { j < max_users }
    ensures { result ≡ receives (logins_in logins.now) i mask j }
{
    if !has_bit(mask, j) {
        return false;
    }
    if j == i {
        return false;
    }
    state_at(logins, j).is_open
}

// The session numbers that a push by the user at i reaches, of the users whom the mask marks, ascending, at the start of the list; how many they are. Behind the mask's last bit nobody is asked.
pub fn put_receivers(list: &mut [u32], logins: &[u16; LOGINS], i: usize, mask: u32) -> usize
    requires { max_users ≤ length list.old }
    ensures { Listed logins.now i mask list.old result list.new }
{
    let mut told: usize = 0;
    for j in 0..MAX_USERS {
        if none_from(mask, j) {
            return told;
        }
        if receives(logins, i, mask, j) {
            list[told] = number(j, state_at(logins, j));
            told += 1;
        }
    }
    told
}

// `TO;session;` and what was pushed: the path and the value as they stood in the line.
fn put_delivery(out: &mut [u8], at: usize, n: u32, pushed: &[u8]) -> usize
    requires { (length pushed.now ≤ max_line) × (at + delivery_text < 2 ^ 64) }
    ensures wrote { Wrote at (delivery_of pushed.now n) out.old result out.new }
    ensures upper_bound { result ≤ at + delivery_text }
{
    let mut to = put(out, at, b"TO;");
    to = put_decimal(out, to, n as usize);
    to = put_byte(out, to, b';');
    to = put(out, to, pushed);
    put_byte(out, to, b'\n')
}

// A line for each of the first `told` numbers of the list.
pub fn put_deliveries(out: &mut [u8], at: usize, list: &[u32], told: usize, pushed: &[u8]) -> usize
    requires { (told ≤ length list.now) × (told ≤ max_users)
        × (length pushed.now ≤ max_line) × (at + deliveries_text < 2 ^ 64) }
    ensures wrote { Wrote at (deliveries_of pushed.now list.now told)
        out.old result out.new }
    ensures upper_bound { result ≤ at + deliveries_text }
{
    let mut to = at;
    for &n in &list[..told] {
        to = put_delivery(out, to, n, pushed);
    }
    to
}
