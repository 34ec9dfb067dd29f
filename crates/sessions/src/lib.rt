// Login states: for each user index the logins, whether a session is open, and the fields created.
#![tactic(auto)]

ghost use Rattle.std.specs.Prelude.{◌≡◌, ◌<◌, get_or};
ghost use Rattle.model.specs.Limits.{max_users, max_logins};
ghost use Rattle.model.specs.Opening.{empty_login};
ghost use Rattle.model.specs.Serving.{session_number};
ghost use Rattle.sessions.specs.Logins.{logins_in, state_of, StateStored, with_session, entered, closed, LoggedIn, parts_in, session_of};

use layout::name::{NAME_ROW, name_from};
use layout::table::row_count;
use lexical::limits::{LOGIN_BITS, MAX_LOGINS};
use lexical::slice::same_bytes;
use refusals::Refusal;
use tables::memory::{KEY, TABLES, USER, USERS, find_user};

// A login state: the logins, whether a session is open, the fields created.
pub const LOGIN_ROW: usize = 3;

pub const LOGINS: usize = USERS * LOGIN_ROW;

// The bits of the logins, all set.
const LOGIN_MASK: u32 = (1 << LOGIN_BITS) - 1;

#[derive(Clone, Copy)]
pub struct LoginState {
    pub logins: u16,
    pub is_open: bool,
    pub created: u16,
}

// A number in the two parts that document 01 divides it into: a user's index, if there is such a user, and a count of logins.
#[derive(Clone, Copy)]
pub struct NumberParts {
    pub index: usize,
    pub logins: u16,
}

// The login state at an index.
pub fn state_at(logins: &[u16; LOGINS], i: usize) -> LoginState
    requires { i < max_users }
    ensures { state_of result ≡ get_or (logins_in logins.now) i empty_login }
{
    let at = i * LOGIN_ROW;
    LoginState {
        logins: logins[at],
        is_open: logins[at + 1] != 0,
        created: logins[at + 2],
    }
}

// The login state at an index becomes this one.
pub fn put_state(logins: &mut [u16; LOGINS], i: usize, state: LoginState)
    requires { i < max_users }
    ensures { StateStored logins.old i (state_of state) logins.new }
{
    let numbers: &mut [u16] = logins; // a slice, of which the proof knows how long it is
    let at = i * LOGIN_ROW;
    numbers[at] = state.logins;
    numbers[at + 1] = state.is_open as u16;
    numbers[at + 2] = state.created;
}

// The session number of a login state at an index.
pub fn number(i: usize, state: LoginState) -> u32
    requires { i < max_users }
    ensures { result ≡ session_number i (state_of state) }
{
    ((i as u32) << LOGIN_BITS) | (state.logins as u32)
}

// A u32 of any value, taken apart without a division.
pub fn split_number(n: u32) -> NumberParts
    ensures { result ≡ parts_in n }
{
    NumberParts {
        index: (n >> LOGIN_BITS) as usize,
        logins: (n & LOGIN_MASK) as u16,
    }
}

// The login count and whether a session is open become these; the fields created stay counted.
fn set_session(state: &mut LoginState, logins: u16, is_open: bool)
    ensures { state_of state.new ≡ with_session (state_of state.old) logins is_open }
{
    state.logins = logins;
    state.is_open = is_open;
}

// A login: one more, and a session is open.
fn entered(state: LoginState) -> LoginState
    requires { state.logins < max_logins }
    ensures { state_of result ≡ entered (state_of state) }
{
    let mut next = state;
    set_session(&mut next, state.logins + 1, true);
    next
}

// A logout: the session is closed, the counts stay.
pub fn closed(state: LoginState) -> LoginState
    ensures { state_of result ≡ closed (state_of state) }
{
    let mut next = state;
    set_session(&mut next, state.logins, false);
    next
}

// LOGIN: the session's number.
pub fn login(
    tables: &[u8; TABLES],
    logins: &mut [u16; LOGINS],
    name: &[u8],
    key: &[u8],
) -> Result<u32, Refusal>
    ensures { LoggedIn tables.now logins.old
        name.now key.now result logins.new }
{
    let Some(i) = find_user(tables, name) else {
        return Err(Refusal::WrongLogin);
    };
    if !same_bytes(name_from(tables, i * USER + KEY, NAME_ROW), key) {
        return Err(Refusal::WrongLogin); // as for an unknown user
    }
    let state = state_at(logins, i);
    if state.is_open {
        return Err(Refusal::HasSession);
    }
    if MAX_LOGINS <= state.logins {
        return Err(Refusal::LoginsUsed);
    }
    let next = entered(state);
    put_state(logins, i, next);
    Ok(number(i, next))
}

// The user whose open session has the number n: the one at its index, with its count of logins.
pub fn session(tables: &[u8; TABLES], logins: &[u16; LOGINS], n: u32) -> Option<usize>
    ensures { result ≡ session_of tables.now logins.now n }
{
    let parts = split_number(n);
    let i = parts.index;
    if row_count(tables, USER, USERS) <= i {
        return None;
    }
    let state = state_at(logins, i);
    if !state.is_open {
        return None;
    }
    if state.logins != parts.logins {
        return None;
    }
    Some(i)
}
