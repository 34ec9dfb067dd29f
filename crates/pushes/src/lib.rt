// What a push comes to, before anything is changed.
#![tactic(auto)]

ghost use Rattle.std.specs.Prelude.{◌≡◌, false, ◌+◌, ◌<◌, ◌^◌, length};
ghost use Rattle.model.specs.Serving.{creating};
ghost use Rattle.tables.specs.Memory.{user_row, user_in};
ghost use Rattle.sessions.specs.Logins.{state_of};
ghost use Rattle.pushes.specs.Rulings.{RuledAs};

use layout::table::row_at;
use paths::field::PATH;
use record::table::{Place, RECORD, find};
use refusals::Refusal;
use sessions::{LOGINS, LoginState, session, state_at};
use tables::memory::{TABLES, USER, policy_of, quota};
use tables::rights::may_write;

// What an accepted push does: the login state of the user at the index becomes this one, and the field is stored at this place.
#[derive(Clone, Copy)]
pub struct Ruling {
    pub index: usize,
    pub state: LoginState,
    pub place: Place,
}

// One field more is created.
fn creating(state: LoginState) -> LoginState
    requires { state.created + 1 < 2 ^ 16 }
    ensures { state_of result ≡ creating (state_of state) false }
{
    LoginState {
        created: state.created + 1,
        ..state
    }
}

// The quota of a user, which fits two bytes, as the count of fields created does.
fn small_quota(user: &[u8]) -> usize
    requires { length user.now ≡ user_row }
    ensures { (result ≡ (user_in user.now).quota) × (result < 2 ^ 16) }
{
    quota(user)
}

// PUSH: refused for the session, for the right to write the path, and where the field is absent for the quota.
pub fn decide(
    tables: &[u8; TABLES],
    logins: &[u16; LOGINS],
    fields: &[u8; RECORD],
    n: u32,
    path: &[u8; PATH],
) -> Result<Ruling, Refusal>
    ensures { RuledAs tables.now logins.now fields.now
        n path.now result }
{
    let i = session(tables, logins, n).ok_or(Refusal::NoSession)?;
    let user = row_at(tables, USER, i);
    if !may_write(policy_of(tables), user, path) {
        return Err(Refusal::NoRight);
    }
    let state = state_at(logins, i);
    let place = find(fields, path);
    let Place::Before(_) = place else {
        return Ok(Ruling {
            index: i,
            state,
            place,
        });
    };
    if small_quota(user) <= (state.created as usize) {
        return Err(Refusal::QuotaUsed);
    }
    Ok(Ruling {
        index: i,
        state: creating(state),
        place,
    })
}
