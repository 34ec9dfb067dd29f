// One request line: taken apart, decided and answered.
ghost use Rattle.std.specs.Prelude.{◌≡◌, ◌≤◌, ◌<◌, length};
ghost use Rattle.values.specs.Scalars.{value_in};
ghost use Rattle.paths.specs.Layout.{path_in};
ghost use Rattle.masks.specs.Readers.{readers_of};
ghost use Rattle.tables.specs.Memory.{tables_in};
ghost use Rattle.record.specs.Slots.{fields_in, masks_in};
ghost use Rattle.record.specs.Search.{place_in};
ghost use Rattle.opening.specs.Memory.{arrays};
ghost use Rattle.server.specs.Masked.{mask_at};
ghost use Rattle.server.specs.Replies.{outputs, ServedByMasks, ServedByPolicy, LoginServed, GetServed, PushServed, LogoutServed, Storable};

use crate::answer::Reply;
use crate::open::{LOGINS, RECORD, TABLES};
use copies::{put_copy, put_head};
use deliveries::put_receivers;
use layout::table::row_at;
use lexical::limits::LIST_ROOM;
use paths::field::PATH;
use pushes::decide;
use record::slot::{mask_of, store_value_at};
use record::table::{Place, slot_at};
use refusals::Refusal;
use requests::{Ask, Request, parse};
use sessions::{closed, put_state, session, state_at};
use tables::memory::{USER, policy_of};
use tables::rights::readers;
use values::value::Scalar;
use writer::saved::MOST_SAVED;

// LOGIN, the user in the line from a position up to the `;` at `cut`, behind which the key stands.
fn login(
    tables: &[u8; TABLES],
    logins: &mut [u16; LOGINS],
    line: &[u8],
    from: usize,
    cut: usize,
) -> Result<Reply, Refusal>
    requires { (from ≤ cut) × (cut < length line.now) }
    ensures { LoginServed tables.now logins.old
        line.now from cut result logins.new }
{
    let key = cut + 1;
    let n = sessions::login(tables, logins, &line[from..cut], &line[key..])?;
    Ok(Reply::Session(n))
}

// GET: the copy is written if it fits. What stands behind its head is measured only where there is no room for the longest saved text.
fn get(
    tables: &[u8; TABLES],
    logins: &[u16; LOGINS],
    fields: &[u8; RECORD],
    n: u32,
    buffer: &mut [u8],
) -> Result<Reply, Refusal>
    ensures { GetServed
        (arrays tables.now logins.now fields.now)
        n buffer.old result buffer.new }
{
    let i = session(tables, logins, n).ok_or(Refusal::NoSession)?;
    let user = row_at(tables, USER, i);
    let policy = policy_of(tables);
    let head = put_head(&mut buffer[..0], 0, policy, user);
    if buffer.len() <= head + MOST_SAVED {
        let length = put_copy(&mut buffer[..0], 0, policy, user, fields, i);
        if buffer.len() < length {
            return Err(Refusal::NoRoom);
        }
    }
    let length = put_copy(buffer, 0, policy, user, fields, i);
    Ok(Reply::Length(length))
}

// The mask of a path, found at a place: the one beside the field that is held there, or made from the policy.
fn mask_for(tables: &[u8; TABLES], fields: &[u8; RECORD], place: Place, path: &[u8; PATH]) -> u32
    requires { place ≡ place_in 0 (path_in path.now) (fields_in fields.now) }
    ensures { result ≡ mask_at place (readers_of (tables_in tables.now) (path_in path.now)) (masks_in fields.now) }
{
    match place {
        Place::At(at) => mask_of(slot_at(fields, at)),
        Place::Before(_) => readers(tables, path),
    }
}

// PUSH of what stands in the line from a position on: the list is filled before anything is changed.
fn push(
    tables: &[u8; TABLES],
    logins: &mut [u16; LOGINS],
    fields: &mut [u8; RECORD],
    n: u32,
    path: &[u8; PATH],
    value: Scalar,
    line: &[u8],
    at: usize,
    list: &mut [u32],
) -> Result<Reply, Refusal>
    requires { Storable path.now line.now at value }
    ensures { PushServed
        (arrays tables.now logins.old fields.old)
        line.now n (path_in path.now) (value_in line.now value) list.old result
        (arrays tables.now logins.new fields.new) list.new }
{
    if list.len() < LIST_ROOM {
        return Err(Refusal::NoRoom);
    }
    let ruling = decide(tables, logins, fields, n, path)?;
    let mask = mask_for(tables, fields, ruling.place, path);
    let told = put_receivers(list, logins, ruling.index, mask);
    put_state(logins, ruling.index, ruling.state);
    store_value_at(fields, ruling.place, path, mask, value, line);
    Ok(Reply::Accepted(told, at))
}

// LOGOUT: the session is closed, and nobody is told.
fn logout(tables: &[u8; TABLES], logins: &mut [u16; LOGINS], n: u32) -> Result<Reply, Refusal>
    ensures { LogoutServed tables.now logins.old n result logins.new }
{
    let i = session(tables, logins, n).ok_or(Refusal::NoSession)?;
    let left = closed(state_at(logins, i));
    put_state(logins, i, left);
    Ok(Reply::Accepted(0, 0))
}

// A line of any bytes, with any buffer and any list: by the masks, whatever they are; as documents 01 and 02 say where they agree with the policy, as they then do again.
pub fn request(
    tables: &[u8; TABLES],
    logins: &mut [u16; LOGINS],
    fields: &mut [u8; RECORD],
    line: &[u8],
    buffer: &mut [u8],
    list: &mut [u32],
) -> Result<Reply, Refusal>
    ensures served_by_masks { ServedByMasks
        (arrays tables.now logins.old fields.old)
        line.now (outputs buffer.old list.old) result
        (arrays tables.now logins.new fields.new)
        (outputs buffer.new list.new) }
    ensures served_by_policy { ServedByPolicy
        (arrays tables.now logins.old fields.old)
        line.now (outputs buffer.old list.old) result
        (arrays tables.now logins.new fields.new)
        (outputs buffer.new list.new) }
{
    let mut path = [0u8; PATH];
    let Some(asked) = parse(line, &mut path) else {
        return Err(Refusal::NotRequest);
    };
    match asked {
        Request::Login(from, cut) => login(tables, logins, line, from, cut),
        Request::InSession(n, ask) => match ask {
            Ask::Get => get(tables, logins, fields, n, buffer),
            Ask::Push(at, value) => push(tables, logins, fields, n, &path, value, line, at, list),
            Ask::Logout => logout(tables, logins, n),
        },
    }
}
