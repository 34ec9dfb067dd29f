// The three operations for callers in C and Rust. Slices go as a pointer and a length, arrays as a pointer.
#![tactic(auto)]

ghost use Rattle.std.specs.Prelude.{◌≡◌};
ghost use Rattle.model.specs.Limits.{max_copy, list_room};
ghost use Rattle.model.specs.Serving as serving;
ghost use Rattle.opening.specs.Answers.{texts_of};
ghost use Rattle.opening.specs.Memory.{arrays};
ghost use Rattle.record.specs.Slots.{record_bytes};
ghost use Rattle.sessions.specs.Logins.{login_numbers};
ghost use Rattle.server.specs.Replies.{answer_in, told_in};
ghost use Rattle.tables.specs.Memory.{tables_bytes};
ghost use Rattle.exports.specs.Numbers.{kind_of, number_of, OpensAs, ServesByMasks, ServesByPolicy, SavesAs};

use copies::COPY;
use lexical::limits::LIST_ROOM;
use refusals::Refusal;
use server::answer::Reply;
use server::open::{LOGINS, RECORD, TABLES, open};
use server::request::request;
use server::save::save;

// How large the arrays are that a caller lends: bytes of the tables, numbers of the login states, bytes of the fields.
#[unsafe(no_mangle)]
pub extern "C" fn jesovanga_tables() -> usize
    ensures { result ≡ tables_bytes }
{
    TABLES
}

#[unsafe(no_mangle)]
pub extern "C" fn jesovanga_logins() -> usize
    ensures { result ≡ login_numbers }
{
    LOGINS
}

#[unsafe(no_mangle)]
pub extern "C" fn jesovanga_record() -> usize
    ensures { result ≡ record_bytes }
{
    RECORD
}

// How long a buffer and a list are that are always long enough.
#[unsafe(no_mangle)]
pub extern "C" fn jesovanga_copy() -> usize
    ensures { result ≡ max_copy }
{
    COPY
}

#[unsafe(no_mangle)]
pub extern "C" fn jesovanga_list() -> usize
    ensures { result ≡ list_room }
{
    LIST_ROOM
}

// The kinds are numbers for C.
fn kind_of(reply: Result<Reply, Refusal>) -> u32
    ensures { result ≡ kind_of (answer_in reply) }
{
    match reply {
        Err(_) => 0,
        Ok(Reply::Session(_)) => 1,
        Ok(Reply::Length(_)) => 2,
        Ok(Reply::Accepted(_, _)) => 3,
    }
}

// A number for C, whatever is answered.
fn number_of(reply: Result<Reply, Refusal>) -> usize
    ensures { result ≡ number_of (answer_in reply) (told_in reply) }
{
    match reply {
        Err(refusal) => refusal.number(),
        Ok(Reply::Session(n)) => n as usize,
        Ok(Reply::Length(n)) => n,
        Ok(Reply::Accepted(told, _)) => told,
    }
}

// An opening: 0, or the number of the refusal, with its text and its line.
#[unsafe(no_mangle)]
pub extern "C" fn jesovanga_open(
    tables: &mut [u8; TABLES],
    logins: &mut [u16; LOGINS],
    fields: &mut [u8; RECORD],
    users: &[u8],
    environments: &[u8],
    policy: &[u8],
    text: &[u8],
    source: &mut usize,
    line: &mut usize,
) -> usize
    ensures { OpensAs
        (arrays tables.old logins.old fields.old)
        (texts_of users.now environments.now policy.now text.now)
        result source.new line.new
        (arrays tables.new logins.new fields.new) }
{
    match open(tables, logins, fields, users, environments, policy, text) {
        Ok(()) => {
            *source = 0;
            *line = 0;
            0
        }
        Err(fault) => {
            *source = fault.text;
            *line = fault.line;
            fault.refusal.number()
        }
    }
}

// A request: the number answered, and its kind: 0 a refusal, 1 a session, 2 a length, 3 how many numbers the list received.
#[unsafe(no_mangle)]
pub extern "C" fn jesovanga_request(
    tables: &[u8; TABLES],
    logins: &mut [u16; LOGINS],
    fields: &mut [u8; RECORD],
    line: &[u8],
    buffer: &mut [u8],
    list: &mut [u32],
    kind: &mut u32,
) -> usize
    ensures serves_by_masks { ServesByMasks
        (arrays tables.now logins.old fields.old)
        (serving.line line.now buffer.old list.old)
        kind.new result
        (arrays tables.now logins.new fields.new)
        buffer.new list.new }
    ensures serves_by_policy { ServesByPolicy
        (arrays tables.now logins.old fields.old)
        (serving.line line.now buffer.old list.old)
        kind.new result
        (arrays tables.now logins.new fields.new)
        buffer.new list.new }
{
    let reply = request(tables, logins, fields, line, buffer, list);
    *kind = kind_of(reply);
    number_of(reply)
}

// A save, answered in the same way.
#[unsafe(no_mangle)]
pub extern "C" fn jesovanga_save(fields: &[u8; RECORD], buffer: &mut [u8], kind: &mut u32) -> usize
    ensures { SavesAs fields.now buffer.old kind.new result buffer.new }
{
    let reply = save(fields, buffer);
    *kind = kind_of(reply);
    number_of(reply)
}
