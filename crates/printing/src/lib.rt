// All that the program prints: for a line, and for a refused opening.
#![tactic(auto)]

ghost use Rattle.std.specs.Prelude.{◌≡◌, ◌+◌, ◌≤◌, length};
ghost use Rattle.rows.specs.Rows.{Wrote};
ghost use Rattle.model.specs.Limits.{max_copy};
ghost use Rattle.model.specs.Opening.{fault};
ghost use Rattle.model.specs.Program.{print_answer, print_fault};
ghost use Rattle.opening.specs.Memory.{arrays};
ghost use Rattle.server.specs.Replies.{answer_in, outputs};
ghost use Rattle.printing.specs.Printed.{mark_length, most_numbered, most_fault, numbered, opening_text, Inside, RespondsByMasks, RespondsByPolicy};

use buffers::{put, put_byte, put_decimal};
pub use copies::COPY;
use deliveries::put_deliveries;
use lexical::limits::LIST_ROOM;
use opening::answer::Fault;
use refusals::Refusal;
use server::answer::Reply;
use server::open::{LOGINS, RECORD, TABLES};
use server::request::request;

// The list that a push is lent.
pub const LIST: usize = LIST_ROOM;

// `OK;` or `NO;`, a number and 0A.
fn put_numbered(out: &mut [u8], mark: &[u8], n: usize) -> usize
    requires { length mark.now ≡ mark_length }
    ensures wrote { Wrote 0 (numbered mark.now n) out.old result out.new }
    ensures upper_bound { result ≤ most_numbered }
{
    let mut to = put(out, 0, mark);
    to = put_decimal(out, to, n);
    put_byte(out, to, b'\n')
}

// The answer; behind a length, as many first bytes of the buffer.
fn put_answer(out: &mut [u8], reply: Result<Reply, Refusal>, buffer: &[u8]) -> usize
    requires { (length buffer.now ≡ max_copy) × Inside reply (length buffer.now) }
    ensures wrote { Wrote 0 (print_answer buffer.now (answer_in reply)) out.old result out.new }
    ensures upper_bound { result ≤ max_copy + most_numbered }
{
    match reply {
        Err(refusal) => put_numbered(out, b"NO;", refusal.number()),
        Ok(Reply::Session(n)) => put_numbered(out, b"OK;", n as usize),
        Ok(Reply::Length(n)) => {
            let to = put_numbered(out, b"OK;", n);
            put(out, to, &buffer[..n])
        }
        Ok(Reply::Accepted(_, _)) => put(out, 0, b"OK\n"),
    }
}

// One line answered, and what is printed for it: the answer, and for those who are told the deliveries, with path and value as they stand in the line.
pub fn respond(
    tables: &[u8; TABLES],
    logins: &mut [u16; LOGINS],
    fields: &mut [u8; RECORD],
    line: &[u8],
    buffer: &mut [u8; COPY],
    list: &mut [u32; LIST],
    out: &mut [u8],
) -> usize
    ensures responds_by_masks { RespondsByMasks
        (arrays tables.now logins.old fields.old)
        line.now (outputs buffer.old list.old)
        (arrays tables.now logins.new fields.new)
        (outputs buffer.new list.new)
        out.old result out.new }
    ensures responds_by_policy { RespondsByPolicy
        (arrays tables.now logins.old fields.old)
        line.now (outputs buffer.old list.old)
        (arrays tables.now logins.new fields.new)
        (outputs buffer.new list.new)
        out.old result out.new }
{
    let reply = request(tables, logins, fields, line, buffer, list);
    let to = put_answer(out, reply, buffer);
    let Ok(given) = reply else {
        return to;
    };
    let Reply::Accepted(told, at) = given else {
        return to;
    };
    put_deliveries(out, to, list, told, &line[at..])
}

// `NO;number;text;line`, whatever the three numbers are.
pub fn put_fault(out: &mut [u8], number: usize, text: usize, line: usize) -> usize
    ensures wrote { Wrote 0 (print_fault (fault number text line)) out.old result out.new }
    ensures upper_bound { result ≤ most_fault }
{
    let mut to = put(out, 0, b"NO;");
    to = put_decimal(out, to, number);
    to = put_byte(out, to, b';');
    to = put_decimal(out, to, text);
    to = put_byte(out, to, b';');
    to = put_decimal(out, to, line);
    put_byte(out, to, b'\n')
}

// The same of a refused opening; nothing for an accepted one.
pub fn put_opening(out: &mut [u8], opened: Result<(), Fault>) -> usize
    ensures wrote { Wrote 0 (opening_text opened) out.old result out.new }
    ensures upper_bound { result ≤ most_fault }
{
    let Err(fault) = opened else {
        return 0;
    };
    put_fault(out, fault.refusal.number(), fault.text, fault.line)
}
