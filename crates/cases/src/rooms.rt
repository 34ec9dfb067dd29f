// The copy and the saved text that the worked afternoon leaves, each asked for with just enough room and with one byte less.
use printing::LIST;
use refusals::Refusal;
use server::answer::Reply;
use server::open::{LOGINS, RECORD, TABLES};
use server::request::request;
use server::save::save;
use std::io;

fn text(rt: &impl Print, s: &[u8]) -> io::Result<()> {
    rt.write_all(s)
}

fn number(rt: &impl Print, n: usize) -> io::Result<()> {
    print!(rt; "{n}")
}

// `name room: answer` on a line, and whether the buffer was written.
fn print_reply(
    rt: &impl Print,
    name: &[u8],
    room: usize,
    reply: Result<Reply, Refusal>,
) -> io::Result<bool> {
    text(rt, name)?;
    number(rt, room)?;
    match reply {
        Ok(Reply::Length(n)) => {
            text(rt, b": OK;")?;
            number(rt, n)?;
            text(rt, b"\n")?;
            Ok(true)
        }
        Err(refusal) => {
            text(rt, b": NO;")?;
            number(rt, refusal.number())?;
            text(rt, b"\n")?;
            Ok(false)
        }
        Ok(Reply::Session(_)) | Ok(Reply::Accepted(_, _)) => {
            text(rt, b": neither\n")?;
            Ok(false)
        }
    }
}

// Bob's copy, of which the whole buffer is printed: as long as the copy, where it is written.
fn print_copy(
    rt: &impl Print,
    tables: &[u8; TABLES],
    logins: &mut [u16; LOGINS],
    fields: &mut [u8; RECORD],
    buffer: &mut [u8],
) -> io::Result<()> {
    let mut list = [0u32; LIST];
    let reply = request(tables, logins, fields, b"GET;65537", buffer, &mut list);
    if print_reply(rt, b"GET ", buffer.len(), reply)? {
        text(rt, buffer)?;
    }
    Ok(())
}

// The saved text, which has no 0A.
fn print_saved(rt: &impl Print, fields: &[u8; RECORD], buffer: &mut [u8]) -> io::Result<()> {
    let reply = save(fields, buffer);
    if print_reply(rt, b"SAVE ", buffer.len(), reply)? {
        text(rt, buffer)?;
        text(rt, b"\n")?;
    }
    Ok(())
}

// Bob's copy has 167 bytes, the saved text 104.
pub fn print_rooms(
    rt: &impl Print,
    tables: &[u8; TABLES],
    logins: &mut [u16; LOGINS],
    fields: &mut [u8; RECORD],
) -> io::Result<()> {
    let mut copy = [0u8; 167];
    print_copy(rt, tables, logins, fields, &mut copy)?;
    let mut short_copy = [0u8; 166];
    print_copy(rt, tables, logins, fields, &mut short_copy)?;
    let mut saved = [0u8; 104];
    print_saved(rt, fields, &mut saved)?;
    let mut short_saved = [0u8; 103];
    print_saved(rt, fields, &mut short_saved)
}
