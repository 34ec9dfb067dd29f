// The lines of an input, each answered as it stands.
ghost use Rattle.std.specs.Prelude.{◌≤◌, length};

use lexical::slice::until;
use printing::{COPY, LIST, respond};
use server::open::{LOGINS, RECORD, TABLES};
use std::io;

// What one line prints.
const OUTPUT: usize = 65536;

pub fn answer_input(
    rt: &impl Print,
    tables: &[u8; TABLES],
    logins: &mut [u16; LOGINS],
    fields: &mut [u8; RECORD],
    input: &[u8],
) -> io::Result<()>
    requires { length input.now ≤ 65600 }
{
    let mut buffer = [0u8; COPY];
    let mut list = [0u32; LIST];
    let mut out = [0u8; OUTPUT];
    let mut at: usize = 0;
    // A cursor, which goes from line to line: how far, `until` says.
    while at < input.len() {
        let end = until(input, at, b'\n');
        let n = respond(
            tables,
            logins,
            fields,
            &input[at..end],
            &mut buffer,
            &mut list,
            &mut out,
        );
        rt.write_all(&out[..n])?;
        at = end + 1;
    }
    Ok(())
}
