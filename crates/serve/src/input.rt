// Requests from standard input: each line is answered before more input is waited for.
ghost use Rattle.std.specs.Prelude.{◌≡◌, ◌+◌, ◌-◌, ◌≤◌, min, length, take, drop, IfOk};

use lexical::slice::until;
use printing::{COPY, LIST, respond};
use server::open::{LOGINS, RECORD, TABLES};
use std::io;
use std::io::Read;

// What is read at once.
const INPUT: usize = 65536;

// What one line prints fits in half of it.
const OUTPUT: usize = 131072;

// A line that is longer than this is refused whatever stands behind, so no more of it is kept.
const LINE: usize = 257;

// Answers the lines that end in the input, and says where the rest begins.
fn answer_lines(
    rt: &impl Print,
    tables: &[u8; TABLES],
    logins: &mut [u16; LOGINS],
    fields: &mut [u8; RECORD],
    buffer: &mut [u8; COPY],
    list: &mut [u32; LIST],
    input: &[u8],
    out: &mut [u8],
) -> io::Result<usize>
    requires { (length out.old ≡ 131072) × (length input.now ≤ 65536) }
    ensures { IfOk result (λ rest. rest ≤ length input.now) }
{
    let mut at: usize = 0;
    let mut filled: usize = 0;
    // A cursor, which goes from line to line: how far, `until` says.
    loop {
        let end = until(input, at, b'\n');
        if end == input.len() {
            rt.write_all(&out[..filled])?;
            return Ok(at);
        }
        filled += respond(
            tables,
            logins,
            fields,
            &input[at..end],
            buffer,
            list,
            &mut out[filled..],
        );
        if 65536 < filled {
            rt.write_all(&out[..filled])?;
            filled = 0;
        }
        at = end + 1;
    }
}

// The bytes from `from` to `to` moved to the start, as many as are kept of a line; how many those are.
fn keep_line(input: &mut [u8], from: usize, to: usize) -> usize
    requires { (from ≤ to) × (to ≤ length input.old) }
    ensures upper_bound { (result ≤ 257) × (result ≤ length input.new) × (result ≡ min 257 (to - from)) }
    ensures input_after { take result input.new ≡ take 257 (drop from (take to input.old)) }
{
    let n = (to - from).min(LINE);
    input.copy_within(from..from + n, 0);
    n
}

// More input behind the bytes held; how many bytes came, 0 at the end.
fn read_more(reader: &mut impl Read, input: &mut [u8], held: usize) -> io::Result<usize>
    requires { held ≤ length input.old }
    ensures { IfOk result (λ more. held + more ≤ length input.new) }
{
    reader.read(&mut input[held..])
}

// Answers every line; the last may lack its 0A. The turns are counted, since a loop has to end: no input uses them up.
pub fn answer_all(
    rt: &(impl Input + Print),
    tables: &[u8; TABLES],
    logins: &mut [u16; LOGINS],
    fields: &mut [u8; RECORD],
) -> io::Result<()> {
    let mut reader = rt.reader();
    let mut buffer = [0u8; COPY];
    let mut list = [0u32; LIST];
    let mut input = [0u8; INPUT];
    let mut out = [0u8; OUTPUT];
    let mut held: usize = 0;
    for _ in 0..u64::MAX {
        let more = read_more(&mut reader, &mut input, held)?;
        if more == 0 {
            break;
        }
        let filled = held + more;
        let rest = answer_lines(
            rt,
            tables,
            logins,
            fields,
            &mut buffer,
            &mut list,
            &input[..filled],
            &mut out,
        )?;
        held = keep_line(&mut input, rest, filled);
    }
    if 0 < held {
        let n = respond(
            tables,
            logins,
            fields,
            &input[..held],
            &mut buffer,
            &mut list,
            &mut out,
        );
        rt.write_all(&out[..n])?;
    }
    Ok(())
}
